//! The lines of all addresses, and the files that they are in.

ghost use Rattle.std.specs.Prelude.{◌≡◌, ◌<◌, ◌^◌, ◌↔◌, ◌++◌, ◌∷◌, [], ℕ, IfOk, OnOk, All, Contains, length, map};
ghost use Rattle.std.specs.Prelude.{slice_index};
ghost use Rattle.std.specs.Ordering.{nat_cmp};
ghost use Rattle.std.specs.List.Sorted.{IsStrictlySortedBy};
ghost use Rattle.dwarf_line.specs.Rows.{IsPlaced, IsRising, row_address, sequence_in, sequences_of};
ghost use Rattle.sym_map.specs.inner.Lines.{cleaned_file, AreLinesOf};
ghost use Rattle.sym_map.specs.inner.Rows.{all_rows, rows_in, IsBounded};

use crate::range::Range;
use crate::row_pile::Numbered;
use byte_text::{OutOfMemory, Text, UNKNOWN, clean_name};
use dwarf_line::{Rows, Sequence};
use event_costs::FileId;
use name_numbers::{distinct, numbered_with};
use std::alloc::Global;

/// The lines of all addresses.
#[derive(Drop)]
pub(crate) struct Lines {
    /// The names of the files, in rising order.
    pub(crate) names: Vec<Text>,
    /// The number of the unknown file.
    pub(crate) unknown: FileId,
    pub(crate) ranges: Vec<Range>,
}

/// Adds a number, unless it is the last one.
fn push_unless_last(numbers: &mut Vec<u32>, number: u32) -> Result<(), OutOfMemory>
    ensures { OnOk result ((other : ℕ)
        → Contains numbers.new.items other ↔ Contains (numbers.old.items ++ number ∷ []) other) }
{
    match numbers.last() {
        Some(last) if *last == number => Ok(()),
        _ => {
            numbers.push(number)?;
            Ok(())
        }
    }
}

/// Adds the numbers of the files of a sequence's rows.
fn push_files(numbers: &mut Vec<u32>, rows: &Rows, sequence: Sequence) -> Result<(), OutOfMemory>
    requires { IsPlaced (length rows.now.rows) sequence }
    ensures same { OnOk result ((number : ℕ) → Contains numbers.new.items number
        ↔ Contains (numbers.old.items ++ map (λ row. row.file) (rows_in rows.now.rows sequence)) number) }
    ensures bounded { OnOk result (All (IsBounded (length rows.now.files)) (rows_in rows.now.rows sequence)) }
{
    'rows: for i in sequence.first..sequence.last {
        push_unless_last(numbers, rows.row(i).file)?;
    }
    Ok(())
}

/// The numbers of the rows' files, each once.
fn file_numbers(alloc: Global, rows: &Rows) -> Result<Vec<u32>, OutOfMemory>
    ensures rise { IfOk result (λ numbers. IsStrictlySortedBy nat_cmp numbers.items) }
    ensures same { IfOk result (λ numbers. (number : ℕ)
        → Contains numbers.items number ↔ Contains (map (λ row. row.file) (all_rows rows.now)) number) }
    ensures known { IfOk result (λ numbers. All (λ number. number < length rows.now.files) numbers.items) }
    ensures bounded { OnOk result (All (IsBounded (length rows.now.files)) (all_rows rows.now)) }
    ensures placed { OnOk result (All (IsPlaced (length rows.now.rows)) rows.now.sequences) }
    ensures rows_rise { OnOk result (All (λ sequence. IsRising row_address (sequence_in rows.now.rows sequence))
        rows.now.sequences) }
{
    let mut numbers = Vec::new(alloc);
    'sequences: for i in 0..rows.sequence_count() {
        push_files(&mut numbers, rows, rows.sequence(i))?;
    }
    distinct(numbers)
}

/// The cleaned texts of these files.
fn cleaned_texts(alloc: Global, rows: &Rows, numbers: &[u32]) -> Result<Vec<Text>, OutOfMemory>
    requires { All (λ number. number < length rows.now.files) numbers.now }
    ensures { IfOk result (λ texts. texts.items ≡ map (cleaned_file rows.now.files) numbers.now) }
{
    let mut texts = Vec::with_capacity(alloc, numbers.len())?;
    'numbers: for number in numbers {
        texts.push(clean_name(alloc, rows.file(*number))?)?;
    }
    Ok(texts)
}

/// What goes with each of some files, at the place of the file's number.
fn by_file(
    alloc: Global,
    count: usize,
    files: &[u32],
    ids: &[usize],
) -> Result<Vec<u32>, OutOfMemory>
    requires rise { IsStrictlySortedBy nat_cmp files.now }
    requires within { All (λ file. file < count) files.now }
    requires as_many { length ids.now ≡ length files.now }
    requires few { All (λ id. id < 2 ^ 32) ids.now }
    ensures as_many { IfOk result (λ placed. length placed.items ≡ count) }
    ensures each { IfOk result (λ placed. (k : ℕ) → k < length files.now
        → slice_index placed.items (slice_index files.now k) ≡ slice_index ids.now k) }
{
    let mut placed = vec![in alloc; 0; count]?;
    'files: for (i, file) in files.iter().enumerate() {
        placed[*file as usize] = ids[i] as u32;
    }
    Ok(placed)
}

/// Reads the lines of a line table.
pub(crate) fn read_lines(alloc: Global, rows: &Rows) -> Result<Lines, OutOfMemory>
    ensures { IfOk result (λ lines. AreLinesOf
        (sequences_of rows.now) lines.names.items lines.unknown lines.ranges.items) }
{
    let numbers = file_numbers(alloc, rows)?;
    let texts = cleaned_texts(alloc, rows, &numbers)?;
    let unknown = Text::from_bytes(alloc, UNKNOWN)?;
    let names = numbered_with(alloc, texts, unknown)?;
    let ids = by_file(alloc, rows.file_count(), &numbers, &names.numbers)?;
    let numbered = Numbered { rows, ids: &ids };
    let ranges = numbered.cut(alloc, 0, rows.sequence_count())?;
    Ok(Lines {
        names: names.keys,
        unknown: FileId(names.last as u32),
        ranges,
    })
}
