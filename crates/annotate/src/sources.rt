//! Source texts with the costs of their lines.

ghost use Rattle.std.specs.Prelude.{◌≡◌, ◌++◌, ◌+◌, ◌<◌, ℕ, [], All, IfOk, IfSome, OnOk, codes, flat_map};
ghost use Rattle.std.specs.Prelude.{filter, length, ◌==◌, map, slice_index_or, option_map};
ghost use Rattle.std.specs.List.{slice_split};
ghost use Rattle.byte_text.specs.Names.{clean_name};
ghost use Rattle.cg_read.specs.Profiles.{IsProfile};
ghost use Rattle.cycles.specs.Limits.{AreAllWithin};
ghost use Rattle.report_rows.specs.Orders.{numbers};
ghost use Rattle.annotate.specs.Sources.{lines_text, others_text, shown_byte, source_text, text_lines};
ghost use Rattle.report_rows.specs.Entries.{AreWithin, entry_values, values_at};
ghost use Rattle.report_rows.specs.Lists.{AreFileLists};
ghost use Rattle.annotate.specs.inner.SourceRows.{AreNumbersOf, AreRowsOfFile, costs_or_dot, is_outside, other_with};
ghost use Rattle.annotate.specs.inner.SourceRows.{pieces};

use crate::names::{push_clean, push_sums};
use crate::source::{Source, Texts};
use byte_text::{OutOfMemory, Text, TextRef};
use cg_read::Profile;
use report_rows::{Entry, by_place, file_lists, into_list};
use std::alloc::Global;
use std::collections::BTreeMap;

/// The pieces of a text between line feeds.
fn pieces_of(alloc: Global, text: &[u8]) -> Result<Vec<&[u8]>, OutOfMemory>
    ensures { IfOk result (λ found. pieces found.items ≡ slice_split (λ byte. byte == 0x0a) text.now) }
{
    Ok(text.split(|byte| *byte == b'\n').collect(alloc)?)
}

/// The lines of a text, which end at line feeds or at the text's end.
fn text_lines(alloc: Global, text: &[u8]) -> Result<Vec<&[u8]>, OutOfMemory>
    ensures { IfOk result (λ lines. pieces lines.items ≡ text_lines text.now) }
{
    let mut lines = pieces_of(alloc, text)?;
    if let Some(line) = lines.last() {
        if line.is_empty() {
            lines.pop();
        }
    }
    Ok(lines)
}

fn shown_byte(byte: u8) -> u8
    ensures { result ≡ shown_byte byte }
{
    if matches!(byte, b' '..=b'~' | b'\t') {
        byte
    } else {
        b'?'
    }
}

/// Appends a line of a source text.
fn push_shown(alloc: Global, text: &mut Text, line: &[u8]) -> Result<(), OutOfMemory>
    ensures { OnOk result (text.new ≡ text.old ++ map shown_byte line.now) }
{
    let mut shown = Vec::with_capacity(alloc, line.len())?;
    'bytes: for byte in line {
        shown.push(shown_byte(*byte))?;
    }
    text.push(&shown)
}

/// The self rows of a file, by their lines.
type Lines<'a> = BTreeMap<u64, Vec<Entry<'a>>>;

/// Writes a line of a source text.
fn put_line(
    alloc: Global,
    text: &mut Text,
    events: usize,
    rows: Option<&Vec<Entry<'_>>>,
    line: &[u8],
) -> Result<(), OutOfMemory>
    requires { IfSome rows (λ entries. AreWithin events (entry_values entries.now.items)) }
    ensures { OnOk result (text.new ≡ text.old
        ++ (costs_or_dot events (option_map (λ entries. entry_values entries.now.items) rows.entry)
        ++ codes " | " ++ map shown_byte line.now ++ codes "\n")) }
{
    match rows {
        Some(rows) => push_sums(alloc, text, events, rows)?,
        None => text.push(b".")?,
    }
    text.push(b" | ")?;
    push_shown(alloc, text, line)?;
    text.push(b"\n")
}

/// Writes the lines of a source text.
fn put_lines(
    alloc: Global,
    text: &mut Text,
    events: usize,
    rows: &Lines<'_>,
    lines: &[&[u8]],
) -> Result<(), OutOfMemory>
    requires { (n : ℕ) → IfSome (values_at rows.now n) (AreWithin events) }
    ensures { OnOk result (text.new ≡ text.old
        ++ flat_map (λ i. costs_or_dot events (values_at rows.now (i + 1)) ++ codes " | "
        ++ map shown_byte (slice_index_or (pieces lines.now) i []) ++ codes "\n") (numbers (length lines.now))) }
{
    'lines: for (i, line) in lines.iter().enumerate() {
        put_line(alloc, text, events, rows.get(&(i as u64 + 1)), line)?;
    }
    Ok(())
}

/// Writes the lines that a text of so many lines doesn't have.
fn put_others(
    alloc: Global,
    text: &mut Text,
    events: usize,
    rows: &[(u64, Vec<Entry<'_>>)],
    count: u64,
) -> Result<(), OutOfMemory>
    requires { All (λ e. AreWithin events (entry_values e.1.items)) rows.now }
    ensures { OnOk result (text.new ≡ text.old ++ flat_map (λ e. other_with events e.0 (entry_values e.1.items))
        (filter (λ e. is_outside count e.0) rows.now)) }
{
    'lines: for (line, rows) in rows {
        if *line < 1 || *line > count {
            push_sums(alloc, text, events, rows)?;
            text.push(b" | <line ")?;
            text.push_number(*line)?;
            text.push(b">\n")?;
        }
    }
    Ok(())
}

/// Writes a source text with the self rows of its file.
fn put_found(
    alloc: Global,
    text: &mut Text,
    profile: &Profile,
    rows: &[Entry<'_>],
    _name: &Text,
    source: &[u8],
) -> Result<(), OutOfMemory>
    requires within { AreAllWithin profile.now }
    requires rows { AreRowsOfFile profile.now _name.now (entry_values rows.now) }
    ensures { OnOk result (text.new ≡ text.old ++ (lines_text profile.now _name.now (text_lines source.now)
        ++ others_text profile.now _name.now (length (text_lines source.now)))) }
{
    let events = profile.events.len();
    let rows = by_place(alloc, rows)?;
    let lines = text_lines(alloc, source)?;
    put_lines(alloc, text, events, &rows, &lines)?;
    put_others(
        alloc,
        text,
        events,
        &into_list(alloc, rows)?,
        lines.len() as u64,
    )
}

/// Writes a line on a file.
fn put_file(alloc: Global, text: &mut Text, mark: &[u8], name: &Text) -> Result<(), OutOfMemory>
    ensures { OnOk result (text.new ≡ text.old ++ (mark.now ++ clean_name name.now ++ codes "\n")) }
{
    text.push(mark)?;
    push_clean(alloc, text, name.as_bytes())?;
    text.push(b"\n")
}

/// Writes a file with what is known of its text.
fn put_source(
    alloc: Global,
    text: &mut Text,
    profile: &Profile,
    rows: &[Entry<'_>],
    name: &Text,
    source: &Source,
) -> Result<(), OutOfMemory>
    requires within { AreAllWithin profile.now }
    requires rows { AreRowsOfFile profile.now name.now (entry_values rows.now) }
    ensures { OnOk result (text.new ≡ text.old ++ source_text profile.now name.now source.now) }
{
    match source {
        Source::Found(found) => {
            put_file(alloc, text, b"\n-- source ", name)?;
            put_found(alloc, text, profile, rows, name, found.as_bytes())
        }
        Source::Missing => put_file(alloc, text, b"\n-- no source ", name),
        Source::TooLong(_) => put_file(alloc, text, b"\n-- source too long ", name),
    }
}

/// The numbers of files by their names, in an order, since who writes the names may choose some that any hash takes for
/// one.
fn numbers_of<'a>(
    alloc: Global,
    files: &'a [Text],
) -> Result<BTreeMap<TextRef<'a>, usize>, OutOfMemory>
    ensures { IfOk result (λ numbers. AreNumbersOf files.now numbers) }
{
    let mut numbers = BTreeMap::new(alloc);
    'files: for (number, file) in files.iter().enumerate() {
        numbers.insert(file.as_ref(), number)?;
    }
    Ok(numbers)
}

/// The self rows of the file with a name.
fn rows_of<'r, 'a, 'n>(
    profile: &Profile,
    numbers: &BTreeMap<TextRef<'n>, usize>,
    rows: &'r [Vec<Entry<'a>>],
    name: &'n Text,
) -> &'r [Entry<'a>]
    requires profile { IsProfile profile.now }
    requires files { AreNumbersOf profile.now.files numbers.now }
    requires rows { AreFileLists profile.now rows.now }
    ensures { AreRowsOfFile profile.now name.now (entry_values result.now) }
{
    match numbers.get(&name.as_ref()) {
        Some(number) => rows[*number].as_slice(),
        None => &[],
    }
}

/// Writes all files with what is known of their texts.
pub(crate) fn put_sources(
    alloc: Global,
    text: &mut Text,
    profile: &Profile,
    texts: &Texts,
) -> Result<(), OutOfMemory>
    requires { AreAllWithin profile.now }
    ensures { OnOk result (text.new ≡ text.old ++ flat_map (λ t. source_text profile.now t.0 t.1) texts.now) }
{
    let rows = file_lists(alloc, profile)?;
    let numbers = numbers_of(alloc, &profile.files)?;
    'texts: for (name, source) in &texts.items {
        let rows = rows_of(profile, &numbers, &rows, name);
        put_source(alloc, text, profile, rows, name, source)?;
    }
    Ok(())
}
