//! The symbol table (gABI, Symbol Table).

ghost use Rattle.std.specs.Prelude.{◌≡◌, ◌+◌, ◌<◌, ◌≤◌, ◌^◌, ◌++◌, length, OnOk};
ghost use Rattle.std.specs.List.{All, position, position_or_len};
ghost use Rattle.prog_make.specs.inner.Conditions.{IsPlaced, AreApart};
ghost use Rattle.prog_make.specs.Functions.{holds, IsWhole};
ghost use Rattle.prog_make.specs.inner.Strings.{name_strings};
ghost use Rattle.prog_make.specs.inner.Symbols.{symbol_bytes, symbol_entries, symbols_bytes};

use crate::function_part::FunctionPart;
use crate::numbers::{push_halves, push_words};
use crate::section::FIRST_SEGMENT_SECTION;
use crate::segment_part::SegmentPart;
use byte_text::{OutOfMemory, Text};
use elf_read::standard::{SHN_UNDEF, STB_GLOBAL, STB_LOCAL, STT_FUNC, STT_NOTYPE};

/// The binding global above the type function.
const GLOBAL_FUNCTION: u8 = 16 * STB_GLOBAL + STT_FUNC;

/// A symbol.
#[derive(Clone, Copy)]
pub struct SymbolEntry {
    /// `st_name`: where its name begins among the names.
    pub name: u32,
    /// `st_value`: its address.
    pub value: u32,
    /// `st_size`: its length in bytes.
    pub size: u32,
    /// `st_info`: its binding and its type.
    pub info: u8,
    /// `st_shndx`: the number of its section.
    pub section: u16,
}

/// The symbol that stands for none.
const UNDEFINED: SymbolEntry = SymbolEntry {
    name: 0,
    value: 0,
    size: 0,
    info: 16 * STB_LOCAL + STT_NOTYPE,
    section: SHN_UNDEF,
};

#[tactic(auto, unfolding(crate::specs::inner::Symbols::symbol_bytes))]
fn push_symbol(out: &mut Text, symbol: &SymbolEntry) -> Result<(), OutOfMemory>
    ensures { OnOk result (out.new ≡ out.old ++ symbol_bytes symbol.now) }
{
    push_words(out, &[symbol.name, symbol.value, symbol.size])?;
    out.push(&[symbol.info, 0])?;
    push_halves(out, &[symbol.section])
}

/// The first of these segments with a function's code.
fn place_in(segments: &[SegmentPart], function: &FunctionPart) -> Option<usize>
    ensures { result ≡ position (holds function.now) segments.now }
{
    segments.iter().position(|segment| segment.holds(function))
}

/// The place of the segment with a function's code, looked for from a place on first: functions mostly stand in the
/// order of segments.
fn segment_of(segments: &[SegmentPart], function: &FunctionPart, from: usize) -> usize
    requires from { from ≤ length segments.now }
    requires placed { All IsPlaced segments.now }
    requires apart { AreApart segments.now }
    requires some { 0 < function.now.size }
    ensures place { result ≡ position_or_len (holds function.now) segments.now }
    ensures within { result ≤ length segments.now }
{
    match place_in(&segments[from..], function) {
        Some(place) => from + place,
        None => place_in(segments, function).unwrap_or(segments.len()),
    }
}

/// Appends the symbols of functions, whose names are those that `push_names` writes.
pub fn push_symbols(
    out: &mut Text,
    segments: &[SegmentPart],
    functions: &[FunctionPart],
) -> Result<(), OutOfMemory>
    requires count { length segments.now ≤ 60000 }
    requires placed { All IsPlaced segments.now }
    requires apart { AreApart segments.now }
    requires whole { All IsWhole functions.now }
    requires names { length (name_strings functions.now) < 2 ^ 32 }
    ensures { OnOk result (out.new ≡ out.old ++ symbols_bytes (symbol_entries segments.now functions.now)) }
{
    push_symbol(out, &UNDEFINED)?;
    let mut name = 1;
    let mut segment = 0;
    'functions: for function in functions {
        segment = segment_of(segments, function, segment);
        let symbol = SymbolEntry {
            name,
            value: function.addr,
            size: function.size,
            info: GLOBAL_FUNCTION,
            section: FIRST_SEGMENT_SECTION + segment as u16,
        };
        push_symbol(out, &symbol)?;
        name += function.name.len() as u32 + 1;
    }
    Ok(())
}
