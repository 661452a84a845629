//! Ranges of addresses, and what is seen of each.

ghost use Rattle.std.specs.Prelude.{◌≡◌, ◌≤◌, length};
ghost use Rattle.sym_map.specs.inner.Ranges.{line_of, cover_at, symbol_of};
ghost use Rattle.sym_map.specs.inner.Rising.{Rise};
ghost use Rattle.sym_map.specs.inner.Nearby.{is_held, cover_by_number};
ghost use Rattle.sym_map.specs.inner.Spans.{is_nothing, or_below, label_cover};

use event_costs::{FileId, FuncId};

/// The symbol of a range.
#[derive(Clone, Copy, Debug, PartialEq, Eq)]
pub(crate) struct SymbolHere {
    pub(crate) func: FuncId,
    /// The symbol's value: where its function begins.
    pub(crate) value: u32,
}

/// The line that a range comes from.
#[derive(Clone, Copy, Debug, PartialEq, Eq)]
pub(crate) struct LineHere {
    pub(crate) file: FileId,
    pub(crate) line: u32,
}

/// What is known of an address.
#[derive(Clone, Copy, Debug, PartialEq, Eq)]
pub(crate) struct Here {
    pub(crate) symbol: Option<SymbolHere>,
    pub(crate) line: Option<LineHere>,
}

/// What one symbol or one line says.
#[derive(Clone, Copy, Debug, PartialEq, Eq)]
pub(crate) enum Label {
    Symbol(SymbolHere),
    Line(LineHere),
}

/// What is seen of symbols, or of lines. Nothing beside the two takes no more room than they do; an option of them does.
#[derive(Clone, Copy, Debug, PartialEq, Eq)]
pub(crate) enum Cover {
    Nothing,
    Symbol(SymbolHere),
    Line(LineHere),
}

/// From `start` up to the start of the next range.
#[derive(Clone, Copy, Debug, PartialEq, Eq)]
pub(crate) struct Range {
    pub(crate) start: u32,
    pub(crate) cover: Cover,
}

/// What one symbol or one line says of the addresses from `start` up to, and without, `end`.
#[derive(Clone, Copy)]
pub(crate) struct Span {
    pub(crate) end: u64,
    pub(crate) start: u32,
    pub(crate) label: Label,
}

impl Label {
    /// What is seen where nothing else is said.
    pub(crate) fn cover(self) -> Cover
        ensures { result ≡ label_cover self }
    {
        match self {
            Label::Symbol(symbol) => Cover::Symbol(symbol),
            Label::Line(line) => Cover::Line(line),
        }
    }
}

impl Cover {
    /// What is seen where this lies over the other.
    pub(crate) fn or_below(self, below: Cover) -> Cover
        ensures { result ≡ or_below self below }
    {
        match self {
            Cover::Nothing => below,
            _ => self,
        }
    }

    pub(crate) fn is_nothing(self) -> bool
        ensures { result ≡ is_nothing self }
    {
        matches!(self, Cover::Nothing)
    }

    /// The symbol that is seen.
    pub(crate) fn symbol(self) -> Option<SymbolHere>
        ensures { result ≡ symbol_of self }
    {
        match self {
            Cover::Symbol(symbol) => Some(symbol),
            _ => None,
        }
    }

    /// The line that is seen.
    pub(crate) fn line(self) -> Option<LineHere>
        ensures { result ≡ line_of self }
    {
        match self {
            Cover::Line(line) => Some(line),
            _ => None,
        }
    }
}

/// What the ranges say of an address: what the last one that begins at or below it says.
pub(crate) fn cover_at(ranges: &[Range], address: u32) -> Cover
    requires { Rise ranges.now }
    ensures { result ≡ cover_at ranges.now address }
{
    let below = ranges.partition_point(|range| range.start <= address);
    match below.checked_sub(1) {
        Some(last) => ranges[last].cover,
        None => Cover::Nothing,
    }
}

/// Whether an address lies in the range of this number: that one begins at or below it, and the next one above it.
#[inline(always)]
pub(crate) fn is_held(ranges: &[Range], number: usize, address: u32) -> bool
    ensures { result ≡ is_held ranges.now number address }
{
    if number >= ranges.len() {
        return false;
    }
    if address < ranges[number].start {
        return false;
    }
    number + 1 == ranges.len() || address < ranges[number + 1].start
}

/// The number of the range that an address lies in, looked for at a number first; that of no range where there is none.
#[inline(always)]
pub(crate) fn number_near(ranges: &[Range], near: usize, address: u32) -> usize
    requires { Rise ranges.now }
    ensures says { cover_by_number ranges.now result ≡ cover_at ranges.now address }
    ensures in_range { result ≤ length ranges.now }
{
    if is_held(ranges, near, address) {
        return near;
    }
    let below = ranges.partition_point(|range| range.start <= address);
    match below.checked_sub(1) {
        Some(last) => last,
        None => ranges.len(),
    }
}

/// What the range of this number says; nothing is seen where there is none.
#[inline(always)]
pub(crate) fn cover_by_number(ranges: &[Range], number: usize) -> Cover
    ensures { result ≡ cover_by_number ranges.now number }
{
    match ranges.get(number) {
        Some(range) => range.cover,
        None => Cover::Nothing,
    }
}
