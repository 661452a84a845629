//! Where functions begin.

ghost use Rattle.std.specs.Prelude.{◌≡◌, ◌<◌, ◌^◌, ℕ, IfOk, OnOk, IfSome, Some, None, All, length};
ghost use Rattle.std.specs.Prelude.{find, option_map, slice_set, slice_index_or, MatchOption};
ghost use Rattle.std.specs.Option.{option_or};
ghost use Rattle.sym_map.specs.inner.Ranges.{cover_at, symbol_of};
ghost use Rattle.sym_map.specs.inner.Rising.{Rise};
ghost use Rattle.sym_map.specs.inner.Entries.{entered_func, enters, start_of_first};

use crate::range::Range;
use byte_text::OutOfMemory;
use event_costs::FuncId;
use std::alloc::Global;

/// The function that begins where the range does.
fn entered_func(range: &Range) -> Option<FuncId>
    ensures func { result ≡ entered_func range.now }
    ensures start { range.now.start < 2 ^ 32 }
{
    let start = range.start;
    match range.cover.symbol() {
        Some(symbol) if symbol.value == start => Some(symbol.func),
        _ => None,
    }
}

/// Notes an entry of a function, unless it has one already.
fn note(entries: &mut [Option<u32>], func: FuncId, entry: u32)
    requires { func.0 < length entries.old }
    ensures { entries.new ≡ slice_set entries.old func.0
        (option_or (slice_index_or entries.old func.0 None) (Some entry)) }
{
    let known = entries[func.0 as usize];
    entries[func.0 as usize] = known.or(Some(entry));
}

/// For each function the start of the first range at which it is entered.
pub(crate) fn entries(
    alloc: Global,
    ranges: &[Range],
    count: usize,
) -> Result<Vec<Option<u32>>, OutOfMemory>
    requires rise { Rise ranges.now }
    requires known { (address : ℕ) → address < 2 ^ 32
        → IfSome (symbol_of (cover_at ranges.now address)) (λ symbol. symbol.func.0 < count) }
    ensures as_many { IfOk result (λ entries. length entries.items ≡ count) }
    ensures each { IfOk result (λ entries. (func : ℕ) → func < count
        → slice_index_or entries.items func None ≡ start_of_first func ranges.now) }
    ensures starts { OnOk result (All (λ range. range.start < 2 ^ 32) ranges.now) }
{
    let mut entries = vec![in alloc; None; count]?;
    'every: for range in ranges {
        if let Some(func) = entered_func(range) {
            note(&mut entries, func, range.start);
        }
    }
    Ok(entries)
}
