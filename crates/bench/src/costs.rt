//! Adds costs at many places.

ghost use Rattle.std.specs.Prelude.{◌≡◌, ◌≤◌, ◌<◌, ℕ, [], slice_index};

use arc_costs::Tables;
use byte_text::OutOfMemory;
use event_costs::{FileId, FuncId, Kind, Ones, Place};
use std::alloc::Global;

/// The place of a turn: the places of so many keys in a mixed order.
fn place_at(turn: u32, keys: u32) -> Place
    requires { 0 < keys }
{
    let key = turn.wrapping_mul(2_654_435_761) % keys;
    Place {
        func: FuncId(key / 8),
        file: FileId(key % 3),
        line: key,
    }
}

/// What a run adds for one instruction with a data reference.
fn unit() -> Ones
    ensures { (event : ℕ) → slice_index result event ≤ 1 }
{
    Ones::none().with(Kind::Ir).with(Kind::Dr)
}

/// Adds so many times to tables that hold no costs of lines.
fn add(tables: &mut Tables, keys: u32, additions: u32) -> Result<(), OutOfMemory>
    requires some { 0 < keys }
    requires none { tables.old.lines ≡ [] }
{
    let ones = unit();
    'additions: for turn in 0..additions {
        tables.reserve()?;
        tables.add_line_ones_near(usize::MAX, place_at(turn, keys), &ones);
    }
    Ok(())
}

/// The number of rows after so many additions.
fn in_tables(alloc: Global, keys: u32, additions: u32) -> Result<u64, OutOfMemory>
    requires { 0 < keys }
{
    let mut tables = Tables::new(alloc);
    add(&mut tables, keys, additions)?;
    let rows = tables.sorted()?;
    Ok(rows.lines.len() as u64)
}

/// The cost of making the places alone.
fn places(keys: u32, additions: u32) -> u64
    requires { 0 < keys }
{
    let mut sum = 0u32;
    for turn in 0..additions {
        let place = place_at(turn, keys);
        sum = sum.wrapping_add(place.line ^ place.func.0 ^ place.file.0);
    }
    u64::from(sum)
}

/// `FORM KEYS ADDITIONS`: FORM is `tables` or `places`.
pub fn costs(alloc: Global, word: &str, numbers: &[u32]) -> Option<u64> {
    let &[keys, additions] = numbers else {
        return None;
    };
    if keys == 0 {
        return None;
    }
    match word {
        "tables" => in_tables(alloc, keys, additions).ok(),
        "places" => Some(places(keys, additions)),
        _ => None,
    }
}
