//! Additions while memory is refused.

ghost use Rattle.std.specs.Prelude.{◌≡◌, ◌+◌, ◌≤◌, ◌<◌, ◌^◌, ℕ, [], IfNone, IfOk, IfSome, slice_index};
ghost use Rattle.cases.specs.Within.{IsWithin};

use crate::adding::add;
use crate::bounded::{arc, cost, place_of_numbers};
use anyhow::{Context, Result, ensure};
use arc_costs::{ArcRow, LineRow, TableRows, Tables};
use byte_text::OutOfMemory;
use cases_kit::Hoard;
use event_costs::{ArcKey, Cost, Place};
use std::alloc::Global;

/// Which keys are new at each turn.
#[derive(Clone, Copy, PartialEq, Eq)]
pub enum Growing {
    Lines,
    Arcs,
}

/// The place of a turn.
fn place_at(growing: Growing, turn: u32) -> Place {
    place_of_numbers([1, 0, if growing == Growing::Lines { turn } else { 0 }])
}

/// The arc of a turn.
fn arc_at(growing: Growing, turn: u32) -> ArcKey {
    arc([1, 0, if growing == Growing::Arcs { turn } else { 0 }, 2])
}

/// Adds at the keys of turn after turn and makes room for the next. At the keys for which no room could be made it adds
/// once more, and tells their turn.
fn fill(tables: &mut Tables, growing: Growing, first: u32, end: u32, cost: &Cost) -> Option<u32>
    requires small { (event : ℕ) → slice_index cost.now event < 2 ^ 32 }
    requires within { IsWithin (2 ^ 60) tables.old.lines tables.old.arcs }
    requires rooms { (1 ≤ tables.old.line_room) × (1 ≤ tables.old.arc_room) }
    requires turns { (first ≤ end) × (end < 2 ^ 20) }
    ensures within { (limit : ℕ) → IsWithin limit tables.old.lines tables.old.arcs
        → IsWithin (limit + 2 ^ 54) tables.new.lines tables.new.arcs }
    ensures turn { IfSome result (λ turn. turn < end) }
    ensures rooms { IfNone result ((1 ≤ tables.new.line_room) × (1 ≤ tables.new.arc_room)) }
{
    'turns: for turn in first..end {
        let place = place_at(growing, turn);
        let arc = arc_at(growing, turn);
        add(tables, place, &arc, cost);
        if tables.reserve().is_err() {
            add(tables, place, &arc, cost);
            return Some(turn);
        }
    }
    None
}

/// Fills tables while all memory is gone, and answers the turn whose keys had to wait; nothing where memory was found.
fn fill_in_want(
    alloc: Global,
    tables: &mut Tables,
    growing: Growing,
    turns: u32,
    cost: &Cost,
) -> Result<Option<u32>, OutOfMemory>
    requires small { (event : ℕ) → slice_index cost.now event < 2 ^ 32 }
    requires within { IsWithin (2 ^ 60) tables.old.lines tables.old.arcs }
    requires rooms { (1 ≤ tables.old.line_room) × (1 ≤ tables.old.arc_room) }
    requires turns { turns < 2 ^ 10 }
    ensures within { (limit : ℕ) → IsWithin limit tables.old.lines tables.old.arcs
        → IsWithin (limit + 2 ^ 54) tables.new.lines tables.new.arcs }
    ensures turn { IfOk result (λ answer. IfSome answer (λ turn. turn < 2 ^ 16)) }
{
    let hoard = Hoard::new(alloc)?;
    let refused = fill(tables, growing, turns, 1 << 16, cost);
    let is_full = tables.reserve().is_err();
    drop(hoard);
    Ok(if is_full { refused } else { None })
}

/// Fills empty tables, memory being gone after the first turns, and goes on for two turns once it is back. It answers the
/// turn whose keys had to wait.
fn fill_past_want(alloc: Global, tables: &mut Tables, growing: Growing, turns: u32) -> Result<u32>
    requires lines { tables.old.lines ≡ [] }
    requires arcs { tables.old.arcs ≡ [] }
    requires rooms { (1 ≤ tables.old.line_room) × (1 ≤ tables.old.arc_room) }
    requires turns { turns < 2 ^ 10 }
{
    let one = cost([1, 2]);
    let early = fill(tables, growing, 0, turns, &one);
    ensure!(early.is_none(), "no memory at first");
    let refused = fill_in_want(alloc, tables, growing, turns, &one)?;
    let turn = refused.context("memory was found")?;
    tables.reserve()?;
    let late = fill(tables, growing, turn + 1, turn + 3, &one);
    ensure!(late.is_none(), "no memory at last");
    Ok(turn)
}

/// The turn whose keys had to wait, and the rows of all.
fn filled_past_want(alloc: Global, growing: Growing, turns: u32) -> Result<(u32, TableRows)>
    requires { turns < 2 ^ 10 }
{
    let mut tables = Tables::new(alloc);
    let turn = fill_past_want(alloc, &mut tables, growing, turns)?;
    Ok((turn, tables.sorted()?))
}

/// How often a turn's keys were added at, of which one waited: each once, and that one twice. Where none are new, all
/// turns are one.
fn times(is_growing: bool, turn: u32, waited: u32) -> u64 {
    if !is_growing {
        return u64::from(waited).saturating_add(4);
    }
    if turn == waited { 2 } else { 1 }
}

/// Whether a cost is that of so many times.
fn is_times(cost: &Cost, times: u64) -> bool {
    cost.n[0] == times
        && cost.n[1] == times.saturating_mul(2)
        && cost.n.iter().skip(2).all(|n| *n == 0)
}

/// How many rows there are after three turns more than the one that had to wait.
fn rows_in_all(is_growing: bool, waited: u32) -> u32 {
    if is_growing {
        waited.saturating_add(3)
    } else {
        1
    }
}

fn are_lines(rows: &[LineRow], growing: Growing, waited: u32) -> bool {
    let is_growing = growing == Growing::Lines;
    let mut turn = 0u32;
    for row in rows {
        let times = times(is_growing, turn, waited);
        if row.place != place_at(growing, turn) || !is_times(&row.cost, times) {
            return false;
        }
        turn = turn.saturating_add(1);
    }
    turn == rows_in_all(is_growing, waited)
}

fn are_arcs(rows: &[ArcRow], growing: Growing, waited: u32) -> bool {
    let is_growing = growing == Growing::Arcs;
    let mut turn = 0u32;
    for row in rows {
        let times = times(is_growing, turn, waited);
        if row.arc != arc_at(growing, turn) || row.calls != times || !is_times(&row.cost, times) {
            return false;
        }
        turn = turn.saturating_add(1);
    }
    turn == rows_in_all(is_growing, waited)
}

/// Fills tables while memory is gone after so many turns, and prints whether all rows are there.
pub fn print_scarce(rt: &HostRuntime, growing: Growing, turns: u32) -> Result<()> {
    ensure!(turns < 1 << 10, "too many turns");
    let (waited, rows) = filled_past_want(rt.alloc(), growing, turns)?;
    let are_all = are_lines(&rows.lines, growing, waited) && are_arcs(&rows.arcs, growing, waited);
    println!(rt; "all rows: {are_all}")?;
    Ok(())
}
