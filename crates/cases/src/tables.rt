//! Tables of costs: rows that are added, merged, and added again where a row is known.

ghost use Rattle.std.specs.Prelude.{◌+◌, ◌≤◌, ◌<◌, ◌^◌, ℕ, IfOk, length, slice_index};
ghost use Rattle.cases.specs.Within.{IsWithin};

use crate::adding::add;
use crate::bounded::{Bounded, Step, arc, cost, place_of_numbers};
use crate::refused::{Growing, print_scarce};
use anyhow::{Result, bail, ensure};
use arc_costs::{ArcRow, LineRow, TableRows, Tables};
use byte_text::OutOfMemory;
use event_costs::{ArcKey, Cost, Place};
use script_lines::{Numbers, Scene, small_decimal, small_numbers};
use std::alloc::Global;

/// The scene of tables, in which nothing lasts.
#[derive(Drop)]
pub struct Costs;

impl Scene for Costs {
    /// Follows a line, and prints the rows that come of it. `rows` has steps; `merge` has steps, and others behind a bar,
    /// whose rows are merged into theirs; `repeat` adds so often at one place and one arc before there is more room, and
    /// as often after. `lines` and `arcs` add at new ones after so many while there is no memory.
    fn follow(&mut self, rt: &HostRuntime, line: &str) -> Result<()> {
        let (word, rest) = line.split_once(' ').unwrap_or((line, ""));
        match word {
            "lines" => print_scarce(rt, Growing::Lines, small_decimal(rest)?),
            "arcs" => print_scarce(rt, Growing::Arcs, small_decimal(rest)?),
            _ => print_rows(rt, &rows(rt.alloc(), word, rest)?),
        }
    }
}

/// The rows that come of a line.
fn rows(alloc: Global, word: &str, rest: &str) -> Result<TableRows> {
    match word {
        "rows" => rows_after(alloc, rest),
        "merge" => rows_of_both(alloc, rest),
        "repeat" => rows_of_many(alloc, small_decimal(rest)?),
        _ => bail!("no such line"),
    }
}

/// A step: `line` with a function, a file, a line and two numbers of a cost; `arc` with a caller, a file, a line, a callee
/// and two such numbers; `call` with an arc alone; or `clear`.
fn step_of(text: &str) -> Result<Step> {
    let (kind, rest) = text.split_once(' ').unwrap_or((text, ""));
    let [func, file, line, callee, one, two, ..] = small_numbers(rest);
    Ok(match kind {
        "line" => Step::Line([func, file, line], [callee, one]),
        "arc" => Step::Arc([func, file, line, callee], [one, two]),
        "call" => Step::Call([func, file, line, callee]),
        "clear" => Step::Clear,
        _ => bail!("no such step"),
    })
}

/// Steps, with commas between them.
fn steps_of(alloc: Global, text: &str) -> Result<Vec<Step>>
    ensures { IfOk result (λ steps. length steps.items < 2 ^ 20) }
{
    let mut steps = Vec::new(alloc);
    if !text.is_empty() {
        for step in text.split(", ") {
            steps.push(step_of(step)?)?;
        }
    }
    ensure!(steps.len() < 1 << 20, "too many steps");
    Ok(steps)
}

/// The rows after steps.
fn rows_after(alloc: Global, text: &str) -> Result<TableRows> {
    let steps = steps_of(alloc, text)?;
    Ok(after(alloc, &steps)?.tables.sorted()?)
}

/// The rows after steps, into which those after others are merged.
fn rows_of_both(alloc: Global, text: &str) -> Result<TableRows> {
    let (first, second) = text.split_once('|').unwrap_or((text, ""));
    let first = steps_of(alloc, first.trim())?;
    let second = steps_of(alloc, second.trim())?;
    Ok(merged(alloc, &first, &second)?)
}

/// Many additions at one place and one arc.
fn rows_of_many(alloc: Global, count: u32) -> Result<TableRows> {
    ensure!(count < 1 << 20, "too many additions");
    Ok(repeated(alloc, count)?)
}

/// Tables after these steps.
fn after(alloc: Global, steps: &[Step]) -> Result<Bounded, OutOfMemory>
    requires { length steps.now < 2 ^ 20 }
    ensures within { IfOk result (λ bounded. IsWithin bounded.limit bounded.tables.lines bounded.tables.arcs) }
    ensures limit { IfOk result (λ bounded. bounded.limit < 2 ^ 53) }
{
    let mut bounded = Bounded::new(alloc);
    'steps: for step in steps {
        bounded.take(step)?;
    }
    Ok(bounded)
}

/// The rows of the first steps with those of the second merged into them.
fn merged(alloc: Global, first: &[Step], second: &[Step]) -> Result<TableRows, OutOfMemory>
    requires first { length first.now < 2 ^ 20 }
    requires second { length second.now < 2 ^ 20 }
{
    let other = after(alloc, second)?.tables.sorted()?;
    let mut bounded = after(alloc, first)?;
    bounded.tables.merge(&other)?;
    bounded.tables.sorted()
}

/// Adds at one place and one arc many times.
fn repeat(tables: &mut Tables, place: Place, arc: &ArcKey, cost: &Cost, count: u32)
    requires small { (event : ℕ) → slice_index cost.now event < 2 ^ 32 }
    requires within { IsWithin (2 ^ 60) tables.old.lines tables.old.arcs }
    requires rooms { (1 ≤ tables.old.line_room) × (1 ≤ tables.old.arc_room) }
    requires count { count < 2 ^ 20 }
    ensures within { (limit : ℕ) → IsWithin limit tables.old.lines tables.old.arcs
        → IsWithin (limit + 2 ^ 52) tables.new.lines tables.new.arcs }
{
    'additions: for turn in 0..count {
        add(tables, place, arc, cost);
    }
}

/// Many additions at one place and one arc, in their slots first, and then in the maps.
fn repeated(alloc: Global, count: u32) -> Result<TableRows, OutOfMemory>
    requires { count < 2 ^ 20 }
{
    let mut tables = Tables::new(alloc);
    let place = place_of_numbers([1, 2, 3]);
    let arc = arc([1, 2, 3, 4]);
    let one = cost([1, 2]);
    repeat(&mut tables, place, &arc, &one, count);
    tables.reserve()?;
    repeat(&mut tables, place, &arc, &one, count);
    tables.sorted()
}

/// Prints each row: its key, the calls of an arc, and its cost.
fn print_rows(rt: &HostRuntime, rows: &TableRows) -> Result<()> {
    println!(rt; "{} lines, {} arcs", rows.lines.len(), rows.arcs.len())?;
    for row in &rows.lines {
        print_line(rt, row)?;
    }
    for row in &rows.arcs {
        print_arc(rt, row)?;
    }
    Ok(())
}

fn print_line(rt: &HostRuntime, row: &LineRow) -> Result<()> {
    let place = row.place;
    print!(rt; "{} {} {}:", place.func.0, place.file.0, place.line)?;
    println!(rt; "{}", Numbers(row.cost.numbers()))?;
    Ok(())
}

fn print_arc(rt: &HostRuntime, row: &ArcRow) -> Result<()> {
    let arc = row.arc;
    print!(rt; "{} {} {}", arc.caller.0, arc.file.0, arc.line)?;
    println!(rt;
        " {}, {} calls:{}",
        arc.callee.0,
        row.calls,
        Numbers(row.cost.numbers())
    )?;
    Ok(())
}
