//! The rows of a part, by the addresses that they stand at.

ghost use Rattle.std.specs.Prelude.{IfOk, OnOk, All};
ghost use Rattle.cg_format.specs.Part.{AreKnown, IsKnownArc, IsKnownLine};

use anyhow::{Result, bail};
use arc_costs::{ArcRow, LineRow, TableRows};
use prof_base::{ArcKey, Cost, EVENTS, Place};
use script_lines::{any_number, first_word, number};
use std::alloc::{AllocError, Global};
use sym_map::SymMap;

/// The first numbers of a cost; the others are 0.
fn cost_of(text: &str) -> Cost {
    let mut n = [0; EVENTS];
    for (place, word) in n.iter_mut().zip(text.split_whitespace()) {
        *place = any_number(word);
    }
    Cost { n }
}

/// A line row: the address of an instruction of its line, and its cost.
fn line_row(map: &SymMap, text: &str) -> Result<LineRow>
    ensures { IfOk result (λ row. IsKnownLine map.now row) }
{
    let (addr, cost) = first_word(text)?;
    Ok(LineRow {
        place: map.place(number(addr)?),
        cost: cost_of(cost),
    })
}

/// An arc row: the address of the call and of the callee, how often it was called, and its cost.
fn arc_row(map: &SymMap, text: &str) -> Result<ArcRow>
    ensures { IfOk result (λ row. IsKnownArc map.now row) }
{
    let (from, rest) = first_word(text)?;
    let (to, rest) = first_word(rest)?;
    let (calls, cost) = first_word(rest)?;
    let from = map.place(number(from)?);
    let arc = ArcKey {
        caller: from.func,
        file: from.file,
        line: from.line,
        callee: map.place(number(to)?).func,
    };
    Ok(ArcRow {
        arc,
        calls: any_number(calls),
        cost: cost_of(cost),
    })
}

/// Adds a row: `own` and a line row, or `calls` and an arc row. An empty text adds none.
fn add_row(map: &SymMap, lines: &mut Vec<LineRow>, arcs: &mut Vec<ArcRow>, text: &str) -> Result<()>
    requires lines { All (IsKnownLine map.now) lines.old.items }
    requires arcs { All (IsKnownArc map.now) arcs.old.items }
    ensures lines { OnOk result (All (IsKnownLine map.now) lines.new.items) }
    ensures arcs { OnOk result (All (IsKnownArc map.now) arcs.new.items) }
{
    match text.split_once(' ') {
        Some(("own", row)) => lines.push(line_row(map, row)?)?,
        Some(("calls", row)) => arcs.push(arc_row(map, row)?)?,
        Some(_) => bail!("no such row"),
        None => {}
    }
    Ok(())
}

/// Rows of both kinds, as they are given.
pub fn rows_of(alloc: Global, map: &SymMap, text: &str) -> Result<TableRows>
    ensures { IfOk result (λ rows. AreKnown map.now rows) }
{
    let mut lines = Vec::new(alloc);
    let mut arcs = Vec::new(alloc);
    'rows: for row in text.split(", ") {
        add_row(map, &mut lines, &mut arcs, row)?;
    }
    Ok(TableRows { lines, arcs })
}

/// So many line rows of the function at 0x10000, at the lines from 0 on.
pub fn many_rows(alloc: Global, map: &SymMap, count: u32) -> Result<TableRows, AllocError>
    ensures { IfOk result (λ rows. AreKnown map.now rows) }
{
    let place = map.place(0x10000);
    let mut lines = Vec::new(alloc);
    'lines: for line in 0..count {
        let cost = Cost::ZERO;
        lines.push(LineRow {
            place: Place { line, ..place },
            cost,
        })?;
    }
    Ok(TableRows {
        lines,
        arcs: Vec::new(alloc),
    })
}
