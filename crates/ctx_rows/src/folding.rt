//! Rows by context folded back to plain rows.

ghost use Rattle.std.specs.Prelude.{◌≡◌, ◌<◌, ◌^◌, ℕ, IfOk};
ghost use Rattle.event_costs.specs.Keys.{ArcKey as ArcKeyValue};
ghost use Rattle.event_costs.specs.Keys.{Place as PlaceValue};
ghost use Rattle.arc_costs.specs.Arcs.{arc_sum, call_sum};
ghost use Rattle.arc_costs.specs.Lines.{line_sum};
ghost use Rattle.ctx_rows.specs.Folding.{AreSumsOf, plain, plain_arc, plain_line};

use crate::rows::{CtxArc, CtxLine, CtxRows};
use arc_costs::{ArcRow, LineRow, TableRows, Tables};
use byte_text::OutOfMemory;
use event_costs::{ArcKey, Place};
use std::alloc::Global;

/// A line row with the context's function.
fn plain_line(row: &CtxLine) -> LineRow
    ensures { result ≡ plain_line row.now }
{
    LineRow {
        place: Place {
            func: row.ctx.first(),
            file: row.file,
            line: row.line,
        },
        cost: row.cost,
    }
}

/// An arc row with the contexts' functions.
fn plain_arc(row: &CtxArc) -> ArcRow
    ensures { result ≡ plain_arc row.now }
{
    ArcRow {
        arc: ArcKey {
            caller: row.caller.first(),
            file: row.file,
            line: row.line,
            callee: row.callee.first(),
        },
        calls: row.calls,
        cost: row.cost,
    }
}

/// The rows with functions in place of contexts, in their order.
pub fn plain_rows(alloc: Global, rows: &CtxRows) -> Result<TableRows, OutOfMemory>
    ensures { IfOk result (λ plain_rows. plain_rows ≡ plain rows.now.rows) }
{
    let mut lines = Vec::with_capacity(alloc, rows.lines.len())?;
    'lines: for row in &rows.lines {
        lines.push(plain_line(row))?;
    }
    let mut arcs = Vec::with_capacity(alloc, rows.arcs.len())?;
    'arcs: for row in &rows.arcs {
        arcs.push(plain_arc(row))?;
    }
    Ok(TableRows { lines, arcs })
}

/// Rows summed_rows up by place and by arc. No sum passes 64 bits.
pub fn summed_rows(alloc: Global, rows: &TableRows) -> Result<TableRows, OutOfMemory>
    requires lines { (event : ℕ) (place : PlaceValue) → line_sum event place rows.now.lines < 2 ^ 64 }
    requires arcs { (event : ℕ) (arc : ArcKeyValue) → arc_sum event arc rows.now.arcs < 2 ^ 64 }
    requires calls { (arc : ArcKeyValue) → call_sum arc rows.now.arcs < 2 ^ 64 }
    ensures { IfOk result (AreSumsOf rows.now) }
{
    let mut sums = Tables::new(alloc);
    sums.merge(rows)?;
    sums.sorted()
}

/// The plain rows: the sums over all contexts of a function. No sum passes 64 bits.
pub fn fold(alloc: Global, rows: &CtxRows) -> Result<TableRows, OutOfMemory>
    requires lines { (event : ℕ) (place : PlaceValue) → line_sum event place (plain rows.now.rows).lines < 2 ^ 64 }
    requires arcs { (event : ℕ) (arc : ArcKeyValue) → arc_sum event arc (plain rows.now.rows).arcs < 2 ^ 64 }
    requires calls { (arc : ArcKeyValue) → call_sum arc (plain rows.now.rows).arcs < 2 ^ 64 }
    ensures { IfOk result (AreSumsOf (plain rows.now.rows)) }
{
    let all = plain_rows(alloc, rows)?;
    summed_rows(alloc, &all)
}
