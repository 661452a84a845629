//! Rows by address without their addresses.

ghost use Rattle.std.specs.Prelude.{◌≡◌, IfOk};
ghost use Rattle.addr_rows.specs.Plain.{plain};

use crate::rows::AddrRows;
use arc_costs::{ArcRow, LineRow, TableRows};
use byte_text::OutOfMemory;
use std::alloc::Global;

/// The rows without their addresses, in their order.
pub fn plain_rows(alloc: Global, rows: &AddrRows) -> Result<TableRows, OutOfMemory>
    ensures { IfOk result (λ plain_rows. plain_rows ≡ plain rows.now.rows) }
{
    let mut lines = Vec::with_capacity(alloc, rows.lines.len())?;
    'lines: for row in &rows.lines {
        lines.push(LineRow {
            place: row.place,
            cost: row.cost,
        })?;
    }
    let mut arcs = Vec::with_capacity(alloc, rows.arcs.len())?;
    'arcs: for row in &rows.arcs {
        arcs.push(ArcRow {
            arc: row.arc,
            calls: row.calls,
            cost: row.cost,
        })?;
    }
    Ok(TableRows { lines, arcs })
}
