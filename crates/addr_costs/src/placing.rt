//! The places of addresses that stand for their files and lines.

ghost use Rattle.std.specs.Prelude.{◌≡◌, IfOk};
ghost use Rattle.addr_rows.specs.EventRows.{located_rows};

use addr_rows::{AddrRows, located_arc, located_line};
use arc_costs::TableRows;
use byte_text::OutOfMemory;
use event_costs::ThreadNo;
use std::alloc::Global;
use sym_map::SymMap;

/// Rows in which an address stands for its file and line, with the places of the addresses.
pub(crate) fn located_rows(
    alloc: Global,
    thread: ThreadNo,
    rows: &TableRows,
    syms: &SymMap,
) -> Result<AddrRows, OutOfMemory>
    ensures { IfOk result (λ r. r ≡ record { thread = thread; rows = located_rows syms.now rows.now }) }
{
    let mut lines = Vec::with_capacity(alloc, rows.lines.len())?;
    'lines: for row in &rows.lines {
        lines.push(located_line(row, syms))?;
    }
    let mut arcs = Vec::with_capacity(alloc, rows.arcs.len())?;
    'arcs: for row in &rows.arcs {
        arcs.push(located_arc(row, syms))?;
    }
    Ok(AddrRows {
        thread,
        lines,
        arcs,
    })
}
