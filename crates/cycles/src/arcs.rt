//! The arcs of a profile's call rows.

ghost use Rattle.std.specs.Prelude.{◌≡◌, map, IfOk};
ghost use Rattle.cycles.specs.Costs.{arc_of};

use byte_text::OutOfMemory;
use call_graph::CallArc;
use cg_read::CallRow;
use std::alloc::Global;

/// From the caller of a row to its callee.
pub(crate) fn arc_of_row(row: &CallRow) -> CallArc
    ensures { result ≡ arc_of row.now }
{
    CallArc {
        caller: row.caller,
        callee: row.callee,
    }
}

/// The arcs of call rows.
pub(crate) fn arcs_of_rows(alloc: Global, rows: &[CallRow]) -> Result<Vec<CallArc>, OutOfMemory>
    ensures { IfOk result (λ arcs. arcs.items ≡ map arc_of rows.now) }
{
    let mut arcs = Vec::with_capacity(alloc, rows.len())?;
    'rows: for row in rows {
        arcs.push(arc_of_row(row))?;
    }
    Ok(arcs)
}
