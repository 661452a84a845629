//! Rows by address folded back to plain rows.

ghost use Rattle.std.specs.Prelude.{◌<◌, ◌^◌, ℕ, IfOk};
ghost use Rattle.event_costs.specs.Keys.{ArcKey as ArcKeyValue, Place as PlaceValue};
ghost use Rattle.arc_costs.specs.Arcs.{arc_sum, call_sum};
ghost use Rattle.arc_costs.specs.Lines.{line_sum};
ghost use Rattle.ctx_rows.specs.Folding.{AreSumsOf};
ghost use Rattle.addr_rows.specs.Plain.{plain};

use crate::plain::plain_rows;
use crate::rows::AddrRows;
use arc_costs::TableRows;
use byte_text::OutOfMemory;
use ctx_rows::summed_rows;
use std::alloc::Global;

/// The plain rows: the sums over all addresses of a line, and of an arc. No sum passes 64 bits.
pub fn fold(alloc: Global, rows: &AddrRows) -> Result<TableRows, OutOfMemory>
    requires lines { (event : ℕ) (place : PlaceValue) → line_sum event place (plain rows.now.rows).lines < 2 ^ 64 }
    requires arcs { (event : ℕ) (arc : ArcKeyValue) → arc_sum event arc (plain rows.now.rows).arcs < 2 ^ 64 }
    requires calls { (arc : ArcKeyValue) → call_sum arc (plain rows.now.rows).arcs < 2 ^ 64 }
    ensures { IfOk result (AreSumsOf (plain rows.now.rows)) }
{
    let all = plain_rows(alloc, rows)?;
    summed_rows(alloc, &all)
}
