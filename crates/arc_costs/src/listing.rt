//! The amounts of a table as rows.

ghost use Rattle.std.specs.Prelude.{◌≡◌, IfOk, map};
ghost use Rattle.arc_costs.specs.Contents.{arc_row, cost_row};

use crate::row_ref::RowRef;
use crate::rows::{ArcRow, LineRow};
use crate::total::Total;
use byte_text::OutOfMemory;
use event_costs::{ArcKey, Cost, Number, Place};

/// The rows of these lines.
pub fn line_rows<N: Number>(
    lines: &Vec<RowRef<'_, Place<N>, Cost>>,
) -> Result<Vec<LineRow<N>>, OutOfMemory>
    ensures { IfOk result (λ rows. rows.items ≡ map cost_row lines.now.items) }
{
    let alloc = *lines.allocator();
    let rows = lines
        .iter()
        .map(|row| LineRow {
            place: row.key(),
            cost: row.amount(),
        })
        .collect(alloc)?;
    Ok(rows)
}

/// The rows of these arcs.
pub fn arc_rows<N: Number>(
    arcs: &Vec<RowRef<'_, ArcKey<N>, Total>>,
) -> Result<Vec<ArcRow<N>>, OutOfMemory>
    ensures { IfOk result (λ rows. rows.items ≡ map arc_row arcs.now.items) }
{
    let alloc = *arcs.allocator();
    let rows = arcs
        .iter()
        .map(|row| {
            let total = row.amount();
            ArcRow {
                arc: row.key(),
                calls: total.calls,
                cost: total.cost,
            }
        })
        .collect(alloc)?;
    Ok(rows)
}
