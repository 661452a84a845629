//! An addition of each kind to tables.

ghost use Rattle.std.specs.Prelude.{◌≡◌, ◌+◌, ◌≤◌, ◌<◌, ◌^◌, ℕ, false, slice_index, true};
ghost use Rattle.arc_costs.specs.Arcs.{has_arc};
ghost use Rattle.arc_costs.specs.Lines.{has_line};
ghost use Rattle.cases.specs.Within.{IsWithin};

use arc_costs::Tables;
use event_costs::{ArcKey, Cost, Place};

/// Adds a cost at a place and an arc, with a call.
pub fn add(tables: &mut Tables, place: Place, arc: &ArcKey, cost: &Cost)
    requires small { (event : ℕ) → slice_index cost.now event < 2 ^ 32 }
    requires within { IsWithin (2 ^ 62) tables.old.lines tables.old.arcs }
    requires line_room { has_line place tables.old.lines ≡ false → 1 ≤ tables.old.line_room }
    requires arc_room { has_arc arc.now tables.old.arcs ≡ false → 1 ≤ tables.old.arc_room }
    ensures within { (limit : ℕ) → IsWithin limit tables.old.lines tables.old.arcs
        → IsWithin (limit + 2 ^ 32) tables.new.lines tables.new.arcs }
    ensures line { has_line place tables.new.lines ≡ true }
    ensures arc { has_arc arc.now tables.new.arcs ≡ true }
{
    tables.add_line(place, cost);
    tables.add_arc(arc, cost);
    tables.count_call(arc);
}
