//! Rows that are added to a table for which its map has room.

ghost use Rattle.std.specs.Prelude.{◌≡◌, ◌+◌, ◌≤◌, ◌<◌, ◌^◌, ℕ, length, map};
ghost use Rattle.event_costs.specs.Keys.{ArcKey as ArcKeyValue, Place as PlaceValue};
ghost use Rattle.arc_costs.specs.Arcs.{add_arcs, arc_sum, call_sum};
ghost use Rattle.arc_costs.specs.Contents.{arc_row, cost_row};
ghost use Rattle.arc_costs.specs.Lines.{add_lines, line_sum};

use crate::rows::{ArcRow, LineRow};
use crate::table::Table;
use crate::total::Total;
use event_costs::{ArcKey, Cost, Number, Place};

/// Adds the lines one by one.
pub fn merge_lines<N: Number>(table: &mut Table<Place<N>, Cost>, lines: &[LineRow<N>])
    requires slot { table.old.room ≡ 1 }
    requires ahead { length lines.now ≤ table.old.ahead }
    requires costs { (event : ℕ) (place : PlaceValue)
        → line_sum event place (map cost_row table.old.rows) + line_sum event place lines.now < 2 ^ 64 }
    ensures rows { map cost_row table.new.rows ≡ add_lines (map cost_row table.old.rows) lines.now }
    ensures sums { (event : ℕ) (place : PlaceValue) → line_sum event place (map cost_row table.new.rows)
        ≡ line_sum event place (map cost_row table.old.rows) + line_sum event place lines.now }
    ensures room { table.new.room ≡ 1 }
{
    'lines: for row in lines {
        table.add(row.place, &row.cost);
        table.reserve().unwrap();
    }
}

/// Adds the arcs one by one.
pub fn merge_arcs<N: Number>(table: &mut Table<ArcKey<N>, Total>, arcs: &[ArcRow<N>])
    requires slot { table.old.room ≡ 1 }
    requires ahead { length arcs.now ≤ table.old.ahead }
    requires costs { (event : ℕ) (arc : ArcKeyValue)
        → arc_sum event arc (map arc_row table.old.rows) + arc_sum event arc arcs.now < 2 ^ 64 }
    requires calls { (arc : ArcKeyValue) → call_sum arc (map arc_row table.old.rows) + call_sum arc arcs.now < 2 ^ 64 }
    ensures rows { map arc_row table.new.rows ≡ add_arcs (map arc_row table.old.rows) arcs.now }
    ensures cost_sums { (event : ℕ) (arc : ArcKeyValue) → arc_sum event arc (map arc_row table.new.rows)
        ≡ arc_sum event arc (map arc_row table.old.rows) + arc_sum event arc arcs.now }
    ensures call_sums { (arc : ArcKeyValue) → call_sum arc (map arc_row table.new.rows)
        ≡ call_sum arc (map arc_row table.old.rows) + call_sum arc arcs.now }
    ensures room { table.new.room ≡ 1 }
{
    'arcs: for row in arcs {
        let total = Total {
            calls: row.calls,
            cost: row.cost,
        };
        table.add(row.arc, &total);
        table.reserve().unwrap();
    }
}
