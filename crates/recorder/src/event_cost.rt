//! What an event costs, as numbers or as the kinds of event that it counts as.

ghost use Rattle.std.specs.Prelude.{◌≡◌, ℕ, ◌+◌, ◌^◌, ◌<◌, ◌≤◌, [], ◌∷◌, ◌++◌, All, List, Some, false, slice_index};
ghost use Rattle.std.specs.Prelude.{◌||◌, if◌then◌else◌};
ghost use Rattle.event_costs.specs.Costs.{IsWhole, sum_of_costs};
ghost use Rattle.event_costs.specs.Keys.{Place as PlaceValue};
ghost use Rattle.arc_costs.specs.Lines.{LinesStandFor, add_line, has_line, line, line_index, line_sum};
ghost use Rattle.event_costs.specs.Order.{same_place};
ghost use Rattle.arc_costs.specs.Rows.{LineRow};

use arc_costs::Tables;
use event_costs::{Cost, Number, Ones, Place};

/// A cost that an account takes, so that what an event does to an account is said once for all of them.
pub trait EventCost {
    ghost numbers: { Self → List ℕ };

    /// Adds it at a place, whose row is looked for at this index first. The answer is the index of the row.
    fn add_line<N: Number>(&self, rows: &mut Tables<N>, near: usize, place: Place<N>) -> usize
        requires room { has_line place rows.old.lines ≡ false → 1 ≤ rows.old.line_room }
        requires fits { (event : ℕ)
            → line_sum event place rows.old.lines + slice_index (numbers self.now) event < 2 ^ 64 }
        ensures lines { rows.new.lines ≡ add_line rows.old.lines (line place (numbers self.now)) }
        ensures arcs { rows.new.arcs ≡ rows.old.arcs }
        ensures line_room { rows.new.line_room + (if has_line place rows.old.lines then 0 else 1) ≡ rows.old.line_room }
        ensures arc_room { rows.new.arc_room ≡ rows.old.arc_room }
        ensures keys { (other : PlaceValue)
            → has_line other rows.new.lines ≡ same_place other place || has_line other rows.old.lines }
        ensures stands { (additions : List LineRow) → LinesStandFor rows.old.lines additions
            → LinesStandFor rows.new.lines (additions ++ line place (numbers self.now) ∷ []) }
        ensures index { line_index place rows.new.lines ≡ Some result };

    /// Adds each of its numbers to a total.
    fn add_total(&self, total: &mut Cost)
        requires { All (λ n. n < 2 ^ 64) (sum_of_costs total.old (numbers self.now)) }
        ensures sum { total.new ≡ sum_of_costs total.old (numbers self.now) }
        ensures whole { IsWhole (numbers self.now) };
}

impl EventCost for Cost {
    ghost numbers = { λ cost. cost };

    #[inline(always)]
    fn add_line<N: Number>(&self, rows: &mut Tables<N>, near: usize, place: Place<N>) -> usize {
        rows.add_line_near(near, place, self)
    }

    #[inline(always)]
    fn add_total(&self, total: &mut Cost) {
        total.add(self);
    }
}

impl EventCost for Ones {
    ghost numbers = { λ ones. ones };

    #[inline(always)]
    fn add_line<N: Number>(&self, rows: &mut Tables<N>, near: usize, place: Place<N>) -> usize {
        rows.add_line_ones_near(near, place, self)
    }

    #[inline(always)]
    fn add_total(&self, total: &mut Cost) {
        total.add_ones(self);
    }
}
