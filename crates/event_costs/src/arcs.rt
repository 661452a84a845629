//! Who is told of the arcs of a call stack.

ghost use Rattle.std.specs.Prelude.{List, [], ◌∷◌, ◌++◌};
ghost use Rattle.event_costs.specs.Arcs.{Telling, Pushed, Closed};

use crate::cost::Cost;
use crate::keys::ArcKey;

/// A receiver of what a call stack tells: each arc that is pushed, and each that is closed with its cost.
pub trait ArcSink {
    /// the lists of tellings that it can take from here
    ghost can_take: { Self → List Telling → Type 0 };

    /// the sink before a telling, the telling, and the sink after it
    ghost takes: { Self → Telling → Self → Type 0 };

    fn pushed(&mut self, arc: &ArcKey)
        requires { can_take self.old (Pushed arc.now ∷ []) }
        ensures { takes self.old (Pushed arc.now) self.new };

    fn closed(&mut self, arc: &ArcKey, cost: &Cost)
        requires { can_take self.old (Closed arc.now cost.now ∷ []) }
        ensures { takes self.old (Closed arc.now cost.now) self.new };

    ghost takes_front: { (sink : Self) (front rest : List Telling) → can_take sink (front ++ rest)
        → can_take sink front };

    ghost takes_rest: { (old new : Self) (telling : Telling) (rest : List Telling)
        → can_take old (telling ∷ rest) → takes old telling new → can_take new rest };
}
