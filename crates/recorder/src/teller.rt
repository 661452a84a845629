//! What a call stack tells goes into a thread's tables, and answers what its event did.

use arc_costs::Tables;
use event_costs::{ArcKey, ArcSink, Cost, FuncSet, Noted};

/// Counts the arcs that are pushed and closed, and notes which function was pushed and whether one that is watched was
/// left.
#[derive(Drop)]
pub struct Teller<'a> {
    pub rows: &'a mut Tables,
    pub watched: &'a FuncSet,
    pub noted: Noted,
}

impl ArcSink for Teller<'_> {
    ghost use Rattle.recorder.specs.inner.Tellers.{CanTell, Tells};
    ghost use Rattle.recorder.specs.inner.TellerLaws.{teller_takes_front, teller_takes_rest};

    ghost can_take = { λ t ts. CanTell t.rows.now ts };

    ghost takes = { Tells };

    fn pushed(&mut self, arc: &ArcKey) {
        self.rows.count_call(arc);
        self.noted.pushed = Some(arc.callee);
    }

    fn closed(&mut self, arc: &ArcKey, cost: &Cost) {
        self.rows.add_arc(arc, cost);
        self.noted.left |= self.watched.has(arc.callee);
    }

    ghost takes_front = { teller_takes_front };

    ghost takes_rest = { teller_takes_rest };
}
