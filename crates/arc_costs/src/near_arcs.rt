//! Where arc rows were found last.

ghost use Rattle.std.specs.Prelude.{◌<◌};

use event_costs::{ArcKey, Number};

/// How many rows are remembered.
const REMEMBERED: usize = 64;

/// For some arcs the index of their row, as it was found last. The arcs of a function are mostly at lines near one
/// another, so each has a number of its own here. What is remembered may be of another arc: it only says where to look
/// first.
#[derive(Clone, Copy, Debug)]
pub struct NearArcs {
    rows: [usize; REMEMBERED],
}

impl NearArcs {
    pub const NONE: NearArcs = NearArcs {
        rows: [0; REMEMBERED],
    };

    /// Where the row of an arc is to be looked for first.
    #[inline(always)]
    pub fn of<N: Number>(&self, arc: &ArcKey<N>) -> usize {
        self.rows[number_of(arc)]
    }

    /// Remembers the row of an arc.
    #[inline(always)]
    pub fn remember<N: Number>(&mut self, arc: &ArcKey<N>, row: usize) {
        self.rows[number_of(arc)] = row;
    }
}

/// The number under which the row of an arc is remembered.
#[inline(always)]
fn number_of<N: Number>(arc: &ArcKey<N>) -> usize
    ensures { result < 64 }
{
    (u64::from(arc.line) ^ arc.caller.wide().0) as usize % REMEMBERED
}
