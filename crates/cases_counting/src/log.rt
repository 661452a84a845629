//! A sink that keeps what it is told.

use prof_base::{ArcKey, ArcSink, Cost};
use std::alloc::Global;

/// An arc that was pushed, or closed with this number of instructions.
#[derive(Clone, Copy, Debug, PartialEq, Eq)]
pub enum Telling {
    Pushed(ArcKey),
    Closed(ArcKey, u64),
}

/// All that was told, as far as memory allows.
#[derive(Debug, Drop)]
pub struct Log {
    pub tellings: Vec<Telling>,
}

impl Log {
    pub fn new(alloc: Global) -> Log {
        Log {
            tellings: Vec::new(alloc),
        }
    }
}

impl ArcSink for Log {
    ghost use Rattle.std.specs.Prelude.{⊤};

    ghost can_take = { λ _ _. ⊤ };

    ghost takes = { λ _ _ _. ⊤ };

    fn pushed(&mut self, arc: &ArcKey) {
        let _ = self.tellings.push(Telling::Pushed(*arc));
    }

    fn closed(&mut self, arc: &ArcKey, cost: &Cost) {
        let _ = self.tellings.push(Telling::Closed(*arc, cost.n[0]));
    }

    ghost takes_front = { λ _ _ _ _. tt };

    ghost takes_rest = { λ _ _ _ _ _ _. tt };
}
