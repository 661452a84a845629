//! A sink that keeps the writes that were made to it.

ghost use Rattle.std.specs.Prelude.{◌≡◌, ◌≤◌, ◌∷◌, [], Some, false, option_copied};
ghost use Rattle.outside.specs.Journal.{TellsMore, wrote};
ghost use Rattle.outside.specs.Traced.{writes_in};
ghost use Rattle.outside.specs.Write.{WriteAnswers, write_failed};

use crate::call_journal::SinkWrite;
use crate::journal::Journal;
use crate::sink::{Sink, WriteError};
use std::alloc::Global;
use std::marker::Model;

/// A sink that keeps the writes that were made to it, and so tells them, as long as there is memory for them.
#[derive(Drop)]
pub struct TracedSink<S> {
    alloc: Global,
    sink: S,
    writes: Journal<SinkWrite>,
}

impl<S> Model for TracedSink<S> {
    ghost use Rattle.outside.specs.Traced as seen;
    ghost use Rattle.outside.specs.Traced.{writes_in};

    ghost Value = { seen.TracedSink S };

    ghost view = { λ t. record { sink = t.sink; writes = writes_in t.writes } };
}

impl<S> TracedSink<S> {
    /// Over a sink, to which no write was made yet.
    pub fn new(alloc: Global, sink: S) -> TracedSink<S>
        ensures { result ≡ record { sink = sink; writes = Some [] } }
    {
        TracedSink {
            alloc,
            sink,
            writes: Journal::new(alloc),
        }
    }

    /// The writes that were made, in their order, None once memory for one of them was refused.
    pub fn writes(&self) -> Option<&[SinkWrite]>
        ensures { writes_in (option_copied result) ≡ self.now.writes }
    {
        self.writes.entries()
    }
}

impl<S: Sink> Sink for TracedSink<S> {
    ghost taken = { λ t. S.taken t.sink };

    ghost writes = { λ t. t.writes };

    ghost faults = { λ t. S.faults t.sink };

    fn write(&mut self, bytes: &[u8]) -> Result<usize, WriteError>
        ensures answer { WriteAnswers (S.taken self.old.sink) bytes.now (S.faults self.old.sink)
            (S.faults self.new.sink) result (S.taken self.new.sink) }
        ensures told { TellsMore self.old.writes (wrote bytes.now result ∷ []) self.new.writes }
        ensures never_falls { S.faults self.old.sink ≤ S.faults self.new.sink }
        ensures rises_at_failure { write_failed result ≡ false → S.faults self.new.sink ≡ S.faults self.old.sink }

        // The sink below is asked once, to take the same, and this is what it has answered.
        ensures once { TellsMore (S.writes self.old.sink) (wrote bytes.now result ∷ []) (S.writes self.new.sink) }
    {
        let answer = self.sink.write(bytes);
        self.writes.write(self.alloc, bytes, answer);
        answer
    }
}
