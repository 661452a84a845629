//! Sinks in memory: one whose calls can be told to fail or to take pieces, and one that never fails. Both tell the bytes
//! that they took and their writes.

ghost use Rattle.std.specs.Prelude.{◌≡◌, ◌≤◌, ◌<◌, ◌∷◌, Some, Err, IfOk, [], option_copied, length, min, IsTrue, false};
ghost use Rattle.outside.specs.Write.{WriteAnswers, write_failed};
ghost use Rattle.outside.specs.inner.Pieces.{TakesWhole};
ghost use Rattle.outside.specs.Plan.{next_fails, after_call, count_after};
ghost use Rattle.outside.specs.Shelf.{empty_sink};
ghost use Rattle.outside.specs.Journal.{TellsMore, wrote};
ghost use Rattle.outside.specs.Traced.{writes_in};

use crate::call_journal::SinkWrite;
use crate::journal::Journal;
use crate::plan::{Plan, count_after};
use crate::sink::{Sink, WriteError};
use byte_text::OutOfMemory;
use std::alloc::Global;
use std::marker::Model;

/// A sink in memory. Its calls count from 1, and those whose numbers are on a list fail. The others take a piece as a
/// whole, or so many bytes of it.
#[derive(Debug, Drop)]
pub struct MemSink {
    alloc: Global,
    bytes: Vec<u8>,
    writes: Journal<SinkWrite>,
    /// How many bytes a call takes at most.
    most: usize,
    plan: Plan,
    faults: u64,
}

impl Model for MemSink {
    ghost use Rattle.std.specs.Prelude.{◌<◌};
    ghost use Rattle.outside.specs.Shelf.{SinkState};
    ghost use Rattle.outside.specs.Traced.{writes_in};

    ghost Value = { SinkState };

    ghost view = { λ s. record {
      taken = s.bytes.items;
      writes = writes_in s.writes;
      most = s.most;
      plan = s.plan;
      faults = s.faults;
    } };

    ghost invariant = { λ s. 0 < s.most };
}

impl MemSink {
    /// An empty sink, whose calls of these numbers fail, and which takes each other piece as a whole.
    pub fn new(alloc: Global, fails: Vec<u64>) -> MemSink
        ensures { result ≡ empty_sink usize.MAX fails.items }
    {
        MemSink {
            alloc,
            bytes: Vec::new(alloc),
            writes: Journal::new(alloc),
            most: usize::MAX,
            plan: Plan::new(fails),
            faults: 0,
        }
    }

    /// An empty sink that takes at most so many bytes in one call, and never fails but for want of memory.
    pub fn with_piece(alloc: Global, most: usize) -> MemSink
        requires { 0 < most }
        ensures { result ≡ empty_sink most [] }
    {
        MemSink {
            alloc,
            bytes: Vec::new(alloc),
            writes: Journal::new(alloc),
            most,
            plan: Plan::new(Vec::new(alloc)),
            faults: 0,
        }
    }

    /// The bytes taken so far.
    pub fn bytes(&self) -> &[u8]
        ensures { result.now ≡ self.now.taken }
    {
        self.bytes.as_slice()
    }

    /// The writes that were made, in their order, None once memory for one of them was refused.
    pub fn writes(&self) -> Option<&[SinkWrite]>
        ensures { writes_in (option_copied result) ≡ self.now.writes }
    {
        self.writes.entries()
    }
}

impl Sink for MemSink {
    ghost taken = { λ s. Some s.taken };

    ghost writes = { λ s. s.writes };

    ghost faults = { λ s. s.faults };

    fn write(&mut self, bytes: &[u8]) -> Result<usize, WriteError>
        ensures answer { WriteAnswers (Some self.old.taken) bytes.now self.old.faults self.new.faults result
            (Some self.new.taken) }
        ensures told { TellsMore self.old.writes (wrote bytes.now result ∷ []) self.new.writes }
        ensures never_falls { self.old.faults ≤ self.new.faults }
        ensures rises_at_failure { write_failed result ≡ false → self.new.faults ≡ self.old.faults }

        // A call on a piece that isn't empty fails where its number is on the list, and the count rises there alone.
        ensures listed { IsTrue (next_fails self.old.plan) → 0 < length bytes.now → result ≡ Err WriteError.Failed }
        ensures counted { self.new.plan ≡ after_call self.old.plan }
        ensures rises { 0 < length bytes.now → self.new.faults
            ≡ count_after (next_fails self.old.plan) self.old.faults }
        ensures stays { bytes.now ≡ [] → self.new.faults ≡ self.old.faults }

        // A call that takes bytes takes as many as it may.
        ensures piece { IfOk result (λ count. count ≡ min self.old.most (length bytes.now)) }
        ensures same_most { self.new.most ≡ self.old.most }
    {
        let fails = self.plan.call();
        if bytes.is_empty() {
            self.writes.write(self.alloc, bytes, Ok(0));
            return Ok(0);
        }
        self.faults = count_after(fails, self.faults);
        if fails {
            self.writes
                .write(self.alloc, bytes, Err(WriteError::Failed));
            return Err(WriteError::Failed);
        }
        let count = self.most.min(bytes.len());
        let answer = take_whole(&mut self.bytes, &bytes[..count]);
        self.writes.write(self.alloc, bytes, answer);
        answer
    }
}

/// A sink in memory that never fails but for want of memory.
#[derive(Debug, Drop)]
pub struct SureSink {
    alloc: Global,
    bytes: Vec<u8>,
    writes: Journal<SinkWrite>,
}

impl Model for SureSink {
    ghost use Rattle.std.specs.Prelude.{List, ℕ};
    ghost use Rattle.outside.specs.Traced.{TracedSink, writes_in};

    ghost Value = { TracedSink (List ℕ) };

    ghost view = { λ s. record { sink = s.bytes.items; writes = writes_in s.writes } };
}

impl SureSink {
    /// An empty sink.
    pub fn new(alloc: Global) -> SureSink
        ensures { result ≡ record { sink = []; writes = Some [] } }
    {
        SureSink {
            alloc,
            bytes: Vec::new(alloc),
            writes: Journal::new(alloc),
        }
    }

    /// The bytes taken so far.
    pub fn bytes(&self) -> &[u8]
        ensures { result.now ≡ self.now.sink }
    {
        self.bytes.as_slice()
    }

    /// The writes that were made, in their order, None once memory for one of them was refused.
    pub fn writes(&self) -> Option<&[SinkWrite]>
        ensures { writes_in (option_copied result) ≡ self.now.writes }
    {
        self.writes.entries()
    }
}

impl Sink for SureSink {
    ghost taken = { λ s. Some s.sink };

    ghost writes = { λ s. s.writes };

    ghost faults = { λ _. 0 };

    fn write(&mut self, bytes: &[u8]) -> Result<usize, WriteError> {
        if bytes.is_empty() {
            self.writes.write(self.alloc, bytes, Ok(0));
            return Ok(0);
        }
        let answer = take_whole(&mut self.bytes, bytes);
        self.writes.write(self.alloc, bytes, answer);
        answer
    }
}

/// Takes a piece that isn't empty as a whole.
fn take_whole(taken: &mut Vec<u8>, piece: &[u8]) -> Result<usize, WriteError>
    requires { 0 < length piece.now }
    ensures { TakesWhole taken.old.items piece.now result taken.new.items }
{
    match taken.extend_from_slice(piece) {
        Ok(()) => Ok(piece.len()),
        Err(refused) => Err(WriteError::OutOfMemory(OutOfMemory::from(refused))),
    }
}
