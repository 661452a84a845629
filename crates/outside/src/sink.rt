//! The sinks that output goes to.

ghost use Rattle.std.specs.Prelude.{◌≡◌, ◌≤◌, ◌∷◌, [], ℕ, List, Option, false};
ghost use Rattle.outside.specs.Journal.{TellsMore, TellsWrites, Wrote, wrote};
ghost use Rattle.outside.specs.Write.{WriteAnswers, WritesAll, write_failed};

use byte_text::OutOfMemory;
use thiserror::Error;

/// Why bytes could not be written.
#[derive(Clone, Copy, Debug, PartialEq, Eq, Error)]
pub enum WriteError {
    #[error("cannot write the output")]
    Failed,
    #[error("out of memory")]
    OutOfMemory(OutOfMemory),
}

/// Takes bytes one after another. A contract sees the bytes taken so far and the writes that were made with their
/// answers, each where the sink tells them, and its count of faults, which rises at calls that answer `Failed`, and at
/// no others. Writes are told as long as there is memory for them; then none is.
pub trait Sink {
    ghost taken: { Self → Option (List ℕ) };

    ghost writes: { Self → Option (List Wrote) };

    ghost faults: { Self → ℕ };

    /// Takes a front of the piece, at least a byte of one that isn't empty, and answers its length.
    fn write(&mut self, bytes: &[u8]) -> Result<usize, WriteError>
        ensures answer { WriteAnswers (taken self.old) bytes.now (faults self.old)
            (faults self.new) result (taken self.new) }
        ensures told { TellsMore (writes self.old) (wrote bytes.now result ∷ []) (writes self.new) }
        ensures never_falls { faults self.old ≤ faults self.new }
        ensures rises_at_failure { write_failed result ≡ false → faults self.new ≡ faults self.old };
}

/// Writes all of the bytes. After a refusal the sink has taken a front of them that is not the whole.
pub fn write_all<S: Sink>(sink: &mut S, bytes: &[u8]) -> Result<(), WriteError>
    ensures answer { WritesAll (S.taken sink.old) bytes.now (S.faults sink.old)
        (S.faults sink.new) result (S.taken sink.new) }
    ensures told { TellsWrites (S.writes sink.old) bytes.now result (S.writes sink.new) }
    ensures never_falls { S.faults sink.old ≤ S.faults sink.new }
    ensures rises_at_failure { write_failed result ≡ false → S.faults sink.new ≡ S.faults sink.old }
{
    let mut rest = bytes;
    'pieces: while !rest.is_empty() {
        let count = sink.write(rest)?;
        rest = &rest[count..];
    }
    Ok(())
}
