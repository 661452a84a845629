//! The real sinks: a few lines over the operating system. They tell nothing of content.

ghost use Rattle.std.specs.Prelude.{None, ◌∷◌, [], ◌≡◌, ◌≢◌, ◌≤◌, ◌<◌, length, IfOk, IfErr, false};
ghost use Rattle.std.specs.IoError.{error_kind};
ghost use Rattle.std.specs.declared.io.ErrorKind.TheVariants.{Interrupted};
ghost use Rattle.outside.specs.Plan.{count_after};
ghost use Rattle.outside.specs.Journal.{TellsMore, wrote};
ghost use Rattle.outside.specs.Write.{WriteAnswers, write_failed};
ghost use Rattle.outside.specs.inner.Front.{IsWriteError};

use crate::plan::count_after;
use crate::sink::{Sink, WriteError};
use byte_text::OutOfMemory;
use std::io;
use std::marker::Model;

/// One write of some of a piece to a stream, tried again where a signal interrupts it.
fn write_once<P: Print>(stream: &P, bytes: &[u8]) -> io::Result<usize>
    ensures within { IfOk result (λ count. count ≤ length bytes.now) }
    ensures retried { IfErr result (λ error. error_kind error ≢ Interrupted) }
{
    'tries: for _ in 0..u64::MAX {
        match stream.write_some(bytes) {
            Err(error) if error.kind() == io::ErrorKind::Interrupted => {}
            answer => return answer,
        }
    }
    Err(io::Error::from(io::ErrorKind::Other))
}

/// What a write answers that the system refuses.
fn write_error(error: &io::Error) -> WriteError
    ensures { IsWriteError error.now result }
{
    match OutOfMemory::of_io(error) {
        Some(refused) => WriteError::OutOfMemory(refused),
        None => WriteError::Failed,
    }
}

/// Writes some of a piece to a stream. A stream that takes nothing of a piece that isn't empty counts a fault, as a
/// failing one does.
fn write_some<P: Print>(stream: &P, faults: &mut u64, bytes: &[u8]) -> Result<usize, WriteError>
    ensures answer { WriteAnswers None bytes.now faults.old faults.new result None }
    ensures counted { faults.new ≡ count_after (write_failed result) faults.old }
    ensures never_falls { faults.old ≤ faults.new }
{
    if bytes.is_empty() {
        return Ok(0);
    }
    let answer = match write_once(stream, bytes) {
        Ok(0) => Err(WriteError::Failed),
        Ok(count) => Ok(count),
        Err(error) => Err(write_error(&error)),
    };
    let failed = matches!(answer, Err(WriteError::Failed));
    *faults = count_after(failed, *faults);
    answer
}

/// Standard output or standard error. Contracts see its count of faults.
#[derive(Drop)]
pub struct StreamSink<P> {
    stream: P,
    faults: u64,
}

impl<P> Model for StreamSink<P> {
    ghost use Rattle.std.specs.Prelude.{ℕ};

    ghost Value = { ℕ };

    ghost view = { λ s. s.faults };
}

impl<P: Print> StreamSink<P> {
    /// The stream, with no fault yet.
    pub fn new(stream: P) -> StreamSink<P>
        ensures { result ≡ 0 }
    {
        StreamSink { stream, faults: 0 }
    }
}

impl<P: Print> Sink for StreamSink<P> {
    ghost taken = { λ _. None };

    ghost writes = { λ _. None };

    ghost faults = { λ faults. faults };

    fn write(&mut self, bytes: &[u8]) -> Result<usize, WriteError>
        ensures answer { WriteAnswers None bytes.now self.old self.new result None }
        ensures told { TellsMore None (wrote bytes.now result ∷ []) None }
        ensures never_falls { self.old ≤ self.new }
        ensures rises_at_failure { write_failed result ≡ false → self.new ≡ self.old }

        // The count rises by one at a fault, and at nothing else.
        ensures counted { self.new ≡ count_after (write_failed result) self.old }
    {
        write_some(&self.stream, &mut self.faults, bytes)
    }
}
