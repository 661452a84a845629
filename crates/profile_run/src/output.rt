//! What the guest writes.

ghost use Rattle.std.specs.Prelude.{◌≡◌, ◌≤◌};
ghost use Rattle.profile_run.specs.inner.Standing.{Sends, Takes};
ghost use Rattle.outside.specs.Outside.{stream_of};

use crate::run_fault::RunFault;
use outside::{Sink, WriteError, write_all};

/// Writes what a step outputs to a descriptor: 1 is standard output, and 2 is standard error.
pub fn write_output<O: Sink, E: Sink>(
    out: &mut O,
    err: &mut E,
    descriptor: u32,
    bytes: &[u8],
) -> Result<(), RunFault>
    ensures answer { Sends descriptor bytes.now (stream_of O.Sink out.old) (stream_of E.Sink err.old) result
        (stream_of O.Sink out.new) (stream_of E.Sink err.new) }
    ensures out_never_falls { O.faults out.old ≤ O.faults out.new }
    ensures err_never_falls { E.faults err.old ≤ E.faults err.new }
{
    match descriptor {
        1 => write_to(out, bytes),
        2 => write_to(err, bytes),
        _ => Ok(()),
    }
}

/// Writes all of the bytes to a sink.
fn write_to<S: Sink>(sink: &mut S, bytes: &[u8]) -> Result<(), RunFault>
    ensures answer { Takes bytes.now (stream_of S.Sink sink.old) result (stream_of S.Sink sink.new) }
    ensures never_falls { S.faults sink.old ≤ S.faults sink.new }
{
    match write_all(sink, bytes) {
        Ok(()) => Ok(()),
        Err(WriteError::Failed) => Err(RunFault::OutFault),
        Err(WriteError::OutOfMemory(refused)) => Err(RunFault::OutOfMemory(refused)),
    }
}
