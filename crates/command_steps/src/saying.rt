//! The line that tells the user how a command ended.

ghost use Rattle.std.specs.Prelude.{◌≡◌, if◌then◌else◌};
ghost use Rattle.command_status.specs.Numbers.{is_finished};
ghost use Rattle.outside.specs.Outside.{stream_of};
ghost use Rattle.command_steps.specs.Saying.{Says, TellsLine};

use command_status::Status;
use outside::{Sink, WriteError, write_all};
use std::alloc::Global;

/// Tells on `err` how the work ended, and answers how the command ends.
pub fn say<E: Sink>(alloc: Global, found: Status, err: &mut E) -> Status
    ensures says { Says found (stream_of E.Sink err.old) result
        (stream_of E.Sink err.new) }
    ensures told { TellsLine found (E.writes err.old) result (E.writes err.new) }
{
    let line = match found.message(alloc) {
        Ok(line) => line,
        Err(refused) => return Status::OutOfMemory(refused),
    };
    match write_all(err, line.as_bytes()) {
        Ok(()) => found,
        Err(WriteError::Failed) => unsaid(found),
        Err(WriteError::OutOfMemory(refused)) => Status::OutOfMemory(refused),
    }
}

/// How a command ends whose line can't be written: a refusal that was met before stays.
fn unsaid(found: Status) -> Status
    ensures { result ≡ (if is_finished found then Status.OutFault else found) }
{
    if found.is_finished() {
        return Status::OutFault;
    }
    found
}
