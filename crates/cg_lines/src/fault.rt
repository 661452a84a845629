//! What is wrong with a line.

ghost use Rattle.std.specs.Prelude.{◌≡◌};
ghost use Rattle.cg_lines.specs.declared.fault.Fault.TheVariants.{OutOfMemory};
ghost use Rattle.byte_text.specs.Memory.{memory};

use byte_text::OutOfMemory;
use std::alloc::{AllocError, AllocFailed};

/// What is wrong with a line, wherever it stands.
#[derive(Clone, Copy, Debug, PartialEq, Eq)]
pub enum Fault {
    /// It has the wrong shape, or may not stand here.
    BadLine,
    /// It has costs, and no event is named before it.
    NoEvents,
    /// It speaks of jumps.
    Jumps,
    /// Its id stands for nothing yet.
    UnknownId,
    /// A number in it is out of range.
    BadNumber,
    /// Its positions are of instructions.
    Instr,
    /// Memory was refused.
    OutOfMemory(OutOfMemory),
}

impl From<OutOfMemory> for Fault {
    ghost from_gives = { λ refused e. e ≡ OutOfMemory refused };

    fn from(refused: OutOfMemory) -> Fault {
        Fault::OutOfMemory(refused)
    }
}

impl From<AllocError> for Fault {
    ghost from_gives = { λ _ e. e ≡ OutOfMemory memory };

    fn from(refused: AllocError) -> Fault {
        Fault::OutOfMemory(OutOfMemory::from(refused))
    }
}

impl<T: Drop> From<AllocFailed<T>> for Fault {
    ghost from_gives = { λ _ e. e ≡ OutOfMemory memory };

    fn from(refused: AllocFailed<T>) -> Fault {
        Fault::OutOfMemory(OutOfMemory::from(refused))
    }
}
