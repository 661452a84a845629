//! Why a unit gives no rows.
ghost use Rattle.std.specs.Prelude.{◌≡◌};
ghost use Rattle.std.specs.Prelude.{◌≡◌};
ghost use Rattle.dwarf_line.specs.declared.fault.Fault.TheVariants.{OutOfMemory};
ghost use Rattle.byte_text.specs.Memory.{memory};

use byte_text::OutOfMemory;
use std::alloc::{AllocError, AllocFailed};

/// What stops the reading of a unit.
#[derive(Clone, Copy, Debug, PartialEq, Eq)]
pub enum Fault {
    /// The unit is not as the standard says, or not of the kind that is read.
    Damaged,
    OutOfMemory(OutOfMemory),
}

impl From<OutOfMemory> for Fault {
    ghost from_gives = { λ refused e. e ≡ OutOfMemory refused };

    fn from(refused: OutOfMemory) -> Fault {
        Fault::OutOfMemory(refused)
    }
}

impl From<AllocError> for Fault {
    ghost from_gives = { λ _ e. e ≡ OutOfMemory memory };

    fn from(refused: AllocError) -> Fault {
        Fault::OutOfMemory(OutOfMemory::from(refused))
    }
}

impl<T: Drop> From<AllocFailed<T>> for Fault {
    ghost from_gives = { λ _ e. e ≡ OutOfMemory memory };

    fn from(refused: AllocFailed<T>) -> Fault {
        Fault::OutOfMemory(OutOfMemory::from(refused))
    }
}
