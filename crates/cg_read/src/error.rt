//! Why a call on profiles refuses.

ghost use Rattle.std.specs.Prelude.{◌≡◌};
ghost use Rattle.cg_read.specs.Faults.{error_at};
ghost use Rattle.cg_read.specs.declared.error.FormatError.TheVariants.{OutOfMemory as Unread};
ghost use Rattle.cg_read.specs.declared.error.SumError.TheVariants.{OutOfMemory};
ghost use Rattle.cg_read.specs.declared.error.MergeError.TheVariants.{OutOfMemory as NoMemory};
ghost use Rattle.byte_text.specs.Memory.{memory};

use byte_text::OutOfMemory;
use cg_lines::Fault;
use std::alloc::{AllocError, AllocFailed};
use thiserror::Error;

/// Why bytes are no profile: the first line that has no meaning, counted from 1.
#[derive(Clone, Copy, Debug, PartialEq, Eq, Error)]
pub enum FormatError {
    /// The line has the wrong shape, or may not stand where it does.
    #[error("line {0} is malformed")]
    BadLine(u64),
    /// A line with costs stands before any `events:` line, or there is none in the file.
    #[error("no events are named")]
    NoEvents,
    /// The line speaks of jumps.
    #[error("line {0} speaks of jumps")]
    Jumps(u64),
    /// The line has an id that stands for nothing yet.
    #[error("line {0} has an unknown id")]
    UnknownId(u64),
    /// The line has a number above 2^64 - 1, or a position below 0.
    #[error("line {0} has a number out of range")]
    BadNumber(u64),
    /// The line asks for positions of instructions.
    #[error("line {0} asks for positions of instructions")]
    Instr(u64),
    #[error("out of memory")]
    OutOfMemory(OutOfMemory),
}

impl FormatError {
    /// What is wrong with the line of this number.
    pub(crate) fn at(fault: Fault, number: u64) -> FormatError
        ensures { result ≡ error_at number fault }
    {
        match fault {
            Fault::BadLine => FormatError::BadLine(number),
            Fault::NoEvents => FormatError::NoEvents,
            Fault::Jumps => FormatError::Jumps(number),
            Fault::UnknownId => FormatError::UnknownId(number),
            Fault::BadNumber => FormatError::BadNumber(number),
            Fault::Instr => FormatError::Instr(number),
            Fault::OutOfMemory(refused) => FormatError::OutOfMemory(refused),
        }
    }
}

impl From<OutOfMemory> for FormatError {
    ghost from_gives = { λ refused e. e ≡ Unread refused };

    fn from(refused: OutOfMemory) -> FormatError {
        FormatError::OutOfMemory(refused)
    }
}

/// Why sums over a profile are refused.
#[derive(Debug, Drop, Error)]
pub enum SumError {
    /// The sum at this place is above 2^64 - 1, and it is the first.
    #[error("the sum for event {0} is above 2^64 - 1")]
    SumLimit(u32),
    #[error("out of memory")]
    OutOfMemory(OutOfMemory),
}

impl From<AllocError> for SumError {
    ghost from_gives = { λ _ e. e ≡ OutOfMemory memory };

    fn from(refused: AllocError) -> SumError {
        SumError::OutOfMemory(OutOfMemory::from(refused))
    }
}

impl<T: Drop> From<AllocFailed<T>> for SumError {
    ghost from_gives = { λ _ e. e ≡ OutOfMemory memory };

    fn from(refused: AllocFailed<T>) -> SumError {
        SumError::OutOfMemory(OutOfMemory::from(refused))
    }
}

/// Why a profile can't be joined to another.
#[derive(Debug, Drop, Error)]
pub enum MergeError {
    #[error("the events differ")]
    EventsDiffer,
    #[error("out of memory")]
    OutOfMemory(OutOfMemory),
}

impl From<OutOfMemory> for MergeError {
    ghost from_gives = { λ refused e. e ≡ NoMemory refused };

    fn from(refused: OutOfMemory) -> MergeError {
        MergeError::OutOfMemory(refused)
    }
}
