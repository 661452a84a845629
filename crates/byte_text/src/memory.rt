//! The one error that any call may answer: memory was refused.

ghost use Rattle.std.specs.Prelude.{◌≡◌, ◌↔◌, IsTrue, is_some};
ghost use Rattle.std.specs.IoError.{error_kind};
ghost use Rattle.std.specs.declared.io.ErrorKind.{ErrorKind};

use std::alloc::{AllocError, AllocFailed};
use std::io;
use thiserror::Error;

/// Memory was refused. It is made of std's own word that it was; the few other places that make one are the calls of
/// this type.
#[derive(Clone, Copy, Debug, PartialEq, Eq, Error)]
#[error("out of memory")]
pub struct OutOfMemory {
    refused: (),
}

impl OutOfMemory {
    /// Want of memory, exactly where an error of the system is one by its kind.
    pub fn of_io(error: &io::Error) -> Option<OutOfMemory>
        ensures { IsTrue (is_some result) ↔ (error_kind error.now ≡ ErrorKind.OutOfMemory) }
    {
        match error.kind() {
            io::ErrorKind::OutOfMemory => Some(OutOfMemory { refused: () }),
            _ => None,
        }
    }

    /// Want of memory, for a library that tells it by the kind of an error of its own.
    pub fn of_library() -> OutOfMemory {
        OutOfMemory { refused: () }
    }
}

impl From<AllocError> for OutOfMemory {
    fn from(_refused: AllocError) -> OutOfMemory {
        OutOfMemory { refused: () }
    }
}

impl<T: Drop> From<AllocFailed<T>> for OutOfMemory {
    fn from(_refused: AllocFailed<T>) -> OutOfMemory {
        OutOfMemory { refused: () }
    }
}
