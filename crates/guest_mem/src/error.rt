//! Why a call on the guest's memory is refused.

ghost use Rattle.std.specs.Prelude.{◌≡◌};
ghost use Rattle.byte_text.specs.Memory.{memory};

use byte_text::OutOfMemory;
use std::alloc::AllocError;
use thiserror::Error;

/// A byte isn't mapped with the permission that the access needs, or lies past the last address.
#[derive(Clone, Copy, Debug, PartialEq, Eq, Error)]
#[error("access refused")]
pub struct Access;

/// Why pages can't be mapped.
#[derive(Clone, Copy, Debug, PartialEq, Eq, Error)]
pub enum MapError {
    /// More pages would be mapped than the guest may have.
    #[error("guest memory full")]
    Full,
    /// Memory was refused.
    #[error("out of memory")]
    OutOfMemory(OutOfMemory),
}

impl From<AllocError> for MapError {
    ghost use Rattle.guest_mem.specs.declared.error.MapError.{MapError};

    ghost from_gives = { λ _ e. e ≡ MapError.OutOfMemory memory };

    fn from(refused: AllocError) -> MapError {
        MapError::OutOfMemory(OutOfMemory::from(refused))
    }
}

/// Why bytes can't be copied out.
#[derive(Clone, Copy, Debug, PartialEq, Eq, Error)]
pub enum CopyError {
    /// A byte may not be read.
    #[error("access refused")]
    Access,
    /// Memory was refused.
    #[error("out of memory")]
    OutOfMemory(OutOfMemory),
}

impl From<AllocError> for CopyError {
    ghost use Rattle.guest_mem.specs.declared.error.CopyError.{CopyError};

    ghost from_gives = { λ _ e. e ≡ CopyError.OutOfMemory memory };

    fn from(refused: AllocError) -> CopyError {
        CopyError::OutOfMemory(OutOfMemory::from(refused))
    }
}
