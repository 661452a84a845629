//! Why a program can't be loaded.

ghost use Rattle.std.specs.Prelude.{◌≡◌};
ghost use Rattle.byte_text.specs.Memory.{memory};

use byte_text::OutOfMemory;
use guest_mem::MapError;
use std::alloc::AllocError;
use thiserror::Error;

/// Why a program can't be loaded.
#[derive(Clone, Copy, Debug, PartialEq, Eq, Error)]
pub enum GuestError {
    /// The program and its stack have more pages than a guest may have.
    #[error("guest memory full")]
    Full,
    /// The arguments need so many bytes, more than there are for them.
    #[error("arguments too long: {0} bytes")]
    ArgsTooLong(u64),
    /// Memory was refused.
    #[error("out of memory")]
    OutOfMemory(OutOfMemory),
}

impl From<AllocError> for GuestError {
    ghost use Rattle.guest_load.specs.declared.error.GuestError.{GuestError};

    ghost from_gives = { λ _ e. e ≡ GuestError.OutOfMemory memory };

    fn from(refused: AllocError) -> GuestError {
        GuestError::OutOfMemory(OutOfMemory::from(refused))
    }
}

impl From<MapError> for GuestError {
    ghost use Rattle.guest_load.specs.Errors.{from_map_error};

    ghost from_gives = { λ m e. e ≡ from_map_error m };

    fn from(refused: MapError) -> GuestError {
        match refused {
            MapError::Full => GuestError::Full,
            MapError::OutOfMemory(refused) => GuestError::OutOfMemory(refused),
        }
    }
}
