//! Why profile files can't be read and joined.

ghost use Rattle.std.specs.Prelude.{◌≡◌};
ghost use Rattle.profile_files.specs.declared.fault.ReadFault.TheVariants as fault;

use byte_text::{OutOfMemory, Text};
use cg_read::FormatError;
use thiserror::Error;

/// Why profile files can't be read and joined: the first reason, with the name of the file.
#[derive(Debug, Drop, PartialEq, Error)]
pub enum ReadFault {
    /// The file could not be loaded.
    #[error("a profile file can't be loaded")]
    LoadFault(Text),
    /// The file is longer than its limit: its length in bytes.
    #[error("a profile file is too long: {1} bytes")]
    TooLong(Text, u64),
    /// The file is no profile: its first bad line.
    #[error("a profile file is refused: {1}")]
    FormatRefused(Text, FormatError),
    /// Neither the file's list of events nor the one joined before it begins with the other.
    #[error("a profile file has other events")]
    EventsDiffer(Text),
    #[error("out of memory")]
    OutOfMemory(OutOfMemory),
}

impl From<OutOfMemory> for ReadFault {
    ghost from_gives = { λ refused e. e ≡ fault.OutOfMemory refused };

    fn from(refused: OutOfMemory) -> ReadFault {
        ReadFault::OutOfMemory(refused)
    }
}
