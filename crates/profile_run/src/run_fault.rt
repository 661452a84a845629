//! Why a run stopped before its end.

use byte_text::OutOfMemory;
use event_costs::ThreadNo;
use thiserror::Error;

/// Why a run stopped before its end.
#[derive(Clone, Copy, Debug, PartialEq, Eq, Error)]
pub enum RunFault {
    /// The program and its stack have more pages than a guest may have.
    #[error("guest memory full")]
    GuestFull,
    /// The arguments need so many bytes, more than there are for them.
    #[error("arguments too long: {0} bytes")]
    ArgsTooLong(u64),
    /// The folder refused the part of this number and thread.
    #[error("cannot write part {0}")]
    PutFault(u32, ThreadNo),
    /// A sink refused the guest's output.
    #[error("cannot write the output")]
    OutFault,
    #[error("out of memory")]
    OutOfMemory(OutOfMemory),
}
