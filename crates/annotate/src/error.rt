//! Why there is no report.

ghost use Rattle.std.specs.Prelude.{◌≡◌, ℕ};
ghost use Rattle.annotate.specs.declared.error.ReportError.TheVariants.{OutOfMemory as NoMemory};
ghost use Rattle.annotate.specs.inner.Errors.{report_error};

use byte_text::OutOfMemory;
use cycles::InclError;
use thiserror::Error;

/// Why there is no report.
#[derive(Clone, Copy, Debug, PartialEq, Eq, Error)]
pub enum ReportError {
    /// A sum at this position is above 2^64 - 1, and at none before: an event's position is its place, and that of the
    /// calls between functions comes after all events.
    #[error("a sum at position {0} is above 2^64 - 1")]
    SumLimit(u32),
    #[error("out of memory")]
    OutOfMemory(OutOfMemory),
}

impl From<OutOfMemory> for ReportError {
    ghost from_gives = { λ refused e. e ≡ NoMemory refused };

    fn from(refused: OutOfMemory) -> ReportError {
        ReportError::OutOfMemory(refused)
    }
}

impl From<InclError> for ReportError {
    ghost from_gives = { λ i e. e ≡ report_error i };

    fn from(refused: InclError) -> ReportError {
        match refused {
            InclError::SumLimit(position) => ReportError::SumLimit(position),
            InclError::OutOfMemory(refused) => ReportError::OutOfMemory(refused),
        }
    }
}
