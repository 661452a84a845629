//! Why inclusive costs are refused.

ghost use Rattle.std.specs.Prelude.{◌≡◌};
ghost use Rattle.cycles.specs.declared.error.InclError.TheVariants.{OutOfMemory as NoMemory};

use byte_text::OutOfMemory;
use thiserror::Error;

/// Why there are no inclusive costs.
#[derive(Clone, Copy, Debug, PartialEq, Eq, Error)]
pub enum InclError {
    /// A sum at this position is above 2^64 - 1, and at none before. An event's position is its place among the
    /// events: there stand its total, its sums over pairs of functions and its inclusive costs. The calls of pairs of
    /// functions stand after all events.
    #[error("a sum at position {0} is above 2^64 - 1")]
    SumLimit(u32),
    #[error("out of memory")]
    OutOfMemory(OutOfMemory),
}

impl From<OutOfMemory> for InclError {
    ghost from_gives = { λ refused e. e ≡ NoMemory refused };

    fn from(refused: OutOfMemory) -> InclError {
        InclError::OutOfMemory(refused)
    }
}
