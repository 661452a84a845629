//! Why a part ends.

use byte_text::Text;

/// Why a part ends where it does.
#[derive(Debug, Drop)]
pub enum Trigger {
    /// The steps so far are a multiple of this number.
    Every(u64),
    /// A function of this name was entered.
    Before(Text),
    /// A function of this name was left.
    After(Text),
    /// The run is over.
    Termination,
}
