//! The threads of a guest.

use event_costs::{Regs, ThreadNo};

/// A live thread of the guest.
#[derive(Clone, Copy, Debug, PartialEq, Eq)]
pub struct Thread {
    pub no: ThreadNo,
    pub regs: Regs,
    /// The address of the word that becomes 0 when the thread ends, or 0.
    pub clear: u32,
}
