//! What a step answers.

use event_costs::Done;

/// The signal of a breakpoint.
pub const SIGTRAP: u32 = 5;
/// The signal of an address that isn't aligned.
pub const SIGBUS: u32 = 7;
/// The signal of an access that isn't allowed.
pub const SIGSEGV: u32 = 11;

/// What became of one instruction.
#[derive(Clone, Copy, Debug, PartialEq, Eq)]
pub enum Stepped {
    /// It retired.
    Retired(Done),
    /// It is an ECALL: nothing changed.
    Call,
    /// It trapped with this signal, `SIGTRAP`, `SIGBUS` or `SIGSEGV`: nothing changed.
    Trap(u32),
    /// The word at the pc is no instruction: nothing changed.
    Unknown(u32),
}
