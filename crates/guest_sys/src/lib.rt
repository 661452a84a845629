//! The system calls of a guest, after Linux's for 32-bit RISC-V: one row each, applied to the guest and to
//! those that wait.
#![tactic(auto)]

mod caller;
mod clock;
mod effect;
mod futexes;
mod kernel;
mod pages;
mod reach;
mod signals;
mod simple;
mod streams;
mod table;
mod threads;
mod vectors;

pub use effect::{Act, Effect, SysEnd};
pub use kernel::Kernel;
pub use reach::Reach;
pub use table::{CallNumber, NUMBERS, ROWS, Row, place_of, row_of};
pub use threads::MAX_LIVE;
