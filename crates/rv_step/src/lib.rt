//! The effect of one instruction of RV32IMA: on registers, memory and the reservation.
#![tactic(auto)]

mod arithmetic;
mod atomics;
mod code;
mod execution;
mod instr_table;
mod jumps;
mod keeping;
mod kept_instr;
mod loads;
mod registers;
mod stepped;
mod stores;
mod width;

pub use code::Code;
pub use execution::{step, step_kept};
pub use stepped::{SIGBUS, SIGSEGV, SIGTRAP, Stepped};
