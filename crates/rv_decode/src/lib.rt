//! The instructions of RV32IMA as one table of 59 rows: a word to its instruction, and an instruction to its word.
//!
//! The rows, the layouts and the signed immediates are those of the RISC-V unprivileged manual (chapters RV32I, M, A).
#![tactic(auto)]

mod candidate;
mod control_flow;
mod decoding;
mod encoding;
mod instr;
mod layout;
mod ranges;
mod row;

pub use control_flow::flow;
pub use decoding::{decode, decode_by_search};
pub use encoding::encode;
pub use instr::{Instr, Op};
pub use ranges::is_in_range;
pub use row::{ROWS, Row, Shape, find, row_of, rows_are_listed, rows_stand_apart};
