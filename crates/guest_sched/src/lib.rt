//! The machine: a guest whose threads take turns, one step at a time.
#![tactic(auto)]

mod acts;
mod engine;
pub mod laws;
mod machine;
mod places;
mod run_queue;
mod turns;

pub use machine::Machine;
pub use turns::{Halt, Turn, Turns};
