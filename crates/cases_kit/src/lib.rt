//! What tests of several crates need: want of memory.
#![tactic(auto)]

mod hoard;

pub use hoard::Hoard;
