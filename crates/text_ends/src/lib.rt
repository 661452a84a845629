//! Texts that end with zero bytes, where many of them stand in one section.
#![tactic(auto)]

mod texts;

pub use texts::{Texts, first_zero};
