//! Texts as their bytes, owned and borrowed, the cleaned form of names, orders in which only equal values tie, and the
//! one error that any call may answer: memory was refused.
#![tactic(auto)]

mod exact_order;
mod memory;
mod name;
mod text;
mod text_ref;

pub use exact_order::ExactOrder;
pub use memory::OutOfMemory;
pub use name::{UNKNOWN, clean_name};
pub use text::Text;
pub use text_ref::TextRef;
