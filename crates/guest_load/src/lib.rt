//! The guest as a program begins: its memory, its threads, its break and its input.
#![tactic(auto)]

mod arguments;
mod error;
mod guest;
mod loading;
mod pages;
mod segments;
mod stack;
mod thread;

pub use error::GuestError;
pub use guest::Guest;
pub use loading::load;
pub use thread::Thread;
