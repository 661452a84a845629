//! What lines of a script describe, so that a command can be done over it: programs and other files, what fails, and the
//! words of the command; and what the command left.
#![tactic(auto)]

mod calls;
mod description;
mod fails;
mod files;
mod leavings;
mod setting;
mod texts;
mod words;

pub use calls::print_calls;
pub use leavings::Leavings;
pub use setting::Setting;
pub use texts::words_of_line;
