//! Makes the demonstration program of a size: four threads that call functions which were drawn, and count the calls in
//! memory that they share.
#![tactic(auto)]

mod draws;
mod functions;
mod instructions;
mod layout;
mod listing;
mod program;

pub use program::demo_program;
