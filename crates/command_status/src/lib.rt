//! How a command ends: its status, the number that the process ends with, and the line that tells the user.
#![tactic(auto)]

mod message;
mod named;
mod refusal;
mod status;

pub use status::Status;
