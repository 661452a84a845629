//! The command: what the words ask for, done over a folder and two sinks.
#![tactic(auto)]

mod demo;
mod laws;
mod parts;
mod process;
mod program;
mod report;
mod run;
mod waiting;
mod work;

pub use command_status::Status;
pub use laws::{a_job_has_one_run, equal_commands_end_alike, equal_reports_are_one};
pub use process::command;
pub use work::profile;
