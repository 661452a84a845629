//! The run of a program: from the loaded guest to its last part.
#![tactic(auto)]

mod counting;
mod laws;
mod options;
mod output;
mod parts;
mod run_end;
mod run_fault;
mod running;
mod started_run;

pub use laws::{
    every_guest_has_one_trace, no_sum_passes_its_type, parts_have_names_of_their_own,
    rows_have_the_sums_of_their_events, steps_are_those_of_the_machine,
};
pub use options::RunOptions;
pub use parts::command_line;
pub use run_end::{PartFile, RunEnd};
pub use run_fault::RunFault;
pub use running::{run, run_watched};
