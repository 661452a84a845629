//! Steps beside a run: files are loaded, a report is made and written, and the user is told how it ended.
#![tactic(auto)]

mod annotating;
mod loading;
mod reading;
mod reporting;
mod saying;
mod summary;

pub use annotating::annotate_command;
pub use loading::{load_file, load_input};
pub use reading::read_run_files;
pub use reporting::show_report;
pub use saying::say;
pub use summary::{Figures, show_summary};
