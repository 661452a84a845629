//! The report on a profile: its functions in groups that reach each other, the calls between them, and source texts
//! with the costs of their lines.
#![tactic(auto)]

mod calls;
mod error;
mod file_names;
mod functions;
mod heading;
mod names;
mod reporting;
mod source;
mod sources;
mod view;

pub use error::ReportError;
pub use file_names::files;
pub use report_rows::{ReportOptions, Tree};
pub use reporting::report;
pub use source::{Source, Texts};
