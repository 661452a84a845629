//! What the words of a command line ask for.
#![tactic(auto)]

mod checks;
mod job;
mod option_values;
mod request;
mod table;
mod value;
mod words;

pub use job::default_job;
pub use request::{Dumps, Geometries, Job, Positions, Request, Tree, View, Watching};
pub use table::{Command, Kind, OptionRow, Takers, options};
pub use words::read_words;
