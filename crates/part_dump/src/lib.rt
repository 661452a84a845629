//! Cuts of a run, and the parts that are put at them.
#![tactic(auto)]

mod dump_rule;
mod dumping;
mod laws;
mod name;
mod no_watch;
mod watch;

pub use dump_rule::DumpRule;
pub use dumping::{DumpError, dump, dump_text};
pub use laws::{plain_parts_are_the_files, segments_make_the_trace};
pub use name::part_name;
pub use no_watch::NoWatch;
pub use watch::Watch;
