//! For tests and benchmarks: a recorder of events that cost one instruction each.
#![tactic(auto)]

mod track;

pub use track::Track;
