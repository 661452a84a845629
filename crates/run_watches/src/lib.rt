//! Who watches a run: one type for every kind of watch, so that a program which offers them all has one loop of a run.
#![tactic(auto)]

mod laws;
mod run_watch;

pub use laws::each_watch_is_of_its_kind;
pub use run_watch::RunWatch;
