//! Rows by calling context: the parts of a profile in which a function is told apart by who called it; what a watch
//! keeps that counts so, as plain data, and what holds of it after every run.
#![tactic(auto)]

mod folding;
mod laws;
mod numbering;
mod ranking;
mod rows;
mod writing;

pub use contexts::{ContextRef, FuncList, context_at};
pub use folding::{fold, plain_rows, summed_rows};
pub use laws::{
    a_call_that_goes_on_may_be_made, events_stand_on_their_stacks,
    parts_have_the_rows_of_their_events, rows_are_those_of_the_events,
    rows_fold_back_to_the_plain_ones,
};
pub use rows::{CtxArc, CtxLine, CtxRows};
pub use writing::{write_by_number, write_ctx};
