//! The accounts of all threads of a guest: their call stacks, and what their events have cost by line and by call arc.
#![tactic(auto)]

mod active;
mod book;
mod event_cost;
mod laws;
mod lent;
mod recorder;
mod teller;

pub use event_cost::EventCost;
pub use laws::{
    accounts_stand_for_their_entries, arcs_are_pushed, bounds_are_of_all_threads,
    events_can_be_noted, segments_sum_up, the_top_is_of_the_pc, threads_are_isolated,
};
pub use lent::Lent;
pub use recorder::{MOST_FRAMES, Recorder};
