//! Why an inclusive cost counts every event exactly once: laws over the definitions that the layers' contracts cite.
//! The functions do nothing; each says by its contract what holds.
#![tactic(auto)]

mod bounds;
mod graphs;
mod inclusive;
mod orderly;
mod profiles;
mod runs;
mod segments;

pub use bounds::sums_of_a_run_are_small;
pub use graphs::{functions_of_a_trace_are_of_the_map, rows_have_the_graph_of_the_trace};
pub use inclusive::{inclusive_costs_count_each_event_once, pair_costs_count_each_event_once};
pub use orderly::events_that_go_on_fit_the_tops;
pub use profiles::profiles_are_numbered_by_their_texts;
pub use runs::{
    costs_are_zeros_and_ones, events_of_a_machine_go_on, files_have_the_parts_of_the_trace,
    steps_of_a_run_are_a_trace,
};
pub use segments::pieces_have_the_events_of_their_threads;
