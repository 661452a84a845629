//! Laws of whole runs, watched or not: their steps are events as the laws of inclusive costs want them, their parts are
//! read back as the rows of these events, and so each cost of the joined profile counts every event once. Rows by
//! calling context, and by address, can be folded, and fold back to the plain ones. The functions do nothing; each says
//! by its contract what holds.
#![tactic(auto)]

mod by_address;
mod by_context;
mod costs;
mod events;
mod maps;
mod own_parts;
mod own_rows;
mod parts;

pub use by_address::{
    a_run_over_an_address_map_is_the_run_by_address, files_of_a_run_are_those_of_its_addresses,
    plain_rows_are_the_sums_of_those_by_address,
    rows_by_address_of_a_run_fold_back_to_the_plain_ones, rows_by_address_of_a_run_may_be_folded,
};
pub use by_context::{
    files_of_a_run_are_those_of_its_contexts, plain_rows_are_the_sums_of_those_by_context,
    rows_by_context_of_a_run_fold_back_to_the_plain_ones, rows_by_context_of_a_run_may_be_folded,
};
pub use costs::{
    groups_of_a_run_are_those_of_its_profile, inclusive_costs_of_a_run_count_each_event_once,
    no_sum_of_a_run_is_too_large, pair_costs_of_a_run_count_each_event_once,
    totals_of_a_run_count_all_events,
};
pub use events::steps_of_a_guest_are_its_events;
pub use maps::maps_that_tell_the_same_make_one_run;
pub use own_parts::{own_parts_are_held, own_parts_read_as_the_rows_of_the_run};
pub use own_rows::{rows_of_a_thread_are_of_its_own_events, turns_change_no_work};
pub use parts::parts_of_a_run_have_the_sums_of_its_events;
