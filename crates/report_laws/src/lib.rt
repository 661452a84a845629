//! Laws of reports on runs: one that is made on the parts of a run counts every event once. It doesn't show how costs
//! are split into rows, and so not whether they are counted by address. The functions do nothing; each says by its
//! contract what holds.
#![tactic(auto)]

mod any_order;
mod chosen;
mod exact;
mod maps;
mod own_parts_by_address;
mod parts_by_address;
mod parts_by_context;
mod reports;
mod runs_by_address;
mod sums;

pub use any_order::files_in_any_order_have_one_report;
pub use chosen::inclusive_costs_of_some_parts_count_each_event_once;
pub use exact::a_run_reported_from_its_own_parts_is_exact;
pub use maps::maps_that_tell_the_same_make_one_report;
pub use own_parts_by_address::own_parts_by_address_stand_for_the_rows_of_the_run;
pub use parts_by_address::parts_by_address_read_as_their_rows;
pub use parts_by_context::inclusive_costs_by_context_count_each_event_once;
pub use reports::{
    a_profile_has_one_report, a_run_has_one_report, reports_on_a_run_count_each_event_once,
};
pub use runs_by_address::rows_by_address_of_a_run_can_be_written;
pub use sums::reports_follow_from_sums;
