//! What a report on a profile shows: its rows by function, group, file and place, with their sums, and the order of
//! functions and groups.
#![tactic(auto)]

mod entries;
mod lists;
mod options;
mod order;
mod sums;

pub use entries::{By, End, Entry, by_place, into_list, lists_of, self_entries};
pub use lists::{call_lists, file_lists, totals};
pub use options::{ReportOptions, Tree};
pub use order::{Sequence, groups_shown, ordered};
pub use sums::{Sum, sum_of};
