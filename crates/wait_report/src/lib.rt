//! What waiting costs: the waits of each thread at each futex word, what passed meanwhile, and who ended them.
#![tactic(auto)]

mod books;
mod laws;
mod rows;
mod tally;
mod waits;
mod writing;

pub use laws::{sums_of_all_rows_fit, what_is_kept_stands_for_the_run, who_waits_makes_no_step};
pub use rows::{WaitRow, WaitRows, Waker, WakerList};
pub use waits::Waits;
pub use writing::write_waits;
