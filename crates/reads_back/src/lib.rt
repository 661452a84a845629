//! What is written reads as its rows: laws over the definitions of the parts' text and of its reading. The functions do
//! nothing; each says by its contract what holds.
#![tactic(auto)]

mod joined;
mod parts;
mod traces;

pub use joined::{joined_parts_have_all_rows, one_part_more_has_its_rows, parts_are_never_refused};
pub use parts::{functions_and_files_have_their_own_texts, parts_read_as_their_rows};
pub use traces::{profiles_of_all_rows_are_read_of_the_trace, rows_of_a_run_can_be_written};
