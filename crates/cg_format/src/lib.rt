//! The text of a part of a profile, in Callgrind's format.
#![tactic(auto)]

mod file_key;
mod head;
mod heading;
mod ids;
mod naming;
mod part;
mod row;
mod sums;
mod trigger;
mod writer;

pub use file_key::FileKey;
pub use head::PartHead;
pub use heading::{put_description, put_identity, put_summary, put_totals};
pub use naming::Naming;
pub use part::{put_place, write_named, write_part};
pub use row::Row;
pub use sums::sum_of_lines;
pub use trigger::Trigger;
pub use writer::Writer;
