//! Rows by instruction address, and their text: the parts of a profile in which a line's cost is split by the addresses
//! of its instructions, and an arc's by the address that it was entered from; what events add to them, and their sums
//! over addresses; what a watch keeps that counts so, as plain data, and what holds of it after every run.
#![tactic(auto)]

mod folding;
mod laws;
mod located;
mod plain;
mod row;
mod rows;
mod writing;

pub use folding::fold;
pub use laws::{
    a_call_that_goes_on_may_be_made, addresses_are_lines, parts_have_the_rows_of_their_events,
    rows_are_those_of_the_events,
};
pub use located::{located_arc, located_line};
pub use plain::plain_rows;
pub use row::AddrRow;
pub use rows::{AddrArc, AddrLine, AddrRows};
pub use writing::{write_addr, write_located};
