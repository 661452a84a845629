//! The costs of lines and arcs, summed up in tables.
#![tactic(auto)]

mod amount;
mod amount_tree;
mod digits;
mod key_tree;
mod listing;
mod merging;
mod near_arcs;
mod near_rows;
mod row_ref;
mod rows;
mod sorting;
mod table;
mod tables;
mod total;

pub use digits::{Digits, digit_of, spread};
pub use key_tree::KeyTree;
pub use near_rows::NearRows;
pub use rows::{ArcRow, LineRow, TableRows};
pub use tables::Tables;
pub use total::Total;
