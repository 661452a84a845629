//! Costs by instruction address: the watch that counts them, rows and their sums over addresses, their text, and the
//! reading of files whose positions have an address in front.
#![tactic(auto)]

pub use addr_costs::AddrCosts;
pub use addr_rows::{AddrArc, AddrLine, AddrRows, fold, write_addr};
pub use cg_read::{AddrProfile, is_addr_file, read_addr_file as read_file};
