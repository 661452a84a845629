//! The guest's memory: pages of 4,096 bytes with a permission, which contracts see as one finite map
//! from addresses to a byte and a permission.
#![tactic(auto)]

mod byte_ranges;
mod directory;
mod error;
mod memory;
mod page;
mod spare;
mod table;

pub use error::{Access, CopyError, MapError};
pub use memory::{GuestMem, MAX_PAGES};
pub use page::{EXECUTE, PAGE_BYTES, READ, WRITE};
