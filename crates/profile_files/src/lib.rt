//! Profile files, loaded from a folder, read and joined in their order.
#![tactic(auto)]

mod fault;
mod reading;
mod wanted;

pub use fault::ReadFault;
pub use reading::read_profiles;
pub use wanted::{WantedFile, with_limit};
