//! A watch of a run that counts by instruction address.
#![tactic(auto)]

mod placing;
mod texts;
mod watch;

pub use addr_rows::fold;
pub use texts::AddrTexts;
pub use watch::AddrCosts;
