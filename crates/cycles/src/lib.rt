//! Groups of functions that reach each other in a profile, and their inclusive costs.
#![tactic(auto)]

mod arcs;
mod cost_sums;
mod error;
mod finding;
mod including;
mod pairs;
mod sums;

pub use call_graph::Groups;
pub use error::InclError;
pub use finding::groups;
pub use including::inclusive;
