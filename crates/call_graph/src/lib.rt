//! Which functions reach each other along call arcs, and the groups that they form.
#![tactic(auto)]

mod arc;
mod callees;
mod cyclic;
mod grouping;
mod groups;
mod pass;
mod visit_state;

pub use arc::CallArc;
pub use grouping::groups_of;
pub use groups::Groups;
