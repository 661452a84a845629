//! The call stacks of the guest's threads, as calls, returns and jumps between functions show them.
#![tactic(auto)]

mod arena;
mod changing;
mod closing;
mod cutting;
mod frame;
mod held;
mod reading;
mod stack;

pub use arena::{Arena, Head};
pub use changing::goes_on;
pub use frame::{Frame, Kind};
pub use held::Held;
pub use reading::{frame_at, top_of};
pub use stack::ShadowStack;
