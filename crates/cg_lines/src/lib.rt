//! Lines of profiles in the Callgrind format: what the bytes of a line say, and what may be wrong with them.
#![tactic(auto)]

mod addressed;
mod events;
mod fault;
mod front;
mod line;
mod name;
mod number;
mod parts;
mod positions;
mod sub_position;

pub use addressed::{AddressedLine, addressed_of};
pub use events::{are_distinct, event_names};
pub use fault::Fault;
pub use line::{Field, Line, line_of};
pub use name::Name;
pub use number::{Number, number_of};
pub use parts::{Parts, Words};
pub use positions::{are_two_parts, positions_fault};
pub use sub_position::{SubPosition, position_at};
