//! The function, the file and the line of every address of a program.
#![tactic(auto)]

mod building;
mod candidate;
mod cut;
mod entries;
mod function;
mod function_numbers;
mod functions;
mod known_ranges;
mod laws;
mod limit;
mod lines;
mod merge;
mod nameless;
mod near_places;
mod pile;
mod place_index;
mod range;
mod ranked;
mod row_pile;
mod symbol_map;
mod symbol_span;
mod symbols;

pub use building::build;
pub use laws::maps_are_sound;
pub use near_places::NearPlaces;
pub use symbol_map::{SymMap, Way};
