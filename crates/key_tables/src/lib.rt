//! Keys by numbers: tables that number them in the order in which they came, what a list gains from another, and texts by
//! their ranks.
#![tactic(auto)]

mod index;
mod mixed;
mod ranks;
mod table;
mod text_keys;

pub use index::{Index, KeyGain};
pub use ranks::text_ranks;
pub use table::{Key, Table};
pub use text_keys::{TextKey, TextKeys};
