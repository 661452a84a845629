//! What the scripts of tests have in common: scenes, and the words of a line.
#![tactic(auto)]

mod bytes;
mod scenes;
mod words;

pub use bytes::{Escaped, Numbers, bytes_of, file_or_bytes};
pub use scenes::{Scene, Scenes, play, play_input, play_script};
pub use words::{
    any_number, decimal, decimals, file_bytes, first_word, hex_bytes, number, print_quoted,
    small_decimal, small_decimals, small_numbers, text_of,
};
