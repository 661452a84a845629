//! The lines of a script.

use script_lines::{any_number, small_numbers};

/// A line of a scene.
#[derive(Clone, Copy)]
pub struct Line<'a> {
    /// The first word, which says what the line is.
    pub word: &'a str,
    /// What stands behind it.
    pub rest: &'a str,
    /// The numbers there, one for each word; 0 for what is none, and where there are no more words.
    pub numbers: [u32; 8],
}

impl<'a> Line<'a> {
    pub fn new(text: &'a str) -> Line<'a> {
        let (word, rest) = text.split_once(' ').unwrap_or((text, ""));
        Line {
            word,
            rest,
            numbers: small_numbers(rest),
        }
    }
}

/// The number that a word is, or 0.
pub fn number(word: &str) -> u32 {
    u32::try_from(any_number(word)).unwrap_or(0)
}

/// The last byte of a number.
pub fn low_byte(number: u32) -> u8 {
    (number % 256) as u8
}
