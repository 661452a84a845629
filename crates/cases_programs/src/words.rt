//! The words of a script.

use anyhow::Result;
use script_lines::{first_word, number};

/// Three numbers in hexadecimal digits, and what stands behind them.
pub fn three(text: &str) -> Result<([u32; 3], &str)> {
    let (one, rest) = first_word(text)?;
    let (two, rest) = first_word(rest)?;
    let (three, rest) = rest.split_once(' ').unwrap_or((rest, ""));
    Ok(([number(one)?, number(two)?, number(three)?], rest))
}

/// A byte in hexadecimal digits.
pub fn byte_of(word: &str) -> Result<u8> {
    Ok((number(word)? % 256) as u8)
}

/// The text of bytes that are one.
pub fn text(bytes: &[u8]) -> &str {
    std::str::from_utf8(bytes).unwrap_or("no text")
}

/// What the FNV-1a sum of 32 bits becomes when these bytes follow; it begins with `NO_BYTES`.
pub fn fnv(sum: u32, bytes: &[u8]) -> u32 {
    let mut sum = sum;
    for byte in bytes {
        sum = (sum ^ u32::from(*byte)).wrapping_mul(0x0100_0193);
    }
    sum
}

/// The FNV-1a sum of no bytes.
pub const NO_BYTES: u32 = 0x811c_9dc5;
