//! The words of code.

use anyhow::Result;
use script_lines::number;
use std::alloc::Global;

/// Words of four bytes in hexadecimal digits, the lowest byte first.
pub fn code_words(alloc: Global, text: &str) -> Result<Vec<u8>> {
    let mut bytes = Vec::new(alloc);
    for word in text.split(' ') {
        bytes.extend_from_slice(&number(word)?.to_le_bytes())?;
    }
    Ok(bytes)
}
