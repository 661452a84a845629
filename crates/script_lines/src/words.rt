//! The words of a line.

use anyhow::{Context, Result};
use std::alloc::Global;
use std::{fs, str};

/// What stands before the first space, and behind it.
pub fn first_word(text: &str) -> Result<(&str, &str)> {
    text.split_once(' ').context("a word is missing")
}

/// A number in hexadecimal digits.
pub fn number(text: &str) -> Result<u32> {
    u32::from_str_radix(text, 16).context("a number")
}

/// A number in decimal digits.
pub fn decimal(text: &str) -> Result<u64> {
    text.parse::<u64>().context("a number")
}

/// The number of 64 bits that a word is, in decimal digits or in hexadecimal ones behind `0x`; 0 for what is none.
pub fn any_number(word: &str) -> u64 {
    let number = match word.strip_prefix("0x") {
        Some(digits) => u64::from_str_radix(digits, 16),
        None => u64::from_str_radix(word, 10),
    };
    number.unwrap_or(0)
}

/// The first numbers of a text, as of `any_number`; 0 for one beyond 32 bits, and where there are no more words.
pub fn small_numbers(text: &str) -> [u32; 8] {
    let mut numbers = [0; 8];
    for (place, word) in numbers.iter_mut().zip(text.split_whitespace()) {
        *place = u32::try_from(any_number(word)).unwrap_or(0);
    }
    numbers
}

/// A number of 32 bits in decimal digits.
pub fn small_decimal(text: &str) -> Result<u32> {
    u32::try_from(decimal(text)?).context("a number of 32 bits")
}

/// Numbers in decimal digits, with spaces between them.
pub fn decimals(alloc: Global, text: &str) -> Result<Vec<u64>> {
    let mut numbers = Vec::new(alloc);
    for word in text.split_whitespace() {
        numbers.push(decimal(word)?)?;
    }
    Ok(numbers)
}

/// Numbers of 32 bits in decimal digits, with spaces between them.
pub fn small_decimals(alloc: Global, text: &str) -> Result<Vec<u32>> {
    let mut numbers = Vec::new(alloc);
    for word in text.split_whitespace() {
        numbers.push(small_decimal(word)?)?;
    }
    Ok(numbers)
}

/// Bytes in hexadecimal digits, with spaces between them; a word behind a `'` is the bytes of its letters.
pub fn hex_bytes(alloc: Global, text: &str) -> Result<Vec<u8>> {
    let mut bytes = Vec::new(alloc);
    for word in text.split_whitespace() {
        match word.strip_prefix('\'') {
            Some(letters) => bytes.extend_from_slice(letters.as_bytes())?,
            None => bytes.push(u8::try_from(number(word)?).context("a byte")?)?,
        }
    }
    Ok(bytes)
}

/// The text that bytes are.
pub fn text_of(bytes: &[u8]) -> Result<&str> {
    str::from_utf8(bytes).context("a text")
}

/// The bytes of a file.
pub fn file_bytes(rt: &HostRuntime, name: &str) -> Result<Vec<u8>> {
    fs::read(rt, name).context("reading a file")
}

/// Prints bytes, which are a text, with what marks their ends and escapes.
pub fn print_quoted(rt: &HostRuntime, bytes: &[u8]) -> Result<()> {
    println!(rt; "{:?}", text_of(bytes)?)?;
    Ok(())
}
