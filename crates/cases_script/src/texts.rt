//! The texts of a script: those of files, and the words of a command.

use anyhow::{Context, Result, bail};
use script_lines::{decimal, first_word, small_decimal};
use std::alloc::{AllocError, Global};

/// Puts bytes in the place of those that stand from here on.
pub fn patch(bytes: &mut Vec<u8>, place: u32, new: &[u8]) -> Result<()> {
    for (i, byte) in new.iter().enumerate() {
        match bytes.get_mut((place as usize).wrapping_add(i)) {
            Some(old) => *old = *byte,
            None => bail!("no byte stands there"),
        }
    }
    Ok(())
}

/// The number of a call that fails, with so many calls before the first one.
pub fn call(text: &str, before: usize) -> Result<u64> {
    let count = decimal(text)?;
    match count.checked_add(before as u64) {
        Some(call) => Ok(call),
        None => bail!("too many calls"),
    }
}

/// So many letters.
fn letters(alloc: Global, count: &str) -> Result<String> {
    let count = small_decimal(count)?;
    let mut word = String::new(alloc);
    for _ in 0..count {
        word.push('x')?;
    }
    Ok(word)
}

/// A text in which `~` stands for a space, and `^` for a tab.
fn spaced(alloc: Global, text: &str) -> Result<String, AllocError> {
    let mut word = String::new(alloc);
    for letter in text.chars() {
        word.push(match letter {
            '~' => ' ',
            '^' => '\t',
            other => other,
        })?;
    }
    Ok(word)
}

/// A word of a command: `%` and a number are so many letters.
fn word_of(alloc: Global, text: &str) -> Result<String> {
    match text.strip_prefix('%') {
        Some(count) => letters(alloc, count),
        None => Ok(spaced(alloc, text)?),
    }
}

/// The words of a command, the program's own name first; of an empty line that is the only one.
pub fn words_of_line(alloc: Global, line: &str) -> Result<Vec<String>> {
    let mut words = Vec::new(alloc);
    words.push(String::from_str(alloc, "cgprof")?)?;
    if !line.is_empty() {
        for word in line.split(' ') {
            words.push(word_of(alloc, word)?)?;
        }
    }
    Ok(words)
}

/// A text in which `|` stands for a line feed.
pub fn lines_of(alloc: Global, text: &str) -> Result<String, AllocError> {
    let mut lines = String::new(alloc);
    for letter in text.chars() {
        lines.push(if letter == '|' { '\n' } else { letter })?;
    }
    Ok(lines)
}

/// Adds a text for one of so many numbers, in which `#` stands for the number in six digits, `@` for the next one, and
/// for 0 behind the last, `>` for the next one that there is, and `&` for how many there are behind it.
fn push_for(text: &mut String, pattern: &str, number: u32, count: u32) -> Result<()> {
    let next = number.saturating_add(1);
    let is_last = next >= count;
    for letter in pattern.chars() {
        let value = match letter {
            '#' => number,
            '@' if is_last => 0,
            '>' if is_last => number,
            _ => next,
        };
        match letter {
            '|' => text.push('\n')?,
            '#' | '@' | '>' => write!(text, "{value:06}")?,
            '&' => write!(text, "{}", count.saturating_sub(next))?,
            other => text.push(other)?,
        }
    }
    Ok(())
}

/// How often a text is repeated, and it: what stands before the first `;` stands once.
pub fn repeated(alloc: Global, text: &str) -> Result<String> {
    let (count, text) = first_word(text)?;
    let count = small_decimal(count)?;
    let (head, pattern) = text.split_once(';').context("a `;` is missing")?;
    let mut whole = lines_of(alloc, head)?;
    for number in 0..count {
        push_for(&mut whole, pattern, number, count)?;
    }
    Ok(whole)
}
