//! Times one layer from outside: each line of the standard input is a command, `LAYER [@FILE] WORD..`, and is answered by
//! a number that depends on all that was done. The files are those of `bench/files.py`.
#![tactic(auto)]

mod cache;
mod costs;
mod decode;
mod elf;
mod lines;
mod loading;
mod map;
mod memory;
mod notes;
mod parts;
mod pattern;
mod places;
mod profiles;
mod recursion;
mod reports;
mod stacks;
mod steps;
mod turns;

use std::alloc::Global;
use std::{fs, io};

/// What a layer makes of the word and the numbers of a command.
fn number_of(alloc: Global, layer: &str, word: &str, numbers: &[u32]) -> Option<u64> {
    match layer {
        "branches" => cache::branches(alloc, word, numbers),
        "cache" => cache::references(alloc, word, numbers),
        "costs" => costs::costs(alloc, word, numbers),
        "decode" => decode::decoder(word, numbers),
        "lines" => lines::line_table(alloc, numbers),
        "memory" => memory::memory(alloc, word, numbers),
        "steps" => steps::steps(alloc, word, numbers),
        "turns" => turns::turns(alloc, numbers),
        _ => None,
    }
}

/// What a layer makes of the file of a command, its word and its numbers.
fn number_of_file(
    alloc: Global,
    layer: &str,
    file: &[u8],
    word: &str,
    numbers: &[u32],
) -> Option<u64> {
    match layer {
        "elf" => elf::programs(alloc, file, numbers),
        "load" => loading::programs(alloc, file, numbers),
        "notes" => notes::notes(alloc, file, word, numbers),
        "parts" => parts::parts(alloc, file, numbers),
        "places" => places::places(alloc, file, numbers),
        "profile" => profiles::profile(alloc, file),
        "report" => reports::reports(alloc, file, word, numbers),
        "stacks" => stacks::stacks(alloc, file, word, numbers),
        _ => None,
    }
}

/// What stands behind the layer in a command: the name of the file, if there is one, and the other words.
fn named(words: &str) -> (&str, &str) {
    match words.strip_prefix('@') {
        Some(words) => words.split_once(' ').unwrap_or((words, "")),
        None => ("", words),
    }
}

/// The numbers among the words of a command, of which there are at most four, and how many there are.
fn numbers_of(words: &str) -> Option<([u32; 4], usize)> {
    let mut numbers = [0; 4];
    let mut count = 0usize;
    for word in words.split(' ') {
        if let Ok(number) = word.parse::<u32>() {
            *numbers.get_mut(count)? = number;
            count += 1;
        }
    }
    Some((numbers, count))
}

/// The first word of a command that is no number.
fn other_of(words: &str) -> &str {
    for word in words.split(' ') {
        if word.parse::<u32>().is_err() {
            return word;
        }
    }
    ""
}

/// The number that a command comes to, whose words are a layer, perhaps a file, and then, in any order, up to four numbers
/// and another word; none where the layer doesn't know them, or memory is wanted.
fn answer(rt: &HostRuntime, command: &str) -> Option<u64> {
    let (layer, rest) = command.split_once(' ')?;
    let (file, rest) = named(rest);
    let (numbers, count) = numbers_of(rest)?;
    let numbers = numbers.get(..count)?;
    let word = other_of(rest);
    if file.is_empty() {
        return number_of(rt.alloc(), layer, word, numbers);
    }
    let file = fs::read(rt, file).ok()?;
    number_of_file(rt.alloc(), layer, &file, word, numbers)
}

fn main(rt: HostRuntime) -> io::Result<()> {
    for line in rt.lines(rt.alloc()) {
        match answer(&rt, line?.as_str()) {
            Some(number) => println!(rt; "{number}")?,
            None => return Err(io::Error::from(io::ErrorKind::InvalidInput)),
        }
    }
    Ok(())
}
