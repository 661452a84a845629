//! What a map of the symbols and lines of a file says: each line is a file and addresses, or another question. The files
//! of symbols alone are those of `data/names/model.py`, which finds the symbol of an address by a plain search; the
//! compiled `names/sums` is read as `nm -S` and `addr2line` read it. The files of `data/hostile` are made to be slow or large
//! to read, a few thousand bytes each, by `bench/hostile.c`, and what has to be printed was reckoned by how they are made.

use crate::words::{NO_BYTES, fnv, text};
use anyhow::{Context, Result};
use program_map::map_of;
use script_lines::{file_bytes, first_word, number};
use std::fmt;
use sym_map::{NearPlaces, SymMap, Way};

/// The most bytes of a text that is told whole.
const SHORT: usize = 20;

/// A text, or the front of a long one and its length.
#[derive(Clone, Copy)]
pub struct ShownText<'a>(pub &'a [u8]);

impl fmt::Display for ShownText<'_> {
    fn fmt<W: fmt::Write>(&self, f: &mut fmt::Formatter<W>) -> fmt::Result {
        match self.0.get(..SHORT) {
            Some(front) if self.0.len() > SHORT => {
                write!(f, "{}..({})", text(front), self.0.len())
            }
            _ => f.write_str(text(self.0)),
        }
    }
}

/// Tells the file and name of each address's function, its file and line, and a star where it is an entry address.
fn tell_places(rt: &HostRuntime, map: &SymMap, addresses: &str) -> Result<()> {
    for word in addresses.split_whitespace() {
        let address = number(word)?;
        let place = map.place(address);
        let home = ShownText(map.file_name(map.home(place.func)));
        let name = ShownText(map.name(place.func));
        let file = ShownText(map.file_name(place.file));
        let star = if map.is_entry(address) { "*" } else { "" };
        print!(rt; " {address:x} {home}:{name} {file}:{}{star};", place.line)?;
    }
    Ok(())
}

/// Tells the entry and its line of the function of each address.
fn tell_entries(rt: &HostRuntime, map: &SymMap, addresses: &str) -> Result<()> {
    for word in addresses.split_whitespace() {
        let func = map.place(number(word)?).func;
        let line = map.entry_line(func);
        match map.entry(func) {
            Some(entry) => print!(rt; " {entry:x}:{line}")?,
            None => print!(rt; " none:{line}")?,
        }
    }
    Ok(())
}

/// Tells the numbers of the functions of a name.
fn tell_numbers(rt: &HostRuntime, map: &SymMap, name: &str) -> Result<()> {
    for func in map.named(name)?.items {
        print!(rt; " {}", func.0)?;
    }
    Ok(())
}

/// Tells the name of the function of each address from one up to another where it is another than before, or where it is
/// an entry address, which has a star.
fn tell_each(rt: &HostRuntime, map: &SymMap, range: &str) -> Result<()> {
    let (from, to) = first_word(range)?;
    let mut last = None;
    for address in number(from)?..number(to)? {
        let func = map.place(address).func;
        let is_entry = map.is_entry(address);
        if is_entry || last != Some(func) {
            let name = ShownText(map.name(func));
            let star = if is_entry { "*" } else { "" };
            print!(rt; " {address:x} {name}{star};")?;
        }
        last = Some(func);
    }
    Ok(())
}

/// Tells the FNV-1a sum of the names and lines of so many instructions from an address on.
fn tell_sum(rt: &HostRuntime, map: &SymMap, range: &str) -> Result<()> {
    let (from, count) = first_word(range)?;
    let from = number(from)?;
    let mut sum = NO_BYTES;
    for k in 0..number(count)? {
        let place = map.place(from.wrapping_add(k.wrapping_mul(4)));
        sum = fnv(fnv(sum, map.name(place.func)), &place.line.to_le_bytes());
    }
    print!(rt; " {sum:x}")?;
    Ok(())
}

/// Tells the names of the functions of addresses that are looked up one after the other.
fn tell_near(rt: &HostRuntime, map: &SymMap, near: &mut NearPlaces, addresses: &str) -> Result<()> {
    for word in addresses.split_whitespace() {
        let place = near.place(map, number(word)?);
        print!(rt; " {}", ShownText(map.name(place.func)))?;
    }
    print!(rt; ";")?;
    Ok(())
}

/// The same of a map before anything is remembered, and then of it, of another map, and of it again.
fn tell_of_both(rt: &HostRuntime, map: &SymMap, other: &SymMap, addresses: &str) -> Result<()> {
    let mut near = NearPlaces::new(rt.alloc());
    tell_near(rt, map, &mut near, addresses)?;
    near.prepare()?;
    for each in [map, other, map] {
        tell_near(rt, each, &mut near, addresses)?;
    }
    Ok(())
}

/// Tells this of a map and of that of another file.
fn tell_all_near(rt: &HostRuntime, map: &SymMap, words: &str) -> Result<()> {
    let (name, addresses) = first_word(words)?;
    let bytes = file_bytes(rt, name)?;
    let other = map_of(rt.alloc(), &bytes)?;
    tell_of_both(rt, map, &other, addresses)
}

fn are_same(one: &Way, other: &Way) -> bool {
    one.place == other.place && one.next_func == other.next_func
}

/// Tells of a way, as `pc>next`, the function that it begins in and the one that it leads to, and whether it is found
/// without a search.
fn tell_way(rt: &HostRuntime, map: &SymMap, near: &mut NearPlaces, way: &str) -> Result<()> {
    let (pc, next) = way.split_once('>').context("two addresses")?;
    let (pc, next) = (number(pc)?, number(next)?);
    let searched = Way {
        place: map.place(pc),
        next_func: map.place(next).func,
    };
    let from = ShownText(map.name(searched.place.func));
    let to = ShownText(map.name(searched.next_func));
    print!(rt; " {pc:x}>{next:x} {from} {to}")?;
    if !are_same(&near.way(map, pc, next), &searched) || !are_same(&map.way(pc, next), &searched) {
        print!(rt; " differs")?;
    }
    if let Some(within) = map.way_within(pc, next) {
        let word = if are_same(&within, &searched) {
            "within"
        } else {
            "differs"
        };
        print!(rt; " {word}")?;
    }
    print!(rt; ";")?;
    Ok(())
}

/// Tells this of several ways.
fn tell_ways(rt: &HostRuntime, map: &SymMap, ways: &str) -> Result<()> {
    let mut near = NearPlaces::new(rt.alloc());
    near.prepare()?;
    for way in ways.split_whitespace() {
        tell_way(rt, map, &mut near, way)?;
    }
    Ok(())
}

/// Tells what is asked of a map.
fn ask_map(rt: &HostRuntime, map: &SymMap, question: &str) -> Result<()> {
    let (word, rest) = question.split_once(' ').unwrap_or((question, ""));
    match word {
        "entries" => tell_entries(rt, map, rest),
        "named" => tell_numbers(rt, map, rest),
        "each" => tell_each(rt, map, rest),
        "sum" => tell_sum(rt, map, rest),
        "near" => tell_all_near(rt, map, rest),
        "ways" => tell_ways(rt, map, rest),
        _ => tell_places(rt, map, question),
    }
}

/// Tells what is asked of the map of a file.
pub fn ask(rt: &HostRuntime, bytes: &[u8], question: &str) -> Result<()> {
    let map = map_of(rt.alloc(), bytes)?;
    ask_map(rt, &map, question)
}
