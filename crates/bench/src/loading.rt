//! Loads a program.

use elf_read::{Elf, read};
use guest_load::load;
use std::alloc::Global;

/// Loads the program so many times, and adds up its pages.
fn pages(alloc: Global, elf: &Elf<'_>, rounds: u32) -> Option<u64> {
    let mut sum = 0u64;
    for _ in 0..rounds {
        let guest = load(alloc, elf, &[], Vec::new(alloc)).ok()?;
        sum = sum.wrapping_add(u64::from(guest.mem.pages()));
    }
    Some(sum)
}

/// `@FILE ROUNDS`: loads the program of the file so many times, and adds up the pages.
pub fn programs(alloc: Global, file: &[u8], numbers: &[u32]) -> Option<u64> {
    let &[rounds] = numbers else {
        return None;
    };
    let elf = read(alloc, file).ok()?;
    pages(alloc, &elf, rounds)
}
