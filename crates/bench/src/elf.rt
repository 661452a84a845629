//! Reads the file of a program.

use elf_read::{ElfError, read};
use std::alloc::Global;

/// How many segments were read, or the number of the one that overlaps.
fn read_sum(alloc: Global, file: &[u8]) -> u64 {
    match read(alloc, file) {
        Ok(elf) => elf.segment_count() as u64,
        Err(ElfError::Overlap(_, j)) => u64::from(j),
        Err(_) => 0,
    }
}

/// `@FILE ROUNDS`: reads the file so many times, and adds up what is told of it.
pub fn programs(alloc: Global, file: &[u8], numbers: &[u32]) -> Option<u64> {
    let &[rounds] = numbers else {
        return None;
    };
    let mut sum = 0u64;
    for _ in 0..rounds {
        sum = sum.wrapping_add(read_sum(alloc, file));
    }
    Some(sum)
}
