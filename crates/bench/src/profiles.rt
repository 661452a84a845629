//! Reads a profile.

use cg_read::read_file;
use std::alloc::Global;

fn sum_of(numbers: &[u64]) -> u64 {
    let mut sum = 0u64;
    for number in numbers {
        sum = sum.wrapping_add(*number);
    }
    sum
}

/// `@FILE`: reads the profile, and adds up its totals.
pub fn profile(alloc: Global, file: &[u8]) -> Option<u64> {
    let profile = read_file(alloc, file).ok()?;
    Some(sum_of(&profile.totals().ok()?.items))
}
