//! Finds the places of addresses.

use crate::map::{BASE, map_of};
use std::alloc::Global;

/// `@FILE FUNCTIONS ROUNDS`: makes the map of the program of the file, and finds the place of each instruction of its first
/// so many functions, which have four each, so many times.
pub fn places(alloc: Global, file: &[u8], numbers: &[u32]) -> Option<u64> {
    let &[functions, rounds] = numbers else {
        return None;
    };
    let map = map_of(alloc, file)?;
    let mut sum = 0u64;
    for _ in 0..rounds {
        for k in 0..functions.wrapping_mul(4) {
            let place = map.place(BASE.wrapping_add(k.wrapping_mul(4)));
            sum = sum.wrapping_add(u64::from(place.line ^ place.func.0));
        }
    }
    Some(sum)
}
