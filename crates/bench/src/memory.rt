//! Makes one call of the guest's memory many times, over 64 pages.

ghost use Rattle.std.specs.Prelude.{◌≡◌, ◌≤◌, ◌<◌, ◌^◌, ◌+◌, ◌*◌, ◌%◌};

use guest_mem::{EXECUTE, GuestMem, READ, WRITE};
use std::alloc::Global;

/// Where the pages begin.
const FIRST: u32 = 0x1_0000;
/// How many there are.
const PAGES: u32 = 64;

/// The place of a call: a step of seven words through the pages.
fn address_of(round: u64) -> u32 {
    FIRST + ((round % 65_536 * 7 % 65_536) * 4) as u32
}

// Each loop is called, so that it has the registers to itself.
#[inline(never)]
fn fetches(memory: &GuestMem, rounds: u64) -> u32 {
    let mut sum = 0u32;
    for round in 0..rounds {
        sum = sum.wrapping_add(memory.fetch(address_of(round)).unwrap_or(1));
    }
    sum
}

#[inline(never)]
fn loads(memory: &GuestMem, rounds: u64) -> u32 {
    let mut sum = 0u32;
    for round in 0..rounds {
        sum = sum.wrapping_add(memory.load32(address_of(round)).unwrap_or(1));
    }
    sum
}

#[inline(never)]
fn stores(memory: &mut GuestMem, rounds: u64) -> u32 {
    let mut sum = 0u32;
    for round in 0..rounds {
        let value = (round % 65_536) as u32;
        if memory.store32(address_of(round), value).is_ok() {
            sum = sum.wrapping_add(value);
        }
    }
    sum
}

#[inline(never)]
fn empty_rounds(rounds: u64) -> u32 {
    let mut sum = 0u32;
    for round in 0..rounds {
        sum = sum.wrapping_add(address_of(round));
    }
    sum
}

fn sum(memory: &mut GuestMem, call: &str, rounds: u64) -> Option<u32> {
    match call {
        "fetch" => Some(fetches(memory, rounds)),
        "load32" => Some(loads(memory, rounds)),
        "store32" => Some(stores(memory, rounds)),
        "none" => Some(empty_rounds(rounds)),
        _ => None,
    }
}

/// So many pages from this address on, all of whose bytes are 0.
pub fn pages(alloc: Global, first: u32, count: u32, permission: u8) -> Option<GuestMem>
    requires aligned { first % 4096 ≡ 0 }
    requires within { first + count * 4096 ≤ 2 ^ 32 }
    requires permission { permission < 8 }
{
    let mut memory = GuestMem::new(alloc);
    memory.map(first, count, permission).ok()?;
    Some(memory)
}

/// `CALL ROUNDS`: CALL is `fetch`, `load32`, `store32` or `none`.
pub fn memory(alloc: Global, call: &str, numbers: &[u32]) -> Option<u64> {
    let &[rounds] = numbers else {
        return None;
    };
    let mut memory = pages(alloc, FIRST, PAGES, READ | WRITE | EXECUTE)?;
    sum(&mut memory, call, u64::from(rounds)).map(u64::from)
}
