//! The clock and the random bytes.

ghost use Rattle.std.specs.Prelude.{◌≡◌, ◌≤◌, Some, OnErr, is_ok};
ghost use Rattle.guest_mem.specs.Memory.{may, store_at};
ghost use Rattle.guest_sys.specs.Common.{IsCaller};
ghost use Rattle.guest_sys.specs.Clock.{clock_gettime, getrandom, time_of};
ghost use Rattle.guest_sys.specs.Vectors.{addresses_from};

use crate::caller::{Caller, EFAULT, answer, refuse};
use crate::effect::Effect;
use guest_load::Guest;
use guest_mem::{Access, GuestMem};
use std::alloc::Global;

/// A step counts as a nanosecond, and so many are a second.
const SECOND: u64 = 1_000_000_000;

/// The most bytes that one call of `getrandom` gives.
const RANDOM_LIMIT: u32 = 256;

/// Seconds and nanoseconds, 64 bits each, after so many steps.
fn time_of(steps: u64) -> [u8; 16]
    ensures { result ≡ time_of steps }
{
    let mut bytes = [0; 16];
    bytes[..8].copy_from_slice(&(steps / SECOND).to_le_bytes());
    bytes[8..].copy_from_slice(&(steps % SECOND).to_le_bytes());
    bytes
}

/// clock_gettime64(id, p): the time goes to p.
#[tactic(auto, unfolding(crate::specs::Clock::clock_gettime))]
pub fn clock_gettime(alloc: Global, guest: &mut Guest, caller: &Caller) -> Effect
    requires { IsCaller guest.old caller.now }
    ensures { Some (result, guest.new) ≡ clock_gettime guest.old caller.now }
{
    let time = time_of(guest.steps);
    match guest.mem.copy_in(caller.argument(1), &time) {
        Ok(()) => answer(alloc, guest, caller, 0),
        Err(Access) => refuse(alloc, guest, caller, EFAULT),
    }
}

/// The bytes from 0 to 255.
fn random_bytes() -> [u8; 256]
    ensures { result ≡ addresses_from 0 256 }
{
    let mut bytes = [0; 256];
    'bytes: for place in 0..256 {
        bytes[place] = place as u8;
    }
    bytes
}

/// Stores the first bytes of these from an address on.
fn put_random(mem: &mut GuestMem, addr: u32, count: u32) -> Result<(), Access>
    requires { count ≤ 256 }
    ensures allowed { is_ok result ≡ may mem.old 2 addr count }
    ensures after { mem.new ≡ store_at mem.old addr (addresses_from 0 count) }
    ensures refused { OnErr result (mem.new ≡ mem.old) }
{
    let bytes = random_bytes();
    mem.copy_in(addr, &bytes[..count as usize])
}

/// getrandom(buf, n, flags): the bytes 0, 1, 2 and so on, at most 256, go to buf.
#[tactic(auto, unfolding(crate::specs::Clock::getrandom))]
pub fn getrandom(alloc: Global, guest: &mut Guest, caller: &Caller) -> Effect
    requires { IsCaller guest.old caller.now }
    ensures { Some (result, guest.new) ≡ getrandom guest.old caller.now }
{
    let count = caller.argument(1).min(RANDOM_LIMIT);
    match put_random(&mut guest.mem, caller.argument(0), count) {
        Ok(()) => answer(alloc, guest, caller, count),
        Err(Access) => refuse(alloc, guest, caller, EFAULT),
    }
}
