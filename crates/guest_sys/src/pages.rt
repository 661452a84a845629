//! The break, and the mapping of pages.

ghost use Rattle.std.specs.Prelude.{◌≡◌, ℕ, ◌+◌, ◌*◌, ◌≤◌, ◌<◌, ◌^◌, not, IfSome, Some};
ghost use Rattle.guest_mem.specs.Memory.{page_mapped};
ghost use Rattle.guest_sys.specs.Common.{IsCaller, argument, number};
ghost use Rattle.guest_sys.specs.inner.Bodies.{Gives};
ghost use Rattle.guest_sys.specs.Pages.{brk, break_moved, is_range, lowest_free, maps};
ghost use Rattle.guest_sys.specs.Pages.{mmap, mprotect, munmap, page_end, pages_for};
ghost use Rattle.guest_sys.specs.Taking.{BreakTakes, GrowthTakes, MapTakes, place_for};

use crate::caller::{Caller, EINVAL, ENOMEM, answer, refuse};
use crate::effect::{Effect, SysEnd};
use event_costs::ADDRESSES;
use guest_load::Guest;
use guest_mem::{GuestMem, MapError, READ, WRITE};
use std::alloc::Global;

/// The bytes of a page.
const PAGE: u32 = 4096;

/// The break is at most this address. Mappings begin there.
const MAP_START: u32 = 0x4000_0000;

/// Mappings end at most at this address.
const MAP_END: u32 = 0x7f00_0000;

/// All permissions: to read, to write and to execute.
const PERMISSIONS: u32 = 8;

/// How many pages so many bytes touch, from the start of a page on.
fn pages_for(bytes: u32) -> u32
    ensures value { result ≡ pages_for bytes }
    ensures bound { result ≤ 2 ^ 20 }
    ensures some { 1 ≤ bytes → 1 ≤ result }
{
    bytes.div_ceil(PAGE)
}

/// brk(a): the break is a, where a is in bounds and there are pages for it.
#[tactic(auto, unfolding(crate::specs::Pages::brk))]
pub fn brk(alloc: Global, guest: &mut Guest, caller: &Caller) -> Result<Effect, SysEnd>
    requires { IsCaller guest.old caller.now }
    ensures { Gives (BreakTakes guest.old (argument 0 caller.now)) (brk guest.old caller.now) (number caller.now)
        guest.old result guest.new }
{
    let wanted = caller.argument(0);
    if wanted < guest.first_break || wanted > MAP_START {
        let now = guest.now_break;
        return Ok(answer(alloc, guest, caller, now));
    }
    move_break(alloc, guest, caller, wanted)
}

/// Moves the break to an address in its bounds.
fn move_break(
    alloc: Global,
    guest: &mut Guest,
    caller: &Caller,
    wanted: u32,
) -> Result<Effect, SysEnd>
    requires caller { IsCaller guest.old caller.now }
    requires above { guest.old.first_break ≤ wanted }
    requires below { wanted ≤ 0x4000_0000 }
    ensures { Gives (GrowthTakes guest.old wanted) (break_moved guest.old caller.now wanted) (number caller.now)
        guest.old result guest.new }
{
    let old = pages_for(guest.now_break);
    let new = pages_for(wanted);
    if old >= new {
        guest.mem.unmap(new * PAGE, old - new);
        guest.now_break = wanted;
        return Ok(answer(alloc, guest, caller, wanted));
    }
    match guest.mem.map(old * PAGE, new - old, READ | WRITE) {
        Ok(()) => {
            guest.now_break = wanted;
            Ok(answer(alloc, guest, caller, wanted))
        }
        Err(MapError::Full) => {
            let now = guest.now_break;
            Ok(answer(alloc, guest, caller, now))
        }
        Err(MapError::OutOfMemory(refused)) => Err(SysEnd::OutOfMemory(refused)),
    }
}

/// Whether a range of bytes begins at a page and ends at most at 2^32.
fn is_range(start: u32, len: u32) -> bool
    ensures { result ≡ is_range start len }
{
    start % PAGE == 0 && u64::from(start) + u64::from(len) <= ADDRESSES
}

/// munmap(a, n): the pages that the range touches are unmapped.
#[tactic(auto, unfolding(crate::specs::Pages::munmap))]
pub fn munmap(alloc: Global, guest: &mut Guest, caller: &Caller) -> Effect
    requires { IsCaller guest.old caller.now }
    ensures { Some (result, guest.new) ≡ munmap guest.old caller.now }
{
    let start = caller.argument(0);
    let len = caller.argument(1);
    if !is_range(start, len) || len == 0 {
        return refuse(alloc, guest, caller, EINVAL);
    }
    guest.mem.unmap(start, pages_for(len));
    answer(alloc, guest, caller, 0)
}

/// mprotect(a, n, prot): the pages that the range touches, all of them mapped, get the permission.
#[tactic(auto, unfolding(crate::specs::Pages::mprotect))]
pub fn mprotect(alloc: Global, guest: &mut Guest, caller: &Caller) -> Effect
    requires { IsCaller guest.old caller.now }
    ensures { Some (result, guest.new) ≡ mprotect guest.old caller.now }
{
    let start = caller.argument(0);
    let len = caller.argument(1);
    if !is_range(start, len) {
        return refuse(alloc, guest, caller, EINVAL);
    }
    let pages = pages_for(len);
    if !guest.mem.mapped(start, pages) {
        return refuse(alloc, guest, caller, ENOMEM);
    }
    let permission = (caller.argument(2) % PERMISSIONS) as u8;
    guest.mem.protect(start, pages, permission);
    answer(alloc, guest, caller, 0)
}

/// The flags of a mapping that are looked at: shared, private, fixed and anonymous.
const MAP_FLAGS: u32 = 0x33;

/// A mapping that is private (0x02) and anonymous (0x20), and neither shared (0x01) nor fixed (0x10).
const MAP_PRIVATE: u32 = 0x22;

/// mmap(a, n, prot, flags, fd, off): the lowest free range of whole pages is mapped as zeros.
#[tactic(auto, unfolding(crate::specs::Pages::mmap))]
pub fn mmap(alloc: Global, guest: &mut Guest, caller: &Caller) -> Result<Effect, SysEnd>
    requires { IsCaller guest.old caller.now }
    ensures { Gives (MapTakes guest.old caller.now (place_for guest.old caller.now)) (mmap guest.old caller.now)
        (number caller.now) guest.old result guest.new }
{
    if caller.argument(3) & MAP_FLAGS != MAP_PRIVATE {
        return Err(caller.unsupported());
    }
    let len = caller.argument(1);
    if len == 0 {
        return Ok(refuse(alloc, guest, caller, EINVAL));
    }
    let place = lowest_free(&guest.mem, pages_for(len));
    map_at(alloc, guest, caller, place)
}

/// Maps the pages that were asked for from this one on, if there is room.
fn map_at(
    alloc: Global,
    guest: &mut Guest,
    caller: &Caller,
    place: Option<u32>,
) -> Result<Effect, SysEnd>
    requires caller { IsCaller guest.old caller.now }
    requires within { IfSome place (λ page. page + pages_for (argument 1 caller.now) ≤ 0x7f000) }
    ensures { Gives (MapTakes guest.old caller.now place) (maps guest.old caller.now place) (number caller.now)
        guest.old result guest.new }
{
    let Some(page) = place else {
        return Ok(refuse(alloc, guest, caller, ENOMEM));
    };
    let start = page * PAGE;
    let pages = pages_for(caller.argument(1));
    let permission = (caller.argument(2) % PERMISSIONS) as u8;
    match guest.mem.map(start, pages, permission) {
        Ok(()) => Ok(answer(alloc, guest, caller, start)),
        Err(MapError::Full) => Ok(refuse(alloc, guest, caller, ENOMEM)),
        Err(MapError::OutOfMemory(refused)) => Err(SysEnd::OutOfMemory(refused)),
    }
}

/// The first page of mappings.
const FIRST_PAGE: u32 = MAP_START / PAGE;

/// The page at which mappings end.
const LAST_PAGE: u32 = MAP_END / PAGE;

/// The lowest page from which so many pages are free, where mappings may be.
fn lowest_free(mem: &GuestMem, pages: u32) -> Option<u32>
    requires some { 1 ≤ pages }
    requires bound { pages ≤ 2 ^ 20 }
    ensures lowest { result ≡ lowest_free mem.now pages }
    ensures within { IfSome result (λ page. page + pages ≤ 0x7f000) }
{
    let past = mem.past_gaps(FIRST_PAGE, LAST_PAGE, pages);
    let mut start = mem.first_free(past, LAST_PAGE);
    'places: while pages <= LAST_PAGE - start {
        let end = start + pages;
        let taken = mem.first_mapped(start, end);
        if taken == end {
            return Some(start);
        }
        start = mem.first_free(taken + 1, LAST_PAGE);
    }
    None
}
