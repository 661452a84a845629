//! Loading: the guest's first state.

ghost use Rattle.std.specs.Prelude.{◌≡◌, ◌<◌, ◌≤◌, ◌↔◌, ℕ, map, string_bytes, IfOk, OnOk};
ghost use Rattle.std.specs.List.{All};
ghost use Rattle.guest_mem.specs.Memory.{page_limit};
ghost use Rattle.guest_load.specs.Arguments.{NeedsTooMany};
ghost use Rattle.guest_load.specs.First.{thread_at, guest_at_start, HasItsBytes};
ghost use Rattle.guest_load.specs.Lawful.{IsLawful};
ghost use Rattle.guest_load.specs.Segments.{pages_of};
ghost use Rattle.guest_load.specs.Stack.{IsInOrder, HoldsStack};

use crate::arguments::{MAX_ARGUMENTS, arguments_len};
use crate::error::GuestError;
use crate::guest::Guest;
use crate::segments::{first_break, map_segments, put_segments, segments_of};
use crate::stack::put_stack;
use crate::thread::Thread;
use elf_read::Elf;
use event_costs::{Regs, STACK_POINTER, ThreadNo};
use std::alloc::Global;

/// The thread that a program begins with.
fn first_thread(entry: u32, pointer: u32) -> Thread
    ensures { result ≡ thread_at entry pointer }
{
    let mut x = [0; 32];
    x[STACK_POINTER] = pointer;
    Thread {
        no: ThreadNo(1),
        regs: Regs { pc: entry, x },
        clear: 0,
    }
}

/// Loads a program with its arguments, of which the first is its name, and its input.
///
/// # Errors
///
/// `ArgsTooLong` where the arguments, each with a zero byte, need more than 65,536 bytes; this is looked at first.
/// `Full` where the program has more than 65,536 pages, those of its stack among them.
pub fn load(
    alloc: Global,
    elf: &Elf<'_>,
    args: &[String],
    input: Vec<u8>,
) -> Result<Guest, GuestError>
    ensures first { IfOk result (λ guest. guest ≡ guest_at_start elf.now (map string_bytes args.now) input.items) }
    ensures segments { IfOk result (λ guest. All (HasItsBytes elf.now.bytes guest.mem) elf.now.segments) }
    ensures stack { IfOk result (λ guest. HoldsStack elf.now (map string_bytes args.now) guest.mem) }
    ensures in_order { OnOk result (IsInOrder elf.now (map string_bytes args.now)) }
    ensures lawful { IfOk result IsLawful }
    ensures args_too_long { (len : ℕ)
        → (result ≡ Err (GuestError.ArgsTooLong len)) ↔ NeedsTooMany (map string_bytes args.now) len }
    ensures full { result ≡ Err GuestError.Full → page_limit < pages_of elf.now }
    ensures fits { OnOk result (pages_of elf.now ≤ page_limit) }
{
    let needed = arguments_len(args);
    if needed > MAX_ARGUMENTS {
        return Err(GuestError::ArgsTooLong(needed));
    }
    let segments = segments_of(alloc, elf)?;
    let first_break = first_break(&segments);
    let mut mem = map_segments(alloc, &segments, first_break)?;
    put_segments(&mut mem, elf.file(), &segments);
    let pointer = put_stack(alloc, &mut mem, elf, args, needed as u32)?;
    let threads = Vec::from_slice(alloc, &[first_thread(elf.entry(), pointer)])?;
    Ok(Guest {
        mem,
        threads,
        first_break,
        now_break: first_break,
        input,
        place: 0,
        made: 1,
        steps: 0,
    })
}
