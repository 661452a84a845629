//! A kernel of which calls are made, whatever the script says.

ghost use Rattle.std.specs.Prelude.{◌≡◌, ◌≤◌, IsTrue, slice_index};
ghost use Rattle.guest_futex.specs.Waits.{times_waiting};
ghost use Rattle.event_costs.specs.declared.numbers.ThreadNo.{ThreadNo};
ghost use Rattle.guest_sys.specs.Kernel.{IsLive, times_live};

use crate::answer::Answer;
use crate::line::Line;
use crate::memory;
use event_costs::{Regs, STACK_POINTER, ThreadNo};
use guest_load::{Guest, Thread};
use guest_mem::GuestMem;
use guest_sys::{Effect, Kernel, SysEnd};
use std::alloc::{AllocError, Global};

/// A guest of one thread at 0x10000 with its stack, whose segments end at the break, after so many steps and so many
/// threads.
pub fn guest(
    alloc: Global,
    mem: GuestMem,
    stack: u32,
    first_break: u32,
    made: u32,
    steps: u64,
    input: Vec<u8>,
) -> Result<Guest, AllocError>
    requires some { 1 ≤ made }
    requires few { made ≤ 65535 }
    requires low { first_break ≤ 0x4000_0000 }
{
    let mut regs = Regs {
        pc: 0x10000,
        x: [0; 32],
    };
    regs.x[STACK_POINTER] = stack;
    let thread = Thread {
        no: ThreadNo(1),
        regs,
        clear: 0,
    };
    let threads = Vec::from_slice(alloc, &[thread])?;
    Ok(Guest {
        mem,
        threads,
        first_break,
        now_break: first_break,
        input,
        place: 0,
        made,
        steps,
    })
}

/// Makes a call on the memory of a guest.
pub fn in_memory(guest: &mut Guest, line: &Line) -> Answer
    ensures { (other : ThreadNo) → times_live other guest.new.threads ≡ times_live other guest.old.threads }
{
    memory::answer(&mut guest.mem, line)
}

/// The live thread of a number.
pub fn thread_of(threads: &[Thread], number: u32) -> Option<Thread> {
    let place = place_of(threads, number)?;
    threads.get(place).copied()
}

/// The place of the first live thread with the number.
fn place_of(threads: &[Thread], number: u32) -> Option<usize> {
    for (place, thread) in threads.iter().enumerate() {
        if thread.no.0 == number {
            return Some(place);
        }
    }
    None
}

/// The registers at a call: its number is in a7, its arguments are in a0 to a5.
fn registers(regs: Regs, number: u32, arguments: [u32; 6]) -> Regs
    ensures pc { result.pc ≡ regs.pc }
    ensures zero { slice_index result.x 0 ≡ slice_index regs.x 0 }
{
    let Regs { pc, mut x } = regs;
    x[17] = number;
    x[10] = arguments[0];
    x[11] = arguments[1];
    x[12] = arguments[2];
    x[13] = arguments[3];
    x[14] = arguments[4];
    x[15] = arguments[5];
    Regs { pc, x }
}

/// Gives a live thread the registers of a call.
fn prepare(guest: &mut Guest, thread: u32, number: u32, arguments: [u32; 6])
    ensures { (other : ThreadNo) → times_live other guest.new.threads ≡ times_live other guest.old.threads }
{
    let place = place_of(&guest.threads, thread).unwrap_or(0);
    if place >= guest.threads.len() {
        return;
    }
    let live = guest.threads[place];
    guest.threads[place] = Thread {
        no: live.no,
        regs: registers(live.regs, number, arguments),
        clear: live.clear,
    };
}

/// Whether a thread is live.
fn is_live(threads: &[Thread], thread: ThreadNo) -> bool
    ensures { IsTrue result → IsLive thread threads.now }
{
    threads.iter().any(|live| live.no.0 == thread.0)
}

/// Takes a thread out of those that wait, and tells whether it was one.
fn stop_waiting(kernel: &mut Kernel, thread: ThreadNo) -> bool
    ensures { times_waiting thread kernel.new.waits ≡ 0 }
{
    kernel.waiters.forget(thread)
}

/// Whether a thread of the kernel is live.
fn lives(kernel: &Kernel, thread: ThreadNo) -> bool
    ensures { IsTrue result → IsLive thread kernel.now.guest.threads }
{
    let guest = &kernel.guest;
    is_live(&guest.threads, thread)
}

/// Makes a call of a thread by its number, with its arguments. It is not made where no such thread is live, or it waits.
pub fn call(
    kernel: &mut Kernel,
    thread: u32,
    number: u32,
    arguments: [u32; 6],
) -> Option<Result<Effect, SysEnd>> {
    prepare(&mut kernel.guest, thread, number, arguments);
    let waited = stop_waiting(kernel, ThreadNo(thread));
    if waited || !lives(kernel, ThreadNo(thread)) {
        return None;
    }
    Some(kernel.call(ThreadNo(thread)))
}

/// What a register of a live thread has.
pub fn register(kernel: &Kernel, thread: u32, register: usize) -> Option<u32> {
    let thread = thread_of(&kernel.guest.threads, thread)?;
    thread.regs.x.get(register).copied()
}
