//! The beginning and the end of threads.

ghost use Rattle.std.specs.Prelude.{◌≡◌, ◌+◌, ◌%◌, Some, OnOk, OnErr, false};
ghost use Rattle.guest_sys.specs.Kernel.{kernel_of};
ghost use Rattle.guest_sys.specs.Common.{IsCaller, argument, number, quiet_effect};
ghost use Rattle.guest_sys.specs.inner.Bodies.{Gives};
ghost use Rattle.guest_sys.specs.Taking.{CloneTakes, ExitTakes};
ghost use Rattle.guest_sys.specs.Threads.{clone, end_act, exit, has_flag, is_cleared, is_crowded};
ghost use Rattle.guest_sys.specs.Threads.{is_thread, may_tell, may_tell_both, new_thread, set_tid_address};
ghost use Rattle.guest_sys.specs.Threads.{with_number, with_thread, without_caller};

use crate::caller::{Caller, EAGAIN, EFAULT, quiet_effect, refuse, settle};
use crate::effect::{Act, Effect, SysEnd};
use byte_text::OutOfMemory;
use event_costs::{STACK_POINTER, ThreadNo};
use guest_futex::Waiters;
use guest_load::{Guest, Thread};
use guest_mem::{GuestMem, WRITE};
use std::alloc::Global;

/// The most live threads.
pub const MAX_LIVE: usize = 1024;

/// The most threads that are made.
const MAX_MADE: u32 = 65_535;

/// The register that has the thread pointer, x4.
const THREAD_POINTER: usize = 4;

/// The flags of `clone` that every new thread needs: memory, files, handlers and the process are shared.
const NEEDED_FLAGS: u32 = 0x1_0f00;
/// All flags of `clone` that are known.
const KNOWN_FLAGS: u32 = 0x17d_0f00;
/// The new thread has a thread pointer of its own.
const SETS_TLS: u32 = 0x8_0000;
/// A word of the caller's is told the number of the new thread.
const TELLS_PARENT: u32 = 0x10_0000;
/// The new thread has a clear address.
const SETS_CLEAR: u32 = 0x20_0000;
/// A word of the new thread's is told its number.
const TELLS_CHILD: u32 = 0x100_0000;

/// Whether the word at a clear address is cleared when the thread ends.
fn is_cleared(mem: &GuestMem, clear: u32) -> bool
    ensures { result ≡ is_cleared mem.now clear }
{
    clear != 0 && clear % 4 == 0 && mem.may(clear, 4, WRITE)
}

/// What the end of the caller does: the last live thread ends the process.
fn end_act(guest: &Guest, caller: &Caller) -> Act
    ensures { result ≡ end_act guest.now caller.now }
{
    if guest.threads.len() == 1 {
        return Act::ProcessEnd((caller.argument(0) % 256) as u8);
    }
    Act::ThreadEnd
}

/// The caller is no longer among the live threads.
fn remove_caller(guest: &mut Guest, caller: &Caller)
    requires { IsCaller guest.old caller.now }
    ensures { guest.new ≡ without_caller guest.old caller.now guest.old.mem }
{
    guest.threads.remove(caller.place);
}

/// exit(code): the thread is gone. Where it has a clear address, the word there is 0 and its first waiter is woken.
#[tactic(auto, unfolding(crate::specs::Threads::exit))]
pub fn exit(
    alloc: Global,
    guest: &mut Guest,
    waiters: &mut Waiters,
    caller: &Caller,
) -> Result<Effect, SysEnd>
    requires { IsCaller guest.old caller.now }
    ensures { let before = kernel_of guest.old waiters.old.waits in
        Gives (ExitTakes before caller.now) (exit before caller.now) (number caller.now) before result
        (kernel_of guest.new waiters.new.waits) }
{
    let act = end_act(guest, caller);
    let clear = caller.thread.clear;
    if !is_cleared(&guest.mem, clear) {
        remove_caller(guest, caller);
        return Ok(quiet_effect(alloc, act));
    }
    let woken = waiters.wake(clear, 1)?;
    let _cleared = guest.mem.store32(clear, 0);
    remove_caller(guest, caller);
    Ok(Effect { act, woken })
}

/// exit_group(code): the process ends, and nothing changes.
pub fn exit_group(alloc: Global, caller: &Caller) -> Effect
    ensures { result ≡ quiet_effect (Act.ProcessEnd (argument 0 caller.now % 256)) }
{
    let code = (caller.argument(0) % 256) as u8;
    quiet_effect(alloc, Act::ProcessEnd(code))
}

/// set_tid_address(p): the clear address is p; the thread's number.
pub fn set_tid_address(alloc: Global, guest: &mut Guest, caller: &Caller) -> Effect
    requires { IsCaller guest.old caller.now }
    ensures { Some (result, guest.new) ≡ set_tid_address guest.old caller.now }
{
    let mut after = caller.resume(caller.thread.no.0);
    after.clear = caller.argument(0);
    guest.threads[caller.place] = after;
    quiet_effect(alloc, Act::Answer)
}

/// Whether the call has a flag.
fn has_flag(caller: &Caller, flag: u32) -> bool
    ensures { result ≡ has_flag flag caller.now }
{
    caller.argument(0) & flag == flag
}

/// Whether flags make a thread, and all of them are known.
fn is_thread(flags: u32) -> bool
    ensures { result ≡ is_thread flags }
{
    flags & NEEDED_FLAGS == NEEDED_FLAGS && flags | KNOWN_FLAGS == KNOWN_FLAGS
}

/// Whether there can be no more threads.
fn is_crowded(guest: &Guest) -> bool
    ensures { result ≡ is_crowded guest.now }
{
    guest.threads.len() >= MAX_LIVE || guest.made >= MAX_MADE
}

/// Whether a word can be told a number, if it is to be.
fn may_tell(mem: &GuestMem, tells: bool, addr: u32) -> bool
    ensures { result ≡ may_tell tells mem.now addr }
{
    !tells || mem.may(addr, 4, WRITE)
}

/// Tells a word a number, if it is to be told.
fn tell(mem: &mut GuestMem, tells: bool, addr: u32, number: u32)
    ensures { mem.new ≡ with_number tells addr number mem.old }
{
    if tells {
        let _told = mem.store32(addr, number);
    }
}

/// The thread that the call makes, with this number.
fn new_thread(caller: &Caller, number: u32) -> Thread
    ensures { result ≡ new_thread number caller.now }
{
    let mut thread = caller.resume(0);
    thread.no = ThreadNo(number);
    let stack = caller.argument(1);
    if stack != 0 {
        thread.regs.x[STACK_POINTER] = stack;
    }
    if has_flag(caller, SETS_TLS) {
        thread.regs.x[THREAD_POINTER] = caller.argument(3);
    }
    thread.clear = if has_flag(caller, SETS_CLEAR) {
        caller.argument(4)
    } else {
        0
    };
    thread
}

/// Adds the thread that the call makes, with this number, and tells the words that are to know it.
fn add_thread(guest: &mut Guest, caller: &Caller, number: u32) -> Result<(), OutOfMemory>
    requires caller { IsCaller guest.old caller.now }
    requires next { number ≡ guest.old.made + 1 }
    requires room { is_crowded guest.old ≡ false }
    ensures ok { OnOk result (guest.new ≡ with_thread guest.old caller.now number) }
    ensures err { OnErr result (guest.new ≡ guest.old) }
{
    guest.threads.push(new_thread(caller, number))?;
    guest.made = number;
    let tells_parent = has_flag(caller, TELLS_PARENT);
    let tells_child = has_flag(caller, TELLS_CHILD);
    tell(&mut guest.mem, tells_parent, caller.argument(2), number);
    tell(&mut guest.mem, tells_child, caller.argument(4), number);
    Ok(())
}

/// clone(flags, stack, parent, tls, child): a new thread, which goes on after the call as its caller does.
#[tactic(auto, unfolding(crate::specs::Threads::clone))]
pub fn clone(alloc: Global, guest: &mut Guest, caller: &Caller) -> Result<Effect, SysEnd>
    requires { IsCaller guest.old caller.now }
    ensures { Gives (CloneTakes guest.old caller.now) (clone guest.old caller.now) (number caller.now) guest.old result
        guest.new }
{
    if !is_thread(caller.argument(0)) {
        return Err(caller.unsupported());
    }
    if is_crowded(guest) {
        return Ok(refuse(alloc, guest, caller, EAGAIN));
    }
    if !may_tell_both(guest, caller) {
        return Ok(refuse(alloc, guest, caller, EFAULT));
    }
    let number = guest.made + 1;
    add_thread(guest, caller, number)?;
    settle(guest, caller, number);
    Ok(quiet_effect(alloc, Act::Spawn(ThreadNo(number))))
}

/// Whether the words that are to know the new thread's number can be told it.
fn may_tell_both(guest: &Guest, caller: &Caller) -> bool
    ensures { result ≡ may_tell_both guest.now caller.now }
{
    let tells_parent = has_flag(caller, TELLS_PARENT);
    let tells_child = has_flag(caller, TELLS_CHILD);
    may_tell(&guest.mem, tells_parent, caller.argument(2))
        && may_tell(&guest.mem, tells_child, caller.argument(4))
}
