//! futex: waiting at words of memory.

ghost use Rattle.std.specs.Prelude.{◌≡◌, ◌<◌, length};
ghost use Rattle.guest_mem.specs.Memory.{load_at};
ghost use Rattle.guest_futex.specs.Waits.{times_waiting};
ghost use Rattle.guest_sys.specs.Kernel.{kernel_of};
ghost use Rattle.guest_sys.specs.Common.{IsCaller, argument, number};
ghost use Rattle.guest_sys.specs.inner.Bodies.{Gives};
ghost use Rattle.guest_sys.specs.Futexes.{operation_of, futex, on_words, performs, waits_on};
ghost use Rattle.guest_sys.specs.Taking.{FutexTakes, WaitTakes, WakeTakes};

use crate::caller::{Caller, EAGAIN, EFAULT, EINVAL, quiet_effect, refuse, settle};
use crate::effect::{Act, Effect, SysEnd};
use guest_futex::Waiters;
use guest_load::Guest;
use std::alloc::Global;

/// What a call of `futex` asks for.
#[derive(Clone, Copy, Debug, PartialEq, Eq)]
pub enum Operation {
    /// The caller waits.
    Wait,
    /// Waiters are woken.
    Wake,
    /// Waiters are woken, and others are moved to another word.
    Requeue,
}

/// The flags private and realtime clock, which are passed over.
const PASSED_OVER: u32 = 128 | 256;

// The operations, by their numbers in Linux.
const FUTEX_WAIT: u32 = 0;

const FUTEX_WAKE: u32 = 1;

const FUTEX_REQUEUE: u32 = 3;

const FUTEX_WAIT_BITSET: u32 = 9;

const FUTEX_WAKE_BITSET: u32 = 10;

/// What the call asks for, if it is named so: a wait has no timeout, and a bitset names every bit.
fn operation_of(caller: &Caller) -> Option<Operation>
    ensures { result ≡ operation_of caller.now }
{
    let no_timeout = caller.argument(3) == 0;
    let any_bit = caller.argument(5) == u32::MAX;
    match caller.argument(1) & !PASSED_OVER {
        FUTEX_WAIT if no_timeout => Some(Operation::Wait),
        FUTEX_WAKE => Some(Operation::Wake),
        FUTEX_REQUEUE => Some(Operation::Requeue),
        FUTEX_WAIT_BITSET if no_timeout && any_bit => Some(Operation::Wait),
        FUTEX_WAKE_BITSET if any_bit => Some(Operation::Wake),
        _ => None,
    }
}

/// Whether each address of the operation is that of a word.
fn on_words(operation: Operation, caller: &Caller) -> bool
    ensures { result ≡ on_words operation caller.now }
{
    match operation {
        Operation::Wait | Operation::Wake => caller.argument(0) % 4 == 0,
        Operation::Requeue => caller.argument(0) % 4 == 0 && caller.argument(4) % 4 == 0,
    }
}

/// The caller waits, where the word has the value that it expects.
fn wait(
    alloc: Global,
    guest: &mut Guest,
    waiters: &mut Waiters,
    caller: &Caller,
) -> Result<Effect, SysEnd>
    requires caller { IsCaller guest.old caller.now }
    requires apart { times_waiting caller.now.thread.no waiters.old.waits ≡ 0 }
    requires few { length waiters.old.waits < 65535 }
    ensures { let before = kernel_of guest.old waiters.old.waits in
        Gives (WaitTakes before caller.now)
        (waits_on before caller.now (load_at guest.old.mem 1 (argument 0 caller.now) 4)) (number caller.now) before
        result (kernel_of guest.new waiters.new.waits) }
{
    let addr = caller.argument(0);
    let Ok(word) = guest.mem.load32(addr) else {
        return Ok(refuse(alloc, guest, caller, EFAULT));
    };
    if word != caller.argument(2) {
        return Ok(refuse(alloc, guest, caller, EAGAIN));
    }
    waiters.reserve()?;
    waiters.wait(caller.thread.no, addr);
    settle(guest, caller, 0);
    Ok(quiet_effect(alloc, Act::Wait(addr)))
}

/// Waiters are woken; their number is the answer.
fn wake(guest: &mut Guest, waiters: &mut Waiters, caller: &Caller) -> Result<Effect, SysEnd>
    requires { IsCaller guest.old caller.now }
    ensures { let before = kernel_of guest.old waiters.old.waits in
        Gives (WakeTakes before (argument 0 caller.now) (argument 2 caller.now)) (performs Operation.Wake before caller.now)
        (number caller.now) before result (kernel_of guest.new waiters.new.waits) }
{
    let woken = waiters.wake(caller.argument(0), caller.argument(2))?;
    settle(guest, caller, woken.items.len() as u32);
    Ok(Effect {
        act: Act::Answer,
        woken,
    })
}

/// Waiters are woken, and others are moved to another word.
fn requeue(guest: &mut Guest, waiters: &mut Waiters, caller: &Caller) -> Result<Effect, SysEnd>
    requires { IsCaller guest.old caller.now }
    ensures { let before = kernel_of guest.old waiters.old.waits in
        Gives (WakeTakes before (argument 0 caller.now) (argument 2 caller.now)) (performs Operation.Requeue before caller.now)
        (number caller.now) before result (kernel_of guest.new waiters.new.waits) }
{
    let addr = caller.argument(0);
    let woken = waiters.wake(addr, caller.argument(2))?;
    waiters.requeue(addr, caller.argument(3), caller.argument(4));
    settle(guest, caller, woken.items.len() as u32);
    Ok(Effect {
        act: Act::Answer,
        woken,
    })
}

/// futex(addr, op, val, a3, addr2, val3): waiting at words of memory.
#[tactic(auto, unfolding(crate::specs::Futexes::futex))]
pub fn futex(
    alloc: Global,
    guest: &mut Guest,
    waiters: &mut Waiters,
    caller: &Caller,
) -> Result<Effect, SysEnd>
    requires caller { IsCaller guest.old caller.now }
    requires apart { times_waiting caller.now.thread.no waiters.old.waits ≡ 0 }
    requires few { length waiters.old.waits < 65535 }
    ensures { let before = kernel_of guest.old waiters.old.waits in
        Gives (FutexTakes (operation_of caller.now) before caller.now) (futex before caller.now) (number caller.now) before
        result (kernel_of guest.new waiters.new.waits) }
{
    let Some(operation) = operation_of(caller) else {
        return Err(caller.unsupported());
    };
    if !on_words(operation, caller) {
        return Ok(refuse(alloc, guest, caller, EINVAL));
    }
    match operation {
        Operation::Wait => wait(alloc, guest, waiters, caller),
        Operation::Wake => wake(guest, waiters, caller),
        Operation::Requeue => requeue(guest, waiters, caller),
    }
}
