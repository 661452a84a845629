//! The thread that makes a system call, and how it goes on.

ghost use Rattle.std.specs.Prelude.{◌≡◌, ◌<◌, ◌≤◌, ◌-◌, ◌%◌, ◌^◌, Some};
ghost use Rattle.guest_load.specs.Lawful.{IsLawful};
ghost use Rattle.guest_sys.specs.Common.{IsCaller, argument, answers, does, error_of, number, quiet_effect};
ghost use Rattle.guest_sys.specs.Common.{refuses, resume, settle, with_caller};

use crate::effect::{Act, Effect, SysEnd};
use event_costs::Regs;
use guest_futex::ThreadList;
use guest_load::{Guest, Thread};
use std::alloc::Global;

/// The place of a system call's answer among the registers, a0. The arguments begin there.
const A0: usize = 10;

/// The place of a system call's number among the registers, a7.
const A7: usize = 17;

// Errors of system calls, by their numbers in Linux.
pub const ENOENT: u32 = 2;

pub const EBADF: u32 = 9;

pub const EAGAIN: u32 = 11;

pub const ENOMEM: u32 = 12;

pub const EFAULT: u32 = 14;

pub const EINVAL: u32 = 22;

pub const ENOTTY: u32 = 25;

pub const ESPIPE: u32 = 29;

pub const ENOSYS: u32 = 38;

/// A thread that makes a system call: its place among the live threads, and the thread as it was when it called.
#[derive(Clone, Copy, Debug)]
pub struct Caller {
    pub place: usize,
    pub thread: Thread,
}

impl Caller {
    /// The number of the call.
    pub fn number(&self) -> u32
        ensures { result ≡ number self.now }
    {
        self.thread.regs.x[A7]
    }

    /// An argument of the call, counted from 0.
    pub fn argument(&self, index: usize) -> u32
        requires { index < 6 }
        ensures { result ≡ argument index self.now }
    {
        self.thread.regs.x[A0 + index]
    }

    /// The call isn't supported.
    pub fn unsupported(&self) -> SysEnd
        ensures { result ≡ SysEnd.Unsupported (number self.now) }
    {
        SysEnd::Unsupported(self.number())
    }

    /// The caller once its call is answered.
    pub fn resume(&self, value: u32) -> Thread
        ensures { result ≡ resume self.now.thread value }
    {
        let Thread { no, regs, clear } = self.thread;
        let Regs { pc, mut x } = regs;
        x[A0] = value;
        let regs = Regs {
            pc: pc.wrapping_add(4),
            x,
        };
        Thread { no, regs, clear }
    }
}

/// An effect that wakes nobody.
pub fn quiet_effect(alloc: Global, act: Act) -> Effect
    ensures { result ≡ quiet_effect act }
{
    let items = Vec::new(alloc);
    Effect {
        act,
        woken: ThreadList { items },
    }
}

/// The caller goes on with this answer.
pub fn settle(guest: &mut Guest, caller: &Caller, value: u32)
    requires { IsCaller guest.old caller.now }
    ensures { guest.new ≡ settle guest.old caller.now value }
{
    guest.threads[caller.place] = caller.resume(value);
}

/// The call does this, and the caller goes on with this answer.
pub fn go_on(alloc: Global, guest: &mut Guest, caller: &Caller, act: Act, value: u32) -> Effect
    requires { IsCaller guest.old caller.now }
    ensures { Some (result, guest.new) ≡ does guest.old caller.now act value }
{
    settle(guest, caller, value);
    quiet_effect(alloc, act)
}

/// The call is answered, and that is all.
pub fn answer(alloc: Global, guest: &mut Guest, caller: &Caller, value: u32) -> Effect
    requires { IsCaller guest.old caller.now }
    ensures { Some (result, guest.new) ≡ answers guest.old caller.now value }
{
    go_on(alloc, guest, caller, Act::Answer, value)
}

/// What a call answers for an error: its negative, in two's complement.
pub fn error_of(errno: u32) -> u32
    requires { 1 ≤ errno }
    ensures { result ≡ error_of errno }
{
    errno.wrapping_neg()
}

/// The call is answered with an error.
pub fn refuse(alloc: Global, guest: &mut Guest, caller: &Caller, errno: u32) -> Effect
    requires caller { IsCaller guest.old caller.now }
    requires errno { 1 ≤ errno }
    ensures { Some (result, guest.new) ≡ refuses guest.old caller.now errno }
{
    answer(alloc, guest, caller, error_of(errno))
}
