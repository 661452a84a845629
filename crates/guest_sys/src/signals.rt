//! kill, tkill and tgkill.

ghost use Rattle.std.specs.Prelude.{◌≡◌, Some};
ghost use Rattle.guest_sys.specs.Common.{IsCaller, number};
ghost use Rattle.guest_sys.specs.inner.Bodies.{Gives};
ghost use Rattle.guest_sys.specs.Signals.{is_live, kill, signal_effect, tkill, tgkill};

use crate::caller::{Caller, EINVAL, answer, quiet_effect, refuse};
use crate::effect::{Act, Effect, SysEnd};
use guest_load::Guest;
use std::alloc::Global;

/// The greatest number of a signal.
const LAST_SIGNAL: u32 = 64;

/// The guest's one process.
const PROCESS: u32 = 1;

/// The signal is sent: 0 asks only whether it could be.
fn send(alloc: Global, guest: &mut Guest, caller: &Caller, signal: u32) -> Effect
    requires { IsCaller guest.old caller.now }
    ensures { Some (result, guest.new) ≡ signal_effect guest.old caller.now signal }
{
    if signal == 0 {
        return answer(alloc, guest, caller, 0);
    }
    if signal > LAST_SIGNAL {
        return refuse(alloc, guest, caller, EINVAL);
    }
    quiet_effect(alloc, Act::Killed(signal))
}

/// Whether a live thread has the number.
fn is_live(guest: &Guest, thread: u32) -> bool
    ensures { result ≡ is_live guest.now thread }
{
    guest.threads.iter().any(|live| live.no.0 == thread)
}

/// kill(p, s): to the process, or to those of its group, which is 0.
#[tactic(auto, unfolding(crate::specs::Signals::kill))]
pub fn kill(alloc: Global, guest: &mut Guest, caller: &Caller) -> Result<Effect, SysEnd>
    requires { IsCaller guest.old caller.now }
    ensures { Gives ⊥ (kill guest.old caller.now) (number caller.now) guest.old result guest.new }
{
    if caller.argument(0) > PROCESS {
        return Err(caller.unsupported());
    }
    Ok(send(alloc, guest, caller, caller.argument(1)))
}

/// tkill(t, s): to a live thread.
#[tactic(auto, unfolding(crate::specs::Signals::tkill))]
pub fn tkill(alloc: Global, guest: &mut Guest, caller: &Caller) -> Result<Effect, SysEnd>
    requires { IsCaller guest.old caller.now }
    ensures { Gives ⊥ (tkill guest.old caller.now) (number caller.now) guest.old result guest.new }
{
    if !is_live(guest, caller.argument(0)) {
        return Err(caller.unsupported());
    }
    Ok(send(alloc, guest, caller, caller.argument(1)))
}

/// tgkill(p, t, s): to a live thread of the process.
#[tactic(auto, unfolding(crate::specs::Signals::tgkill))]
pub fn tgkill(alloc: Global, guest: &mut Guest, caller: &Caller) -> Result<Effect, SysEnd>
    requires { IsCaller guest.old caller.now }
    ensures { Gives ⊥ (tgkill guest.old caller.now) (number caller.now) guest.old result guest.new }
{
    if caller.argument(0) != PROCESS || !is_live(guest, caller.argument(1)) {
        return Err(caller.unsupported());
    }
    Ok(send(alloc, guest, caller, caller.argument(2)))
}
