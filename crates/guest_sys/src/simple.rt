//! Calls that look at their first argument alone, and change nothing but the caller.

ghost use Rattle.std.specs.Prelude.{◌≡◌, Some};
ghost use Rattle.guest_sys.specs.Common.{IsCaller, answers};
ghost use Rattle.guest_sys.specs.Simple.{on_stream};

use crate::caller::{Caller, EBADF, answer, refuse};
use crate::effect::Effect;
use guest_load::Guest;
use std::alloc::Global;

/// How many streams are open, from descriptor 0 on.
const STREAMS: u32 = 3;

/// The call is on a descriptor: a stream that is open has this answer.
#[tactic(auto, unfolding(crate::specs::Simple::on_stream))]
pub fn on_stream(alloc: Global, guest: &mut Guest, caller: &Caller, value: u32) -> Effect
    requires { IsCaller guest.old caller.now }
    ensures { Some (result, guest.new) ≡ answers guest.old caller.now (on_stream caller.now value) }
{
    if caller.argument(0) < STREAMS {
        return answer(alloc, guest, caller, value);
    }
    refuse(alloc, guest, caller, EBADF)
}
