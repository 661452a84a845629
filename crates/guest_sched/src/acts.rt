//! What a system call means for the turn of its caller.

ghost use Rattle.std.specs.Prelude.{◌≡◌};
ghost use Rattle.std.specs.Option.{option_to_list};
ghost use Rattle.guest_sys.specs.Laws.{spawned_by};
ghost use Rattle.guest_sched.specs.Step.{ends_thread, exit_of, fate_of, signal_of, wait_of};

use crate::turns::Fate;
use event_costs::ThreadNo;
use guest_sys::Act;

/// What becomes of the caller.
pub fn fate_of(act: &Act) -> Fate
    ensures { result ≡ fate_of act.now }
{
    match act {
        Act::Yield => Fate::Yields,
        Act::Wait(_) | Act::ThreadEnd | Act::ProcessEnd(_) => Fate::Leaves,
        Act::Answer | Act::Spawn(_) | Act::Output(..) | Act::Killed(_) => Fate::Runs,
    }
}

/// Whether the caller has ended.
pub fn ends_thread(act: &Act) -> bool
    ensures { result ≡ ends_thread act.now }
{
    matches!(act, Act::ThreadEnd | Act::ProcessEnd(_))
}

/// The exit code of the guest, where it has exited.
pub fn exit_of(act: &Act) -> Option<u8>
    ensures { result ≡ exit_of act.now }
{
    match act {
        Act::ProcessEnd(code) => Some(*code),
        _ => None,
    }
}

/// The address at which the caller waits, where it waits.
pub fn wait_of(act: &Act) -> Option<u32>
    ensures { result ≡ wait_of act.now }
{
    match act {
        Act::Wait(addr) => Some(*addr),
        _ => None,
    }
}

/// The signal that kills the guest, where one does.
pub fn signal_of(act: &Act) -> Option<u32>
    ensures { result ≡ signal_of act.now }
{
    match act {
        Act::Killed(signal) => Some(*signal),
        _ => None,
    }
}

/// The thread that was made, if one was.
pub fn spawned_by(act: &Act) -> Option<ThreadNo>
    ensures { option_to_list result ≡ spawned_by act.now }
{
    match act {
        Act::Spawn(thread) => Some(*thread),
        _ => None,
    }
}
