//! Laws of every run. Each is the contract of a function that does nothing.

ghost use Rattle.std.specs.Prelude.{◌≡◌, ℕ, ◌+◌, List, length, Option, None, Some, Ok, Err, IsSome};
ghost use Rattle.event_costs.specs.declared.numbers.ThreadNo.{ThreadNo};
ghost use Rattle.event_costs.specs.declared.outcome.End.{End};
ghost use Rattle.guest_load.specs.Guest.{Guest};
ghost use Rattle.guest_sched.specs.Step.{MachineStep};
ghost use Rattle.guest_sched.specs.Machine.{Machine, ended, next, running, with_given};
ghost use Rattle.guest_sched.specs.Laws.{InOrder, IsReached, IsTried, made_from};

/// Each step of a run is in order after those before it: of its thread, of waits and wakings, and of the threads that
/// there have been.
pub fn steps_are_in_order()
    ensures { (guest : Guest) (quantum : ℕ) (seed : Option ℕ) (earlier : List MachineStep) (m : Machine) (x : MachineStep) (n : Machine)
        → IsReached guest quantum seed earlier m → next m ≡ Ok (x, n) → InOrder guest earlier x }
{}

/// A machine has made as many steps as there were, and knows how many threads have been made.
pub fn steps_are_counted()
    ensures steps { (guest : Guest) (quantum : ℕ) (seed : Option ℕ) (earlier : List MachineStep) (m : Machine)
        → IsReached guest quantum seed earlier m → m.engine.kernel.guest.steps ≡ guest.steps + length earlier }
    ensures threads { (guest : Guest) (quantum : ℕ) (seed : Option ℕ) (earlier : List MachineStep) (m : Machine)
        → IsReached guest quantum seed earlier m → made_from guest.made earlier ≡ m.engine.kernel.guest.made }
{}

/// Until a run is over, a thread runs.
pub fn a_thread_runs()
    ensures { (guest : Guest) (quantum : ℕ) (seed : Option ℕ) (earlier : List MachineStep) (m : Machine)
        → IsReached guest quantum seed earlier m → ended m ≡ None → IsSome (running m) }
{}

/// The event of a step is that of the thread that was running, at its pc.
pub fn the_running_thread_steps()
    ensures { (guest : Guest) (quantum : ℕ) (seed : Option ℕ) (earlier : List MachineStep) (m : Machine) (x : MachineStep) (n : Machine)
        → (thread : ThreadNo) (pc : ℕ) → IsReached guest quantum seed earlier m → running m ≡ Some (thread, pc)
        → next m ≡ Ok (x, n) → (x.event.thread ≡ thread) × (x.event.done.pc ≡ pc) }
{}

/// A run that isn't over is ended by what was tried alone: the guest is killed, or an instruction or a call is
/// unsupported.
pub fn only_what_was_tried_ends_a_run()
    ensures { (guest : Guest) (quantum : ℕ) (seed : Option ℕ) (earlier : List MachineStep) (m : Machine) (end : End)
        → IsReached guest quantum seed earlier m → ended m ≡ None → next m ≡ Err end → IsTried end }
{}

/// An end that is known is given, and one that was given is given again.
pub fn ends_are_given_again()
    ensures known { (m : Machine) (end : End) → ended m ≡ Some end → next m ≡ Err end }
    ensures again { (m : Machine) (end : End) → next (with_given end m) ≡ Err end }
{}
