//! The rows of a thread.

ghost use Rattle.std.specs.Prelude.{◌≡◌, ℕ, ◌++◌, List, flat_map, map};
ghost use Rattle.part_dump.specs.Steps.{Step, events_of_thread, events_on_stack_of};
ghost use Rattle.profile_run.specs.Program.{Program, CanRun};
ghost use Rattle.profile_run.specs.Trace.{Makes, RunStep, steps_of};
ghost use Rattle.recorder.specs.Standing.{last_events_on_stack};
ghost use Rattle.run_laws.specs.ThreadWork.{HaveSameWork, first_stack, own_costed_events};

/// The rows of a thread in a segment are sums over its own events with their costs, cut where the cuts fall: the stacks
/// of these events are folded over the thread's own events alone, wherever the run is cut. So turns, seeds and other
/// threads enter only through the costs and the cuts. It does nothing: its contract is a law.
pub fn rows_of_a_thread_are_of_its_own_events()
    ensures { (guest : Program) (past : List RunStep) (earlier : List (List Step)) (segment later : List Step) (thread : ℕ)
        → CanRun guest → Makes guest past
        → steps_of past ≡ flat_map (λ piece. piece) earlier ++ (segment ++ later)
        → events_on_stack_of thread segment
        ≡ last_events_on_stack guest.syms (first_stack guest.syms thread (steps_of past)) (map (own_costed_events thread) earlier)
        (own_costed_events thread segment) }
{}

/// Turns change no work. Where two runs make the same events of a thread, under one map of symbols and with branches
/// counted in both or in neither, its instructions, data references, branches and calls are the same at each line and
/// under each arc, whatever the quantum, the seed, the caches, the cuts and the other threads. It does nothing: its
/// contract is a law.
pub fn turns_change_no_work()
    ensures { (guest other : Program) (past others : List RunStep) (thread : ℕ)
        → CanRun guest → CanRun other → Makes guest past → Makes other others
        → guest.syms ≡ other.syms → guest.options.branch ≡ other.options.branch
        → events_of_thread thread (steps_of past) ≡ events_of_thread thread (steps_of others)
        → HaveSameWork guest.syms (events_on_stack_of thread (steps_of past)) (events_on_stack_of thread (steps_of others)) }
{}
