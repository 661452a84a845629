//! The steps of a run as the list of events that the laws speak of.

ghost use Rattle.std.specs.Prelude.{◌≤◌, List, All};
ghost use Rattle.part_dump.specs.Steps.{thread_of};
ghost use Rattle.profile_run.specs.Program.{Program, CanRun};
ghost use Rattle.profile_run.specs.Trace.{Makes, RunStep, steps_of};
ghost use Rattle.once_each.specs.Graphs.{AreOfMap};
ghost use Rattle.once_each.specs.Orderly.{FitTops, GoOn, IsRunSized};
ghost use Rattle.once_each.specs.Runs.{HaveStacks};
ghost use Rattle.run_laws.specs.Runs.{events_with_costs, events_with_stacks};

/// The steps of a guest, as far as it has come, are events as the laws want them.
pub fn steps_of_a_guest_are_its_events()
    // each has the stack of its thread before it
    ensures stacks { (guest : Program) (past : List RunStep) → CanRun guest → Makes guest past
        → HaveStacks guest.syms (steps_of past) }
    // it begins where the last one of its thread led
    ensures order { (guest : Program) (past : List RunStep) → CanRun guest → Makes guest past
        → GoOn (events_with_costs past) }
    // in the function on top of that stack
    ensures tops { (guest : Program) (past : List RunStep) → CanRun guest → Makes guest past
        → FitTops guest.syms (events_with_costs past) }
    // all functions are of the map
    ensures map { (guest : Program) (past : List RunStep) → CanRun guest → AreOfMap guest.syms (events_with_costs past) }
    // there are no more and no greater ones than a run has
    ensures size { (guest : Program) (past : List RunStep) → CanRun guest → Makes guest past
        → IsRunSized (events_with_stacks past) }
    // and their threads have small numbers
    ensures threads { (guest : Program) (past : List RunStep) → CanRun guest → Makes guest past
        → All (λ x. thread_of x ≤ 65535) (steps_of past) }
{}
