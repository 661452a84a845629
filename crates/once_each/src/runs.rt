//! Runs: their steps are a list of events as the laws want it, and the files that they put have its parts.

ghost use Rattle.std.specs.Prelude.{◌≡◌, ◌≤◌, [], ℕ, Bool, List, All, Option};
ghost use Rattle.event_costs.specs.Costs.{IsWhole};
ghost use Rattle.event_costs.specs.declared.event.Event.{Event};
ghost use Rattle.sym_map.specs.SymbolMap.{SymbolMap};
ghost use Rattle.shadow_stack.specs.Traces.{CountedEvent, EventOnStack, events_on_stacks};
ghost use Rattle.arc_costs.specs.Contents.{Listed};
ghost use Rattle.cache_lru.specs.Costs.{Shapes, event_cost};
ghost use Rattle.guest_load.specs.Guest.{Guest};
ghost use Rattle.guest_sched.specs.Laws.{IsReached};
ghost use Rattle.guest_sched.specs.Machine.{Machine};
ghost use Rattle.guest_sched.specs.Step.{MachineStep};
ghost use Rattle.cg_format.specs.declared.head.PartHead.{PartHead};
ghost use Rattle.part_dump.specs.Calls.{Call};
ghost use Rattle.part_dump.specs.Cuts.{DumpPoints};
ghost use Rattle.part_dump.specs.Parts.{files};
ghost use Rattle.part_dump.specs.Steps.{Step};
ghost use Rattle.part_dump.specs.Watched.{AreWatched, steps_in};
ghost use Rattle.once_each.specs.Orderly.{GoOn, IsRunSized};
ghost use Rattle.once_each.specs.Parts.{ArePartsOfTrace};
ghost use Rattle.once_each.specs.Runs.{AreOrderly, AreTakenAfter, HaveStacks, events_of, machine_events, trace_of};
ghost use Rattle.once_each.specs.Written.{SumsUp, files_of, parts_of, segments_of};

/// The events of every run of a machine, as far as it has come and whatever they cost, go on where the last one of
/// their thread led.
pub fn events_of_a_machine_go_on()
    ensures { (guest : Guest) (quantum : ℕ) (seed : Option ℕ) (told : List MachineStep) (m : Machine)
        (trace : List CountedEvent)
        → IsReached guest quantum seed told m → events_of trace ≡ machine_events told → GoOn trace }
{}

/// The steps of a run, of which each may follow those before it, are such a list of events: each has the stack of its
/// thread and goes on where its thread's last one led, and there are no more and no greater ones than a run has.
pub fn steps_of_a_run_are_a_trace()
    ensures stacks { (syms : SymbolMap) (steps : List Step) → AreOrderly syms steps → HaveStacks syms steps }
    ensures order { (syms : SymbolMap) (steps : List Step) → AreOrderly syms steps → GoOn (trace_of steps) }
    ensures size { (syms : SymbolMap) (steps : List Step) → AreOrderly syms steps
        → IsRunSized (events_on_stacks syms (trace_of steps)) }
    // Such steps are those of a machine, with the stacks and costs that they have, as far as there is room,
    ensures machine { (syms : SymbolMap) (guest : Guest) (quantum : ℕ) (seed : Option ℕ) (told : List MachineStep)
        (m : Machine) (steps : List Step)
        → IsReached guest quantum seed told m → AreTakenAfter syms [] told steps → AreOrderly syms steps }
    // and those of a watched run.
    ensures watched { (syms : SymbolMap) (calls : List Call) → AreWatched syms calls → AreOrderly syms (steps_in calls) }
{}

/// An event costs a number for each kind, which is 0 or 1.
pub fn costs_are_zeros_and_ones()
    ensures whole { (branches : Bool) (shapes : Shapes) (earlier : List Event) (event : Event)
        → IsWhole (event_cost branches shapes earlier event) }
    ensures ones { (branches : Bool) (shapes : Shapes) (earlier : List Event) (event : Event)
        → All (λ n. n ≤ 1) (event_cost branches shapes earlier event) }
{}

/// The files of a run have the parts of its trace: one for each thread with an event in a segment, with the sums of
/// these events, wherever the run was cut.
pub fn files_have_the_parts_of_the_trace()
    ensures parts { (rows_of : List EventOnStack → Listed) (syms : SymbolMap) (asked : DumpPoints) (steps : List Step)
        → HaveStacks syms steps → SumsUp syms rows_of (events_on_stacks syms (trace_of steps))
        → ArePartsOfTrace syms (trace_of steps) (parts_of rows_of syms asked steps) }
    ensures files { (rows_of : List EventOnStack → Listed) (head : PartHead) (syms : SymbolMap) (base : List ℕ) (asked : DumpPoints)
        (steps : List Step) → files rows_of head syms base asked steps
        ≡ files_of head syms base rows_of (segments_of syms asked steps) }
{}
