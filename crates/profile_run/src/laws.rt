//! What holds of the runs of every guest.

ghost use Rattle.std.specs.Prelude.{◌≡◌, ◌≢◌, ◌<◌, ◌≤◌, ◌^◌, ℕ, List, Option, All, AllPairs};
ghost use Rattle.event_costs.specs.Costs.{IsWhole};
ghost use Rattle.event_costs.specs.declared.numbers.ThreadNo.{ThreadNo};
ghost use Rattle.sym_map.specs.SymbolMap.{SymbolMap};
ghost use Rattle.shadow_stack.specs.Traces.{EventOnStack};
ghost use Rattle.arc_costs.specs.Contents.{Listed};
ghost use Rattle.recorder.specs.Laws.{IsIn};
ghost use Rattle.recorder.specs.Standing.{AreRowsOf};
ghost use Rattle.cg_format.specs.declared.head.PartHead.{PartHead};
ghost use Rattle.guest_load.specs.First.{guest_at_start};
ghost use Rattle.guest_load.specs.Lawful.{IsLawful};
ghost use Rattle.part_dump.specs.Calls.{Writes};
ghost use Rattle.part_dump.specs.Files.{part_name};
ghost use Rattle.profile_run.specs.Program.{Program};
ghost use Rattle.profile_run.specs.Parts.{calls_of, plain_parts};
ghost use Rattle.recorder.specs.Rows.{rows_of};
ghost use Rattle.profile_run.specs.Sizes.{FitTypes};
ghost use Rattle.profile_run.specs.Steps.{AreOfMachine};
ghost use Rattle.profile_run.specs.Trace.{HasTrace, IsTraceOf, Makes, Stop, RunStep, steps_of};

/// Every guest has a trace, since its budget ends each run, and no other one. It does nothing: its contract is a law.
pub fn every_guest_has_one_trace()
    ensures some { (guest : Program) → HasTrace guest }
    ensures one { (guest : Program) (trace other : List RunStep) (stop end : Stop) → IsTraceOf guest trace stop
        → IsTraceOf guest other end → (trace ≡ other) × (stop ≡ end) }
{}

/// The rows of events have the sums of these events, with a number for each kind of event. It does nothing: its
/// contract is a law.
pub fn rows_have_the_sums_of_their_events()
    ensures sums { (syms : SymbolMap) (xs : List EventOnStack) → All (λ x. IsWhole x.cost) xs
        → AreRowsOf syms xs (rows_of syms xs) }
    ensures lines { (syms : SymbolMap) (xs : List EventOnStack) → All (λ row. IsWhole row.cost) (rows_of syms xs).lines }
    ensures arcs { (syms : SymbolMap) (xs : List EventOnStack) → All (λ row. IsWhole row.cost) (rows_of syms xs).arcs }
{}

/// A name of a part is that of no other part or thread, and the files of a run have names that differ. It does nothing:
/// its contract is a law.
pub fn parts_have_names_of_their_own()
    ensures one { (base : List ℕ) (part thread other_part other_thread : ℕ) → part < 2 ^ 32 → thread < 2 ^ 32
        → other_part < 2 ^ 32 → other_thread < 2 ^ 32
        → part_name base part thread ≡ part_name base other_part other_thread
        → (part ≡ other_part) × (thread ≡ other_thread) }
    ensures all { (guest : Program) (trace : List RunStep) (stop : Stop)
        → IsLawful (guest_at_start guest.image guest.args guest.input) → IsTraceOf guest trace stop
        → AllPairs (λ f g. f.0 ≢ g.0) ((plain_parts guest).whole (steps_of trace) stop.tried) }
{}

/// No number of a part passes its type: a run has at most 10^12 steps, and fewer than 4,194,304 frames that are no
/// roots under each. It does nothing: its contract is a law.
pub fn no_sum_passes_its_type()
    ensures { (guest : Program) (past : List RunStep) (tried : Option (ThreadNo × ℕ)) (head : PartHead) (rows : Listed)
        → guest.options.budget ≤ 10 ^ 12 → Makes guest past
        → IsIn (calls_of guest (steps_of past) tried) (Writes head rows) → FitTypes rows }
{}

/// The steps of every run are those that its machine tells of, each with its cost after the steps before it and with
/// the stack of its thread. It does nothing: its contract is a law.
pub fn steps_are_those_of_the_machine()
    ensures { (guest : Program) (past : List RunStep) → Makes guest past → AreOfMachine guest past }
{}
