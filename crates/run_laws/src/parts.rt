//! The parts of a run.

ghost use Rattle.std.specs.Prelude.{◌≡◌, ℕ, List, slice_index, sum_by};
ghost use Rattle.event_costs.specs.Keys.{ArcKey, Place};
ghost use Rattle.arc_costs.specs.Arcs.{arc_sum, call_sum};
ghost use Rattle.arc_costs.specs.Keys.{by_kind};
ghost use Rattle.arc_costs.specs.Lines.{line_sum};
ghost use Rattle.cg_format.specs.Sums.{sum_of_lines};
ghost use Rattle.part_dump.specs.Steps.{IsPiece, Step, events_on_stack_of};
ghost use Rattle.recorder.specs.Rows.{rows_of};
ghost use Rattle.recorder.specs.Sums.{arc_calls, arc_cost, self_cost};
ghost use Rattle.profile_run.specs.Program.{Program, head_of_run, CanRun};
ghost use Rattle.profile_run.specs.Trace.{Makes, Stop, RunStep, steps_of};
ghost use Rattle.once_each.specs.Parts.{ArePartsOfTrace};
ghost use Rattle.reads_back.specs.Joined.{ArePartsOfRun, texts_of};
ghost use Rattle.run_laws.specs.OwnParts.{files_of_run, texts_of_files};
ghost use Rattle.run_laws.specs.Runs.{events_with_costs, events_with_stacks, parts_written, rows_of_run, thread_rows};

/// A run writes a part for each thread with an event in a segment, with the sums of these events.
pub fn parts_of_a_run_have_the_sums_of_its_events()
    ensures parts { (guest : Program) (past : List RunStep) → CanRun guest → Makes guest past
        → ArePartsOfTrace guest.syms (events_with_costs past) (thread_rows guest past) }
    // The files are their texts,
    ensures texts { (guest : Program) (trace : List RunStep) (stop : Stop)
        → texts_of_files (files_of_run guest trace stop) ≡ texts_of guest.syms (parts_written guest trace) }
    // which can be read again.
    ensures written { (guest : Program) (past : List RunStep) → CanRun guest → Makes guest past
        → ArePartsOfRun (head_of_run guest) guest.syms (parts_written guest past) }
    // The `summary` and `totals` lines of a part, the sum of its line rows, are what its thread's events of its segment
    // cost.
    ensures summary { (guest : Program) (past : List RunStep) (thread : ℕ) (segment : List Step) → CanRun guest
        → Makes guest past → IsPiece (steps_of past) segment
        → sum_of_lines (rows_of guest.syms (events_on_stack_of thread segment)).lines
        ≡ by_kind (λ kind. sum_by (λ x. slice_index x.cost kind) (events_on_stack_of thread segment)) }
    // The rows of all parts have the sums of all events: at each place, under each arc, and of the calls of each arc.
    ensures lines { (guest : Program) (past : List RunStep) (kind : ℕ) (place : Place) → CanRun guest → Makes guest past
        → line_sum kind place (rows_of_run guest past).lines ≡ self_cost guest.syms kind place (events_with_stacks past) }
    ensures arcs { (guest : Program) (past : List RunStep) (kind : ℕ) (arc : ArcKey) → CanRun guest → Makes guest past
        → arc_sum kind arc (rows_of_run guest past).arcs ≡ arc_cost kind arc (events_with_stacks past) }
    ensures calls { (guest : Program) (past : List RunStep) (arc : ArcKey) → CanRun guest → Makes guest past
        → call_sum arc (rows_of_run guest past).arcs ≡ arc_calls guest.syms arc (events_with_stacks past) }
{}
