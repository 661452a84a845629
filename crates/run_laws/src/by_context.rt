//! What holds of every run that is watched by calling context.

ghost use Rattle.std.specs.Prelude.{◌≡◌, ℕ, List};
ghost use Rattle.arc_costs.specs.Contents.{Listed};
ghost use Rattle.recorder.specs.Laws.{IsIn};
ghost use Rattle.part_dump.specs.Steps.{Step, events_on_stack_of, IsPiece};
ghost use Rattle.profile_run.specs.Program.{Program, CanRun};
ghost use Rattle.profile_run.specs.Parts.{watched_parts};
ghost use Rattle.recorder.specs.Rows.{rows_of};
ghost use Rattle.profile_run.specs.Trace.{IsTraceOf, Makes, Stop, RunStep, steps_of};
ghost use Rattle.ctx_rows.specs.Folding.{AreSumsOf, plain};
ghost use Rattle.ctx_rows.specs.Rows.{ctx_rows_of};
ghost use Rattle.ctx_rows.specs.States.{CtxState};
ghost use Rattle.ctx_rows.specs.Watching.{IsFresh, by_context};
ghost use Rattle.run_laws.specs.Contexts.{MayBeFolded};
ghost use Rattle.run_laws.specs.Contexts.{ctx_parts};

/// What the watch writes in a run are the texts of the rows by context of each thread's events in each segment: of the
/// whole run, and of its cuts so far. It does nothing: its contract is a law.
pub fn files_of_a_run_are_those_of_its_contexts()
    ensures whole { (guest : Program) (trace : List RunStep) (stop : Stop) (first : CtxState) → CanRun guest → IsFresh first
        → IsTraceOf guest trace stop → (watched_parts by_context first guest).whole (steps_of trace) stop.tried
        ≡ (ctx_parts first.callers guest).whole (steps_of trace) stop.tried }
    ensures so_far { (guest : Program) (past : List RunStep) (first : CtxState) → CanRun guest → IsFresh first
        → Makes guest past → (watched_parts by_context first guest).at_cuts (steps_of past)
        ≡ (ctx_parts first.callers guest).at_cuts (steps_of past) }
{}

/// The rows by context of a thread's events in a piece of a run fold back to the plain rows of that thread and piece.
/// It does nothing: its contract is a law.
pub fn rows_by_context_of_a_run_fold_back_to_the_plain_ones()
    ensures { (guest : Program) (past : List RunStep) (callers thread : ℕ) (segment : List Step) (rows : Listed)
        → CanRun guest → Makes guest past → ((x : Step) → IsIn segment x → IsIn (steps_of past) x)
        → AreSumsOf (plain (ctx_rows_of callers guest.syms (events_on_stack_of thread segment))) rows
        → rows ≡ rows_of guest.syms (events_on_stack_of thread segment) }
{}

/// The rows by context of a thread's events in a piece of a run meet the conditions of `fold`. It does nothing: its
/// contract is a law.
pub fn rows_by_context_of_a_run_may_be_folded()
    ensures { (guest : Program) (past : List RunStep) (callers thread : ℕ) (segment : List Step) → CanRun guest
        → Makes guest past → IsPiece (steps_of past) segment
        → MayBeFolded (ctx_rows_of callers guest.syms (events_on_stack_of thread segment)) }
{}

/// Their sums over the contexts of a function are the plain rows. It does nothing: its contract is a law.
pub fn plain_rows_are_the_sums_of_those_by_context()
    ensures { (guest : Program) (past : List RunStep) (callers thread : ℕ) (segment : List Step) → CanRun guest
        → Makes guest past → IsPiece (steps_of past) segment
        → AreSumsOf (plain (ctx_rows_of callers guest.syms (events_on_stack_of thread segment)))
        (rows_of guest.syms (events_on_stack_of thread segment)) }
{}
