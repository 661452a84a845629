//! What holds of every run that is watched by address.

ghost use Rattle.std.specs.Prelude.{◌≡◌, ℕ, List};
ghost use Rattle.arc_costs.specs.Contents.{Listed};
ghost use Rattle.part_dump.specs.Steps.{Step, events_on_stack_of, IsPiece};
ghost use Rattle.profile_run.specs.Program.{Program, CanRun};
ghost use Rattle.profile_run.specs.Parts.{watched_parts};
ghost use Rattle.recorder.specs.Rows.{rows_of};
ghost use Rattle.profile_run.specs.Trace.{IsTraceOf, Makes, Stop, RunStep, steps_of};
ghost use Rattle.ctx_rows.specs.Folding.{AreSumsOf};
ghost use Rattle.addr_rows.specs.Plain.{plain};
ghost use Rattle.addr_rows.specs.Files.{addr_rows_in};
ghost use Rattle.addr_rows.specs.States.{AddrState};
ghost use Rattle.addr_rows.specs.Watching.{IsFresh, by_address};
ghost use Rattle.run_laws.specs.Addresses.{MayBeFolded};
ghost use Rattle.run_laws.specs.Addresses.{addr_parts, addressed};
ghost use Rattle.addr_rows.specs.Translated.{translation};
ghost use Rattle.outside.specs.Outside.{Outside};
ghost use Rattle.std.specs.Prelude.{Result};
ghost use Rattle.profile_run.specs.Runs.{Answers, RunEnd};
ghost use Rattle.profile_run.specs.declared.run_fault.RunFault.{RunFault};

/// What the watch writes in a run are the texts of the rows by address of each thread's events in each segment: of the
/// whole run, and of its cuts so far. It does nothing: its contract is a law.
pub fn files_of_a_run_are_those_of_its_addresses()
    ensures whole { (guest : Program) (trace : List RunStep) (stop : Stop) (first : AddrState) → CanRun guest → IsFresh first
        → IsTraceOf guest trace stop → (watched_parts by_address first guest).whole (steps_of trace) stop.tried
        ≡ (addr_parts guest).whole (steps_of trace) stop.tried }
    ensures so_far { (guest : Program) (past : List RunStep) (first : AddrState) → CanRun guest → IsFresh first
        → Makes guest past → (watched_parts by_address first guest).at_cuts (steps_of past)
        ≡ (addr_parts guest).at_cuts (steps_of past) }
{}

/// The rows by address of a thread's events in a piece of a run fold back to the plain rows of that thread and piece.
/// It does nothing: its contract is a law.
pub fn rows_by_address_of_a_run_fold_back_to_the_plain_ones()
    ensures { (guest : Program) (past : List RunStep) (thread : ℕ) (segment : List Step) (rows : Listed) → CanRun guest
        → Makes guest past → (piece : IsPiece (steps_of past) segment)
        → AreSumsOf (plain (addr_rows_in guest.syms thread piece.before segment)) rows
        → rows ≡ rows_of guest.syms (events_on_stack_of thread segment) }
{}

/// The rows by address of a thread's events in a piece of a run meet the conditions of `fold`. It does nothing: its
/// contract is a law.
pub fn rows_by_address_of_a_run_may_be_folded()
    ensures { (guest : Program) (past : List RunStep) (thread : ℕ) (segment : List Step) → CanRun guest
        → Makes guest past → (piece : IsPiece (steps_of past) segment)
        → MayBeFolded (addr_rows_in guest.syms thread piece.before segment) }
{}

/// Their sums over the addresses of a line, and of an arc, are the plain rows. It does nothing: its contract is a law.
pub fn plain_rows_are_the_sums_of_those_by_address()
    ensures { (guest : Program) (past : List RunStep) (thread : ℕ) (segment : List Step) → CanRun guest
        → Makes guest past → (piece : IsPiece (steps_of past) segment)
        → AreSumsOf (plain (addr_rows_in guest.syms thread piece.before segment))
        (rows_of guest.syms (events_on_stack_of thread segment)) }
{}

/// A run over the map that tells code by its addresses answers what the run by address does: its steps are those of the
/// guest with other stacks, and its parts have the texts of the rows by address. It does nothing: its contract is a law.
pub fn a_run_over_an_address_map_is_the_run_by_address()
    ensures { (guest : Program) (old : Outside) (answer : Result RunEnd RunFault) (new : Outside)
        → Answers (watched_parts translation guest.syms (addressed guest)) (addressed guest) old answer new
        → Answers (addr_parts guest) guest old answer new }
{}
