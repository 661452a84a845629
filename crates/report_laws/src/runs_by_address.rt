//! The rows by address of a run.

ghost use Rattle.std.specs.Prelude.{ℕ, List};
ghost use Rattle.part_dump.specs.Steps.{Step, events_on_stack_of, IsPiece};
ghost use Rattle.profile_run.specs.Program.{Program, CanRun};
ghost use Rattle.recorder.specs.Rows.{rows_of};
ghost use Rattle.profile_run.specs.Trace.{Makes, RunStep, steps_of};
ghost use Rattle.addr_rows.specs.Plain.{plain};
ghost use Rattle.addr_rows.specs.Files.{addr_rows_in};
ghost use Rattle.report_laws.specs.Sums.{HaveEqualSums};
ghost use Rattle.report_laws.specs.Rows.{AreWritable};

/// The rows by address of a thread's events in a piece of a run can be written: they are of the map, no number of
/// theirs passes 64 bits, and they come by rising function. Without their addresses they have the sums of the plain
/// rows.
pub fn rows_by_address_of_a_run_can_be_written()
    ensures writable { (guest : Program) (past : List RunStep) (thread : ℕ) (segment : List Step) → CanRun guest
        → Makes guest past → (piece : IsPiece (steps_of past) segment)
        → AreWritable guest.syms (addr_rows_in guest.syms thread piece.before segment) }
    ensures sums { (guest : Program) (past : List RunStep) (thread : ℕ) (segment : List Step) → CanRun guest
        → Makes guest past → (piece : IsPiece (steps_of past) segment)
        → HaveEqualSums (rows_of guest.syms (events_on_stack_of thread segment))
        (plain (addr_rows_in guest.syms thread piece.before segment)) }
{}
