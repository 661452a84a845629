//! The parts of a run by address, read again from the folder into which they were put.

ghost use Rattle.std.specs.Prelude.{ℕ, List, Some, Ok, Err};
ghost use Rattle.outside.specs.Files.{Files};
ghost use Rattle.outside.specs.Outside.{with_files};
ghost use Rattle.cg_read.specs.Profiles.{Contents, IsProfile};
ghost use Rattle.profile_files.specs.Reading.{IsReading};
ghost use Rattle.profile_files.specs.declared.fault.ReadFault.{ReadFault};
ghost use Rattle.profile_run.specs.Program.{Program, head_of_run, CanRun};
ghost use Rattle.profile_run.specs.Trace.{Makes, Stop, RunStep, steps_of};
ghost use Rattle.reads_back.specs.Joined.{no_rows_of};
ghost use Rattle.run_laws.specs.OwnParts.{IsOwnFault, with_their_lengths};
ghost use Rattle.run_laws.specs.Runs.{command_of_run, rows_of_run};
ghost use Rattle.report_laws.specs.Rows.{AreEntriesSmall};
ghost use Rattle.run_laws.specs.Addresses.{addr_parts};
ghost use Rattle.report_laws.specs.Sums.{StandsFor};

/// The files of a run by address, each with its length as the limit, read and joined in the order of their puts, are a
/// profile for which one of the plain rows of the run stands: each report on it is a report on these.
pub fn own_parts_by_address_stand_for_the_rows_of_the_run()
    ensures read { (guest : Program) (trace : List RunStep) (stop : Stop) (old : Files) (before now : ℕ) (q : Contents)
        → CanRun guest → Makes guest trace → AreEntriesSmall guest.syms → IsProfile q
        → IsReading (Some (with_files ((addr_parts guest).whole (steps_of trace) stop.tried) old)) before now
        (no_rows_of (head_of_run guest)) (with_their_lengths ((addr_parts guest).whole (steps_of trace) stop.tried))
        (Ok q)
        → StandsFor (head_of_run guest) (command_of_run guest trace) (rows_of_run guest trace) guest.syms q }
    // No part of it is too long, has a bad line or other events.
    ensures refused { (guest : Program) (trace : List RunStep) (stop : Stop) (old : Files) (before now : ℕ)
        (fault : ReadFault) → CanRun guest → Makes guest trace → AreEntriesSmall guest.syms
        → IsReading (Some (with_files ((addr_parts guest).whole (steps_of trace) stop.tried) old)) before now
        (no_rows_of (head_of_run guest)) (with_their_lengths ((addr_parts guest).whole (steps_of trace) stop.tried))
        (Err fault)
        → IsOwnFault before now fault }
{}
