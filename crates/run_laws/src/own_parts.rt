//! The parts of a run, read again from the folder into which they were put.

ghost use Rattle.std.specs.Prelude.{◌≡◌, ◌≢◌, ℕ, List, All, AllPairs, Some, Ok, Err};
ghost use Rattle.outside.specs.Files.{Files, file};
ghost use Rattle.outside.specs.Outside.{with_files};
ghost use Rattle.cg_read.specs.Profiles.{Contents, IsProfile, SaysTheSame};
ghost use Rattle.profile_files.specs.Joined.{Joins};
ghost use Rattle.profile_files.specs.Reading.{IsReading};
ghost use Rattle.profile_files.specs.declared.fault.ReadFault.{ReadFault};
ghost use Rattle.profile_run.specs.Program.{Program, head_of_run, CanRun};
ghost use Rattle.profile_run.specs.Trace.{Makes, Stop, RunStep};
ghost use Rattle.reads_back.specs.Joined.{no_rows_of};
ghost use Rattle.run_laws.specs.OwnParts.{IsOwnFault, files_of_run, texts_of_files, with_their_lengths};
ghost use Rattle.run_laws.specs.Profiles.{IsProfileOfRun};

/// The names of a run's files differ, so the folder holds each of them after all were put.
pub fn own_parts_are_held()
    ensures names { (guest : Program) (trace : List RunStep) (stop : Stop) → CanRun guest → Makes guest trace
        → AllPairs (λ f g. f.0 ≢ g.0) (files_of_run guest trace stop) }
    ensures held { (guest : Program) (trace : List RunStep) (stop : Stop) (old : Files) → CanRun guest → Makes guest trace
        → All (λ f. file (with_files (files_of_run guest trace stop) old) f.0 ≡ Some f.1)
        (files_of_run guest trace stop) }
{}

/// The files of a run, read and joined in the order of their puts, are one profile: that of all rows of the run.
pub fn own_parts_read_as_the_rows_of_the_run()
    // However they are read and joined,
    ensures joined { (guest : Program) (trace : List RunStep) (stop : Stop) (p : Contents) → CanRun guest
        → Makes guest trace → IsProfile p
        → Joins (no_rows_of (head_of_run guest)) (texts_of_files (files_of_run guest trace stop)) p
        → IsProfileOfRun guest trace p }
    // it is that of the run; there is one,
    ensures exists { (guest : Program) (trace : List RunStep) (stop : Stop) → CanRun guest → Makes guest trace
        → (p : Contents) × IsProfile p
        × Joins (no_rows_of (head_of_run guest)) (texts_of_files (files_of_run guest trace stop)) p }
    // and no other one, but for the order of functions and files.
    ensures alike { (guest : Program) (trace : List RunStep) (p q : Contents) → IsProfileOfRun guest trace p
        → IsProfileOfRun guest trace q → SaysTheSame p q }
    // From a folder that tells its contents, into which they were put, the reading answers this profile;
    ensures read { (guest : Program) (trace : List RunStep) (stop : Stop) (old : Files) (before now : ℕ) (p : Contents)
        → CanRun guest → Makes guest trace → IsProfile p
        → IsReading (Some (with_files (files_of_run guest trace stop) old)) before now
        (no_rows_of (head_of_run guest)) (with_their_lengths (files_of_run guest trace stop)) (Ok p)
        → IsProfileOfRun guest trace p }
    // no part of it is too long, has a bad line or other events.
    ensures refused { (guest : Program) (trace : List RunStep) (stop : Stop) (old : Files) (before now : ℕ)
        (fault : ReadFault) → CanRun guest → Makes guest trace
        → IsReading (Some (with_files (files_of_run guest trace stop) old)) before now
        (no_rows_of (head_of_run guest)) (with_their_lengths (files_of_run guest trace stop)) (Err fault)
        → IsOwnFault before now fault }
{}
