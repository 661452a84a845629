//! Runs of one guest whose code two maps tell.

ghost use Rattle.std.specs.Prelude.{◌≡◌, List};
ghost use Rattle.cg_read.specs.Profiles.{Contents};
ghost use Rattle.sym_map.specs.SymbolMap.{SymbolMap};
ghost use Rattle.profile_run.specs.Program.{Program, CanRun};
ghost use Rattle.profile_run.specs.Trace.{IsTraceOf, Makes, Stop, RunStep};
ghost use Rattle.run_laws.specs.Maps.{TellTheSame, with_map};
ghost use Rattle.run_laws.specs.Profiles.{IsProfileOfRun};
ghost use Rattle.run_laws.specs.Runs.{parts_written};

/// A guest whose code is told the same by another map makes one run: maps may say other things of addresses beyond 32
/// bits, where no code is. It does nothing: its contract is a law.
pub fn maps_that_tell_the_same_make_one_run()
    // By both it makes the same steps up to the same stop,
    ensures trace { (guest : Program) (syms : SymbolMap) (trace other : List RunStep) (stop end : Stop) → CanRun guest
        → TellTheSame guest.syms syms → IsTraceOf guest trace stop → IsTraceOf (with_map syms guest) other end
        → (trace ≡ other) × (stop ≡ end) }
    // and these have the same rows in the same parts
    ensures parts { (guest : Program) (syms : SymbolMap) (past : List RunStep) → CanRun guest
        → TellTheSame guest.syms syms → Makes guest past
        → parts_written guest past ≡ parts_written (with_map syms guest) past }
    // and the same profiles.
    ensures profile { (guest : Program) (syms : SymbolMap) (past : List RunStep) (p : Contents) → CanRun guest
        → TellTheSame guest.syms syms → Makes guest past → IsProfileOfRun guest past p
        → IsProfileOfRun (with_map syms guest) past p }
{}
