//! Files and reports of one guest whose code two maps tell.

ghost use Rattle.std.specs.Prelude.{◌≡◌, ℕ, List};
ghost use Rattle.annotate.specs.Report.{SourceTexts};
ghost use Rattle.report_rows.specs.declared.options.ReportOptions.{ReportOptions};
ghost use Rattle.sym_map.specs.SymbolMap.{SymbolMap};
ghost use Rattle.profile_run.specs.Program.{Program, CanRun};
ghost use Rattle.profile_run.specs.Trace.{Makes, Stop, RunStep, steps_of};
ghost use Rattle.run_laws.specs.Addresses.{addr_parts};
ghost use Rattle.run_laws.specs.Contexts.{ctx_parts};
ghost use Rattle.run_laws.specs.Maps.{TellTheSame, with_map};
ghost use Rattle.run_laws.specs.OwnParts.{files_of_run};
ghost use Rattle.report_laws.specs.Reports.{IsReportOfRun};

/// A guest whose code is told the same by another map puts the same files and has the same report. It does nothing: its
/// contract is a law.
pub fn maps_that_tell_the_same_make_one_report()
    ensures files { (guest : Program) (syms : SymbolMap) (trace : List RunStep) (stop : Stop) → CanRun guest
        → TellTheSame guest.syms syms → Makes guest trace
        → files_of_run guest trace stop ≡ files_of_run (with_map syms guest) trace stop }
    // by context and by address too;
    ensures contexts { (guest : Program) (syms : SymbolMap) (trace : List RunStep) (stop : Stop) (callers : ℕ)
        → CanRun guest → TellTheSame guest.syms syms → Makes guest trace
        → (ctx_parts callers guest).whole (steps_of trace) stop.tried
        ≡ (ctx_parts callers (with_map syms guest)).whole (steps_of trace) stop.tried }
    ensures addresses { (guest : Program) (syms : SymbolMap) (trace : List RunStep) (stop : Stop) → CanRun guest
        → TellTheSame guest.syms syms → Makes guest trace
        → (addr_parts guest).whole (steps_of trace) stop.tried
        ≡ (addr_parts (with_map syms guest)).whole (steps_of trace) stop.tried }
    ensures report { (guest : Program) (syms : SymbolMap) (past : List RunStep) (options : ReportOptions)
        (texts : SourceTexts) (text other : List ℕ) → CanRun guest → TellTheSame guest.syms syms → Makes guest past
        → CanRun (with_map syms guest) → IsReportOfRun guest past options texts text
        → IsReportOfRun (with_map syms guest) past options texts other → text ≡ other }
{}
