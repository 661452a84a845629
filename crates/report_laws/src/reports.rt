//! Reports on the profiles of runs.

ghost use Rattle.std.specs.Prelude.{◌≡◌, ℕ, List};
ghost use Rattle.cg_read.specs.Profiles.{Contents, IsProfile, SaysTheSame};
ghost use Rattle.cycles.specs.Limits.{IsFirstOver};
ghost use Rattle.part_dump.specs.Cuts.{DumpPoints};
ghost use Rattle.profile_files.specs.Joined.{Joins};
ghost use Rattle.annotate.specs.Report.{IsReportOf, SourceTexts};
ghost use Rattle.report_rows.specs.declared.options.ReportOptions.{ReportOptions};
ghost use Rattle.profile_run.specs.Program.{Program, head_of_run, CanRun};
ghost use Rattle.profile_run.specs.Trace.{Makes, Stop, RunStep, steps_of};
ghost use Rattle.reads_back.specs.Joined.{no_rows_of};
ghost use Rattle.run_laws.specs.Addresses.{addr_parts};
ghost use Rattle.run_laws.specs.OwnParts.{files_of_run, texts_of_files};
ghost use Rattle.run_laws.specs.Profiles.{IsProfileOfRun};
ghost use Rattle.report_laws.specs.Reports.{CallsCount, IsReportOfRun, cut_at};
ghost use Rattle.report_laws.specs.Rows.{AreEntriesSmall};

/// The report on a profile of all rows of a run has the groups of the run's call graph; each inclusive cost counts
/// every event during which a function of the group stands on the event's thread's stack exactly once, and the cost of
/// a pair of functions of different groups every event during which the one stands directly on the other.
pub fn reports_on_a_run_count_each_event_once()
    ensures once { (guest : Program) (past : List RunStep) (p : Contents) (options : ReportOptions) (texts : SourceTexts)
        (text : List ℕ) → CanRun guest → Makes guest past → IsProfileOfRun guest past p
        → IsReportOf p options texts text → IsReportOfRun guest past options texts text }
    ensures calls { (guest : Program) (past : List RunStep) (options : ReportOptions) (texts : SourceTexts)
        (text : List ℕ) → CanRun guest → Makes guest past → (report : IsReportOfRun guest past options texts text)
        → CallsCount guest past report.profile report.groups }
    // No sum of a run's profile is too large for a report.
    ensures within { (guest : Program) (past : List RunStep) (p : Contents) (position : ℕ) → CanRun guest
        → Makes guest past → IsProfileOfRun guest past p → IsFirstOver p position → ⊥ }
{}

/// A profile has one report under given options and source texts: the text is a function of these, whatever the numbers
/// of the groups. It does nothing: its contract is a law.
pub fn a_profile_has_one_report()
    ensures profile { (p : Contents) (options : ReportOptions) (texts : SourceTexts) (text other : List ℕ) → IsProfile p
        → IsReportOf p options texts text → IsReportOf p options texts other → text ≡ other }
    // So have profiles that say the same, however their functions and files are numbered.
    ensures alike { (p q : Contents) (options : ReportOptions) (texts : SourceTexts) (text other : List ℕ)
        → IsProfile p → IsProfile q → SaysTheSame p q → IsReportOf p options texts text
        → IsReportOf q options texts other → text ≡ other }
{}

/// A run has one report under given options and source texts. It does nothing: its contract is a law.
pub fn a_run_has_one_report()
    // All that is said of a report on it holds of one text alone,
    ensures run { (guest : Program) (past : List RunStep) (options : ReportOptions) (texts : SourceTexts)
        (text other : List ℕ) → CanRun guest → Makes guest past → IsReportOfRun guest past options texts text
        → IsReportOfRun guest past options texts other → text ≡ other }
    // wherever the run is cut,
    ensures cut { (guest : Program) (asked : DumpPoints) (past : List RunStep) (options : ReportOptions) (texts : SourceTexts)
        (text other : List ℕ) → CanRun guest → Makes guest past → IsReportOfRun guest past options texts text
        → IsReportOfRun (cut_at asked guest) past options texts other → text ≡ other }
    // and whether its parts have addresses or not.
    ensures addresses { (guest : Program) (trace : List RunStep) (stop : Stop) (p q : Contents) (options : ReportOptions)
        (texts : SourceTexts) (text other : List ℕ) → CanRun guest → Makes guest trace → AreEntriesSmall guest.syms
        → IsProfile p → Joins (no_rows_of (head_of_run guest)) (texts_of_files (files_of_run guest trace stop)) p
        → IsProfile q → Joins (no_rows_of (head_of_run guest))
        (texts_of_files ((addr_parts guest).whole (steps_of trace) stop.tried)) q
        → IsReportOf p options texts text → IsReportOf q options texts other → text ≡ other }
{}
