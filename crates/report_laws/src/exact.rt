//! A run, its own parts read again, and the report on them.

ghost use Rattle.std.specs.Prelude.{◌≡◌, ℕ, List, Some, Ok, Err};
ghost use Rattle.outside.specs.Files.{Files};
ghost use Rattle.outside.specs.Outside.{Outside};
ghost use Rattle.cg_read.specs.Profiles.{Contents, IsProfile};
ghost use Rattle.annotate.specs.Report.{IsReportOf, SourceTexts};
ghost use Rattle.report_rows.specs.declared.options.ReportOptions.{ReportOptions};
ghost use Rattle.profile_files.specs.Reading.{IsReading};
ghost use Rattle.profile_files.specs.declared.fault.ReadFault.{ReadFault};
ghost use Rattle.profile_run.specs.Program.{Program, head_of_run, CanRun};
ghost use Rattle.profile_run.specs.Parts.{plain_parts};
ghost use Rattle.profile_run.specs.Runs.{Answers, RunEnd};
ghost use Rattle.reads_back.specs.Joined.{no_rows_of};
ghost use Rattle.run_laws.specs.OwnParts.{IsOwnFault};
ghost use Rattle.report_laws.specs.Exact.{IsExact, own_parts};

/// Let a program run over a folder that tells its contents, let the parts that the run lists be read again from there,
/// each with its length as the limit, and be joined, and let a report be made on what they are.
pub fn a_run_reported_from_its_own_parts_is_exact()
    // Then the folder and the sinks hold what the guest's trace puts out, and the report is on that trace.
    ensures exact { (guest : Program) (old : Outside) (run : RunEnd) (new : Outside) (contents : Files) (before now : ℕ)
        (p : Contents) (options : ReportOptions) (texts : SourceTexts) (text : List ℕ)
        → CanRun guest → old.files ≡ Some contents → Answers (plain_parts guest) guest old (Ok run) new
        → IsProfile p
        → IsReading new.files before now (no_rows_of (head_of_run guest)) (own_parts guest run) (Ok p)
        → IsReportOf p options texts text → IsExact guest old run new options texts text }
    // The reading is refused only where a load failed or memory was wanting.
    ensures refused { (guest : Program) (old : Outside) (run : RunEnd) (new : Outside) (contents : Files)
        (before now : ℕ) (fault : ReadFault)
        → CanRun guest → old.files ≡ Some contents → Answers (plain_parts guest) guest old (Ok run) new
        → IsReading new.files before now (no_rows_of (head_of_run guest)) (own_parts guest run) (Err fault)
        → IsOwnFault before now fault }
{}
