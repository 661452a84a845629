//! Profile files, joined in any order.

ghost use Rattle.std.specs.Prelude.{◌≡◌, ℕ, List, None, Ok, map, IsPermutation};
ghost use Rattle.cg_read.specs.Profiles.{Contents, IsProfile};
ghost use Rattle.outside.specs.Load.{Load};
ghost use Rattle.profile_files.specs.Joined.{no_rows};
ghost use Rattle.profile_files.specs.Reading.{Answers, reading_fault};
ghost use Rattle.profile_files.specs.WantedFile.{WantedFile};
ghost use Rattle.annotate.specs.Files.{AreFilesShown};
ghost use Rattle.annotate.specs.Report.{IsReportOf, SourceTexts};
ghost use Rattle.report_rows.specs.declared.options.ReportOptions.{ReportOptions};
ghost use Rattle.report_laws.specs.Reports.{DifferByCommand};

/// Let the same files be loaded, read and joined in two orders, where each gives the same whenever it is loaded. The
/// reports on what they come to differ in the command alone. It does nothing: its contract is a law.
pub fn files_in_any_order_have_one_report()
    // Where they are joined without a fault in the one order, so they are in the other.
    ensures read { (events : List (List ℕ)) (load : WantedFile → Load) (files others : List WantedFile)
        → IsPermutation files others → reading_fault events files (map load files) ≡ None
        → reading_fault events others (map load others) ≡ None }
    // They have the same events,
    ensures events { (events : List (List ℕ)) (load : WantedFile → Load) (files others : List WantedFile) (p q : Contents)
        → IsPermutation files others → Answers (no_rows events) files (map load files) (Ok p)
        → Answers (no_rows events) others (map load others) (Ok q) → p.events ≡ q.events }
    // ask for the same source texts,
    ensures sources { (events : List (List ℕ)) (load : WantedFile → Load) (files others : List WantedFile) (p q : Contents)
        (names : List (List ℕ)) → IsPermutation files others → Answers (no_rows events) files (map load files) (Ok p)
        → Answers (no_rows events) others (map load others) (Ok q) → AreFilesShown p names → AreFilesShown q names }
    // and with these have one report, but for the command.
    ensures report { (events : List (List ℕ)) (load : WantedFile → Load) (files others : List WantedFile) (p q : Contents)
        (options : ReportOptions) (texts : SourceTexts) (text other : List ℕ) → IsPermutation files others
        → IsProfile p → IsProfile q → Answers (no_rows events) files (map load files) (Ok p)
        → Answers (no_rows events) others (map load others) (Ok q) → IsReportOf p options texts text
        → IsReportOf q options texts other → DifferByCommand p q text other }
{}
