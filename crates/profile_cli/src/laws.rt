//! What is so of all commands. That a program can be run is a field of the clause of `profile`.

ghost use Rattle.std.specs.Prelude.{◌≡◌, ℕ, List, Some, false};
ghost use Rattle.outside.specs.Files.{Files};
ghost use Rattle.outside.specs.Outside.{Outside};
ghost use Rattle.command_status.specs.declared.status.Status.{Status};
ghost use Rattle.command_words.specs.Request.{Job, Positions, View, Watching};
ghost use Rattle.profile_run.specs.Program.{CanRun};
ghost use Rattle.profile_cli.specs.HasRun.{HasRun, RunFiles, RunOf};
ghost use Rattle.profile_cli.specs.Headline.{IsExactReport, ReportOn};
ghost use Rattle.profile_cli.specs.Watching.{files_asked, files_at, output_asked};

/// A job has one run with a program that can be run and an input, whatever map tells the program's symbols. It does
/// nothing: its contract is a law.
pub fn a_job_has_one_run()
    // It makes the same steps
    ensures trace { (job : Job) (program input : List ℕ) (one other : RunOf job program input)
        → CanRun one.guest → CanRun other.guest → one.trace ≡ other.trace }
    // up to the same stop,
    ensures stop { (job : Job) (program input : List ℕ) (one other : RunOf job program input)
        → CanRun one.guest → CanRun other.guest → one.stop ≡ other.stop }
    // and puts out the same files and bytes, whatever it counts besides;
    ensures output { (job : Job) (program input : List ℕ) (one other : RunOf job program input)
        → CanRun one.guest → CanRun other.guest → (watching : Watching)
        → output_asked watching one.guest one.trace one.stop ≡ output_asked watching other.guest other.trace other.stop }
    // and with the same source texts there is one report on it.
    ensures report { (job : Job) (program input : List ℕ) (one other : RunOf job program input)
        → CanRun one.guest → CanRun other.guest → (view : View)
        (first : ReportOn one.guest one.trace view) (second : ReportOn other.guest other.trace view)
        → first.texts ≡ second.texts → first.text ≡ second.text }
{}

/// Two commands with one job, over equal programs that can be run and inputs, end alike. It does nothing: its contract
/// is a law.
pub fn equal_commands_end_alike()
    // Over folders that tell the same they load the same.
    ensures loads { (old other : Outside) (contents : Files) (job : Job) (put more : RunFiles) (status end : Status)
        (new left : Outside) (first : HasRun old job put status new) (second : HasRun other job more end left)
        → old.files ≡ Some contents → other.files ≡ Some contents
        → (first.program ≡ second.program) × (first.input ≡ second.input) }
    // They have the same status, whether they are runs or reports,
    ensures status { (old other : Outside) (job : Job) (put more : RunFiles) (status end : Status) (new left : Outside)
        (first : HasRun old job put status new) (second : HasRun other job more end left)
        → CanRun first.run.guest → CanRun second.run.guest → first.program ≡ second.program
        → first.input ≡ second.input → status ≡ end }
    // and over equal folders leave equal folders.
    ensures files { (old other : Outside) (job : Job) (watching : Watching) (status end : Status) (new left : Outside)
        (first : HasRun old job (files_asked watching) status new)
        (second : HasRun other job (files_asked watching) end left)
        → CanRun first.run.guest → CanRun second.run.guest → first.program ≡ second.program
        → first.input ≡ second.input → old.files ≡ other.files → new.files ≡ left.files }
{}

/// Two reports with one job and view, over equal programs that can be run, inputs and source texts, are the same bytes.
/// It does nothing: its contract is a law.
pub fn equal_reports_are_one()
    // The folders are equal behind them as before,
    ensures files { (old other : Outside) (job : Job) (positions : Positions) (view : View) (status end : Status)
        (new left : Outside) (first : IsExactReport old job (files_at positions) view status new)
        (second : IsExactReport other job (files_at positions) view end left)
        → CanRun first.run.run.guest → CanRun second.run.run.guest → first.run.program ≡ second.run.program
        → first.run.input ≡ second.run.input → old.files ≡ other.files → new.files ≡ left.files }
    // and so is what the sinks have taken, whatever files are put.
    ensures out { (old other : Outside) (job : Job) (put more : RunFiles) (view : View) (status end : Status)
        (new left : Outside) (first : IsExactReport old job put view status new)
        (second : IsExactReport other job more view end left)
        → CanRun first.run.run.guest → CanRun second.run.run.guest → first.run.program ≡ second.run.program
        → first.run.input ≡ second.run.input → first.report_on.texts ≡ second.report_on.texts
        → old.out.taken ≡ other.out.taken → new.out.taken ≡ left.out.taken }
    // Where the view shows no sources there are none to compare.
    ensures bare { (old other : Outside) (job : Job) (put more : RunFiles) (view : View) (status end : Status)
        (new left : Outside) (first : IsExactReport old job put view status new)
        (second : IsExactReport other job more view end left)
        → CanRun first.run.run.guest → CanRun second.run.run.guest → first.run.program ≡ second.run.program
        → first.run.input ≡ second.run.input → view.auto ≡ false → old.out.taken ≡ other.out.taken
        → new.out.taken ≡ left.out.taken }
    ensures err { (old other : Outside) (job : Job) (put more : RunFiles) (view : View) (status end : Status)
        (new left : Outside) (first : IsExactReport old job put view status new)
        (second : IsExactReport other job more view end left)
        → CanRun first.run.run.guest → CanRun second.run.run.guest → first.run.program ≡ second.run.program
        → first.run.input ≡ second.run.input → old.err.taken ≡ other.err.taken → new.err.taken ≡ left.err.taken }
{}
