//! What holds of the waits of every run. A run's steps are such that each may follow those before it.

ghost use Rattle.std.specs.Prelude.{◌≡◌, ◌≤◌, [], List, All};
ghost use Rattle.sym_map.specs.SymbolMap.{SymbolMap};
ghost use Rattle.part_dump.specs.Calls.{Call};
ghost use Rattle.part_dump.specs.Steps.{Step, thread_of};
ghost use Rattle.part_dump.specs.Watched.{steps_in};
ghost use Rattle.part_dump.specs.Watching.{after_calls};
ghost use Rattle.wait_report.specs.Keeping.{WaitState, nothing, watching};
ghost use Rattle.wait_report.specs.Standing.{HaveSums, MayAllFollow, StandsFor};
ghost use Rattle.wait_report.specs.Waits.{AreOfOthers};

/// What a watch keeps after a whole run stands for the run's steps, so its rows are those of their waits. It does
/// nothing: its contract is a law.
pub fn what_is_kept_stands_for_the_run()
    ensures { (syms : SymbolMap) (first : WaitState) (calls : List Call) → first.books ≡ nothing
        → MayAllFollow [] (steps_in calls)
        → StandsFor (after_calls watching syms first calls).books (steps_in calls) }
{}

/// No step that passes while a thread waits is one of its own. It does nothing: its contract is a law.
pub fn who_waits_makes_no_step()
    ensures { (steps : List Step) → MayAllFollow [] steps → AreOfOthers steps }
{}

/// The costs of all rows together have 64 bits, since a thread waits once at a time, and there are at most 65,535. It
/// does nothing: its contract is a law.
pub fn sums_of_all_rows_fit()
    ensures { (steps : List Step) → MayAllFollow [] steps → All (λ x. thread_of x ≤ 65535) steps → HaveSums steps }
{}
