//! Some of the parts of a run, read and joined.

ghost use Rattle.std.specs.Prelude.{◌≡◌, ◌<◌, [], ℕ, Bool, List, length, map, slice_index, slice_index_or};
ghost use Rattle.call_graph.specs.Groups.{Grouping, is_member};
ghost use Rattle.cg_read.specs.Profiles.{Contents, IsProfile};
ghost use Rattle.cycles.specs.Costs.{IsGroupsOf, IsInclusive};
ghost use Rattle.profile_files.specs.Joined.{Joins, no_rows};
ghost use Rattle.profile_run.specs.Program.{Program, CanRun};
ghost use Rattle.profile_run.specs.Trace.{Makes, Stop, RunStep};
ghost use Rattle.once_each.specs.Once.{once};
ghost use Rattle.reads_back.specs.Joined.{texts_of};
ghost use Rattle.run_laws.specs.OwnParts.{files_of_run};
ghost use Rattle.run_laws.specs.Profiles.{number_in};
ghost use Rattle.run_laws.specs.Runs.{parts_written};
ghost use Rattle.report_laws.specs.Chosen.{IsProfileOfParts, events_chosen, file_written, parts_chosen};

/// Let some of the files of a run be read and joined, as `annotate` does it: all of them, or those of one thread, or of
/// some segments. The inclusive cost of a group is that of the events of these threads in these segments during which a
/// function of the group stands on the stack of the event's thread, each counted once.
pub fn inclusive_costs_of_some_parts_count_each_event_once()
    // The files of a run are those of its parts.
    ensures files { (guest : Program) (trace : List RunStep) (stop : Stop)
        → files_of_run guest trace stop ≡ map (file_written guest) (parts_written guest trace) }
    // Some of them, joined, are a profile of their rows,
    ensures joined { (guest : Program) (past : List RunStep) (chosen : ℕ → ℕ → Bool) (p : Contents) → CanRun guest
        → Makes guest past → 0 < length (parts_chosen guest chosen past) → IsProfile p
        → Joins (no_rows []) (texts_of guest.syms (parts_chosen guest chosen past)) p
        → IsProfileOfParts guest chosen past p }
    // whose groups have these costs.
    ensures once { (guest : Program) (past : List RunStep) (chosen : ℕ → ℕ → Bool) (p : Contents) (groups : Grouping)
        (costs : List (List ℕ)) (group kind : ℕ) → CanRun guest → Makes guest past
        → IsProfileOfParts guest chosen past p → IsGroupsOf p groups → IsInclusive p groups costs
        → group < length costs → kind < length p.events
        → slice_index (slice_index_or costs group []) kind
        ≡ once (λ f. is_member groups group (number_in guest p f)) kind (events_chosen guest chosen past) }
{}
