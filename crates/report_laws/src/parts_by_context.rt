//! Profiles of a run that is watched by calling context.

ghost use Rattle.std.specs.Prelude.{◌≡◌, ◌<◌, [], ℕ, Bool, List, length, slice_index, slice_index_or};
ghost use Rattle.call_graph.specs.Groups.{Grouping, is_member};
ghost use Rattle.cg_read.specs.Profiles.{Contents};
ghost use Rattle.cycles.specs.Costs.{IsGroupsOf, IsInclusive};
ghost use Rattle.profile_run.specs.Program.{Program, CanRun};
ghost use Rattle.profile_run.specs.Trace.{Makes, RunStep};
ghost use Rattle.report_laws.specs.Chosen.{events_chosen};
ghost use Rattle.report_laws.specs.Contexts.{IsProfileByContext, context_in, once_in};

/// Let a profile have the rows of a run, or of some of its threads and segments, by calling context. The inclusive cost
/// of a group is that of their events during which a frame in a context of the group stands on the stack of the event's
/// thread, each counted once: of a function with its callers, while it stands there directly on these.
pub fn inclusive_costs_by_context_count_each_event_once()
    ensures { (guest : Program) (past : List RunStep) (callers : ℕ) (chosen : ℕ → ℕ → Bool) (p : Contents)
        (groups : Grouping) (costs : List (List ℕ)) (group kind : ℕ) → CanRun guest → Makes guest past
        → IsProfileByContext guest callers chosen past p → IsGroupsOf p groups → IsInclusive p groups costs
        → group < length costs → kind < length p.events
        → slice_index (slice_index_or costs group []) kind
        ≡ once_in callers (λ c. is_member groups group (context_in guest p c)) kind (events_chosen guest chosen past) }
{}
