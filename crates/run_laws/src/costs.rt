//! The sums of a run's profile.

ghost use Rattle.std.specs.Prelude.{◌≡◌, ◌≢◌, ◌<◌, ◌↔◌, ℕ, Bool, true, List, length, slice_index, sum_by};
ghost use Rattle.call_graph.specs.Groups.{Grouping};
ghost use Rattle.call_graph.specs.Reach.{IsGroup, SameGroup, Steps};
ghost use Rattle.cg_read.specs.Profiles.{Contents};
ghost use Rattle.cg_read.specs.Totals.{total};
ghost use Rattle.cycles.specs.Costs.{IsGroupsOf, IsInclusive, call_arcs, group_at, inclusive_cost};
ghost use Rattle.cycles.specs.Limits.{AreAllWithin, pair_cost};
ghost use Rattle.profile_run.specs.Program.{Program, CanRun};
ghost use Rattle.profile_run.specs.Trace.{Makes, RunStep};
ghost use Rattle.once_each.specs.Once.{once};
ghost use Rattle.run_laws.specs.Profiles.{CountOnce, IsProfileOfRun, graph_of_run, number_in, pair_once};
ghost use Rattle.run_laws.specs.Runs.{events_with_stacks};

/// The inclusive cost of a group, in a profile of all rows of a run, is that of the events during which a function of
/// the group stands on the stack of the event's thread, each counted once.
pub fn inclusive_costs_of_a_run_count_each_event_once()
    // So it is for the list of all groups' costs,
    ensures groups { (guest : Program) (past : List RunStep) (p : Contents) (groups : Grouping) (costs : List (List ℕ))
        → CanRun guest → Makes guest past → IsProfileOfRun guest past p
        → IsGroupsOf p groups → IsInclusive p groups costs → CountOnce guest past p groups costs }
    // for each group of the profile's functions,
    ensures profile { (guest : Program) (past : List RunStep) (p : Contents) (member : ℕ → Bool) (kind : ℕ)
        → CanRun guest → Makes guest past → IsProfileOfRun guest past p
        → kind < length p.events → IsGroup (Steps (call_arcs p)) member
        → inclusive_cost member p kind ≡ once (λ f. member (number_in guest p f)) kind (events_with_stacks past) }
    // and for the group of a function of the map that stands in the profile, in the run's own call graph.
    ensures function { (guest : Program) (past : List RunStep) (p : Contents) (group member : ℕ → Bool) (func kind : ℕ)
        → CanRun guest → Makes guest past → IsProfileOfRun guest past p
        → kind < length p.events → func < length guest.syms.functions → number_in guest p func < length p.functions
        → IsGroup (Steps (graph_of_run guest past)) group → group func ≡ true
        → IsGroup (Steps (call_arcs p)) member → member (number_in guest p func) ≡ true
        → inclusive_cost member p kind ≡ once group kind (events_with_stacks past) }
{}

/// Functions of the map are in one group of a run's call graph exactly where they are in one group of its profile.
pub fn groups_of_a_run_are_those_of_its_profile()
    ensures { (guest : Program) (past : List RunStep) (p : Contents) (f g : ℕ)
        → CanRun guest → Makes guest past → IsProfileOfRun guest past p
        → f < length guest.syms.functions → g < length guest.syms.functions
        → number_in guest p f < length p.functions
        → SameGroup (Steps (graph_of_run guest past)) f g
        ↔ SameGroup (Steps (call_arcs p)) (number_in guest p f) (number_in guest p g) }
{}

/// The cost of the calls of one function by another, of different groups, is that of the events on whose thread's stack
/// the one stands directly on the other, each counted once.
pub fn pair_costs_of_a_run_count_each_event_once()
    ensures { (guest : Program) (past : List RunStep) (p : Contents) (groups : Grouping) (caller callee kind : ℕ)
        → CanRun guest → Makes guest past → IsProfileOfRun guest past p
        → IsGroupsOf p groups → kind < length p.events
        → caller < length p.functions → callee < length p.functions
        → group_at groups caller ≢ group_at groups callee
        → pair_cost caller callee p.call_rows kind ≡ pair_once guest past p caller callee kind }
{}

/// A total is the sum over all events.
pub fn totals_of_a_run_count_all_events()
    ensures { (guest : Program) (past : List RunStep) (p : Contents) (kind : ℕ)
        → CanRun guest → Makes guest past → IsProfileOfRun guest past p
        → kind < length p.events → total p kind ≡ sum_by (λ x. slice_index x.cost kind) (events_with_stacks past) }
{}

/// No sum over the profile of a run passes 64 bits.
pub fn no_sum_of_a_run_is_too_large()
    ensures { (guest : Program) (past : List RunStep) (p : Contents)
        → CanRun guest → Makes guest past → IsProfileOfRun guest past p → AreAllWithin p }
{}
