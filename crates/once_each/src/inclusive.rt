//! Inclusive costs, and the costs of pairs.

ghost use Rattle.std.specs.Prelude.{◌≡◌, ◌<◌, ◌==◌, ℕ, Bool, true, List, length};
ghost use Rattle.sym_map.specs.SymbolMap.{SymbolMap};
ghost use Rattle.shadow_stack.specs.Traces.{CountedEvent, events_on_stacks};
ghost use Rattle.call_graph.specs.Reach.{IsGroup, SameGroup, Steps};
ghost use Rattle.cg_read.specs.Profiles.{Contents};
ghost use Rattle.cycles.specs.Costs.{call_arcs, inclusive_cost};
ghost use Rattle.cycles.specs.Limits.{pair_cost};
ghost use Rattle.once_each.specs.Graphs.{AreOfMap, AreOwnIn, IsOwn, graph};
ghost use Rattle.once_each.specs.Once.{once, once_pair};
ghost use Rattle.once_each.specs.Orderly.{FitTops};
ghost use Rattle.once_each.specs.Profiles.{IsProfileOf, Numbering};

/// Let a trace have the events of any threads in any interleaving, each with a pc of the function on top of its
/// thread's stack, and let a profile have the rows of all its threads, wherever it was cut. Then a group's inclusive
/// cost is that of the events during which a function of the group stands on the stack of the event's thread, each
/// counted once.
pub fn inclusive_costs_count_each_event_once()
    // The group is one of the profile, whose functions have any numbers.
    ensures profile { (syms : SymbolMap) (trace : List CountedEvent) (numbers : Numbering) (p : Contents)
        (member : ℕ → Bool) (kind : ℕ)
        → FitTops syms trace → IsProfileOf syms trace numbers p → kind < length p.events
        → IsGroup (Steps (call_arcs p)) member
        → inclusive_cost member p kind ≡ once (λ f. member (numbers.func f)) kind (events_on_stacks syms trace) }
    // The group is one of the trace's graph.
    ensures trace { (syms : SymbolMap) (trace : List CountedEvent) (numbers : Numbering) (p : Contents)
        (group member : ℕ → Bool) (kind : ℕ)
        → FitTops syms trace → IsProfileOf syms trace numbers p → kind < length p.events
        → IsGroup (Steps (graph syms trace)) group → ((f : ℕ) → member (numbers.func f) ≡ group f)
        → inclusive_cost member p kind ≡ once group kind (events_on_stacks syms trace) }
    // The groups are those of one function, in the profile and in the trace's graph. No other function of the map has
    // its number, or that of one that calls or is called.
    ensures function { (syms : SymbolMap) (trace : List CountedEvent) (numbers : Numbering) (p : Contents)
        (group member : ℕ → Bool) (func kind : ℕ)
        → FitTops syms trace → IsProfileOf syms trace numbers p → kind < length p.events
        → AreOfMap syms trace → AreOwnIn syms (graph syms trace) numbers.func
        → func < length syms.functions → IsOwn syms numbers.func func
        → IsGroup (Steps (graph syms trace)) group → group func ≡ true
        → IsGroup (Steps (call_arcs p)) member → member (numbers.func func) ≡ true
        → inclusive_cost member p kind ≡ once group kind (events_on_stacks syms trace) }
{}

/// The cost of the calls of one function by another, of different groups, is that of the events on whose thread's stack
/// a frame of the callee stands directly on one of the caller, each counted once.
pub fn pair_costs_count_each_event_once()
    // The functions are those of the profile, of any numbers.
    ensures profile { (syms : SymbolMap) (trace : List CountedEvent) (numbers : Numbering) (p : Contents)
        (caller callee kind : ℕ)
        → IsProfileOf syms trace numbers p → kind < length p.events
        → (SameGroup (Steps (call_arcs p)) caller callee → ⊥)
        → pair_cost caller callee p.call_rows kind
        ≡ once_pair (λ f. numbers.func f == caller) (λ f. numbers.func f == callee) kind (events_on_stacks syms trace) }
    // The functions are those of the map. No other function has their numbers, or that of one that calls or is called.
    ensures functions { (syms : SymbolMap) (trace : List CountedEvent) (numbers : Numbering) (p : Contents)
        (caller callee kind : ℕ)
        → IsProfileOf syms trace numbers p → kind < length p.events
        → AreOfMap syms trace → AreOwnIn syms (graph syms trace) numbers.func
        → caller < length syms.functions → callee < length syms.functions
        → IsOwn syms numbers.func caller → IsOwn syms numbers.func callee
        → (SameGroup (Steps (graph syms trace)) caller callee → ⊥)
        → pair_cost (numbers.func caller) (numbers.func callee) p.call_rows kind
        ≡ once_pair (λ f. f == caller) (λ f. f == callee) kind (events_on_stacks syms trace) }
{}
