//! The graph of a trace, and that of its rows.

ghost use Rattle.std.specs.Prelude.{◌↔◌, ◌<◌, ℕ, List, All, length};
ghost use Rattle.sym_map.specs.SymbolMap.{SymbolMap};
ghost use Rattle.shadow_stack.specs.Traces.{CountedEvent, events_on_stacks};
ghost use Rattle.call_graph.specs.Reach.{SameGroup, Steps};
ghost use Rattle.cg_read.specs.Profiles.{Contents};
ghost use Rattle.cycles.specs.Costs.{call_arcs};
ghost use Rattle.once_each.specs.Graphs.{AreApartIn, AreOfMap, AreOwnIn, IsOwn, TakesPart, graph};
ghost use Rattle.once_each.specs.Parts.{ArePartsOfTrace, ThreadRows, row_arcs};
ghost use Rattle.once_each.specs.Profiles.{IsProfileOf, Numbering};

/// The rows of a trace's parts have an arc between two functions exactly where an event pushes a frame of the one on a
/// frame of the other. So both have the same groups.
pub fn rows_have_the_graph_of_the_trace()
    ensures steps { (syms : SymbolMap) (trace : List CountedEvent) (parts : List (List ThreadRows)) (f g : ℕ)
        → ArePartsOfTrace syms trace parts → Steps (graph syms trace) f g ↔ Steps (row_arcs parts) f g }
    ensures groups { (syms : SymbolMap) (trace : List CountedEvent) (parts : List (List ThreadRows)) (f g : ℕ)
        → ArePartsOfTrace syms trace parts
        → SameGroup (Steps (graph syms trace)) f g ↔ SameGroup (Steps (row_arcs parts)) f g }
    // Under other numbers too, as long as functions that call or are called have numbers of their own.
    ensures numbered { (syms : SymbolMap) (trace : List CountedEvent) (numbers : Numbering) (p : Contents) (f g : ℕ)
        → IsProfileOf syms trace numbers p → AreApartIn (graph syms trace) numbers.func
        → TakesPart (graph syms trace) f → TakesPart (graph syms trace) g
        → SameGroup (Steps (graph syms trace)) f g ↔ SameGroup (Steps (call_arcs p)) (numbers.func f) (numbers.func g) }
    // So it is for all functions of the map, as long as no other function has the numbers of those.
    ensures known { (syms : SymbolMap) (trace : List CountedEvent) (numbers : Numbering) (p : Contents) (f g : ℕ)
        → IsProfileOf syms trace numbers p → AreOfMap syms trace → AreOwnIn syms (graph syms trace) numbers.func
        → f < length syms.functions → g < length syms.functions → IsOwn syms numbers.func f
        → SameGroup (Steps (graph syms trace)) f g ↔ SameGroup (Steps (call_arcs p)) (numbers.func f) (numbers.func g) }
{}

/// Where the events of a trace lie and lead to in functions of the map, only these stand on its stacks, and only these
/// call or are called.
pub fn functions_of_a_trace_are_of_the_map()
    ensures stacks { (syms : SymbolMap) (trace : List CountedEvent) → AreOfMap syms trace
        → All (λ x. All (λ a. a.func.0 < length syms.functions) x.stack) (events_on_stacks syms trace) }
    ensures graph { (syms : SymbolMap) (trace : List CountedEvent) (f : ℕ) → AreOfMap syms trace
        → TakesPart (graph syms trace) f → f < length syms.functions }
{}
