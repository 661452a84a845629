//! How great the sums of a run become.

ghost use Rattle.std.specs.Prelude.{◌^◌, ◌<◌, ℕ, List, All, Contains};
ghost use Rattle.event_costs.specs.Keys.{ArcKey, Place};
ghost use Rattle.sym_map.specs.SymbolMap.{SymbolMap};
ghost use Rattle.shadow_stack.specs.Traces.{CountedEvent, EventOnStack, events_on_stacks};
ghost use Rattle.recorder.specs.Sums.{arc_calls, arc_cost, self_cost};
ghost use Rattle.cg_read.specs.Profiles.{Contents};
ghost use Rattle.cycles.specs.Limits.{IsSum};
ghost use Rattle.once_each.specs.Orderly.{IsRunSized};
ghost use Rattle.once_each.specs.Profiles.{IsProfileOf, Numbering};

/// A run has at most 10^12 events and 4,194,304 frames that are no roots. So none of its sums reaches 2^62: over any of
/// its events, as those of a thread since its last cut, and over its profile.
pub fn sums_of_a_run_are_small()
    ensures lines { (syms : SymbolMap) (xs : List EventOnStack) (kind : ℕ) (place : Place) → IsRunSized xs
        → self_cost syms kind place xs < 2 ^ 62 }
    ensures arcs { (syms : SymbolMap) (trace : List CountedEvent) (xs : List EventOnStack) (kind : ℕ) (arc : ArcKey)
        → All (Contains (events_on_stacks syms trace)) xs → IsRunSized xs → arc_cost kind arc xs < 2 ^ 62 }
    ensures calls { (syms : SymbolMap) (xs : List EventOnStack) (arc : ArcKey) → IsRunSized xs
        → arc_calls syms arc xs < 2 ^ 62 }
    ensures profile { (syms : SymbolMap) (trace : List CountedEvent) (numbers : Numbering) (p : Contents) (position sum : ℕ)
        → IsProfileOf syms trace numbers p → IsRunSized (events_on_stacks syms trace) → IsSum p position sum → sum < 2 ^ 62 }
{}
