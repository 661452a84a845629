//! The events of one thread, and those of one segment, among all events of a trace.

ghost use Rattle.std.specs.Prelude.{◌≡◌, ◌++◌, [], ℕ, List, flat_map};
ghost use Rattle.event_costs.specs.declared.numbers.ThreadNo.{ThreadNo};
ghost use Rattle.sym_map.specs.SymbolMap.{SymbolMap};
ghost use Rattle.shadow_stack.specs.Stacks.{root};
ghost use Rattle.shadow_stack.specs.Traces.{CountedEvent, events_on_stacks, events_on_stacks_from};
ghost use Rattle.recorder.specs.Laws.{counted_events_by};
ghost use Rattle.recorder.specs.Standing.{last_events_on_stack};
ghost use Rattle.recorder.specs.Sums.{of_thread};
ghost use Rattle.once_each.specs.Segments.{BeginsAt, own_pieces, stacked_pieces};

/// The events of a trace in pieces, each with the stack of its thread before it, and those of one thread among them.
pub fn pieces_have_the_events_of_their_threads()
    // The pieces of a trace are the segments of its events.
    ensures segments { (syms : SymbolMap) (pieces : List (List CountedEvent))
        → flat_map (λ segment. segment) (stacked_pieces syms [] pieces) ≡ events_on_stacks syms (flat_map (λ piece. piece) pieces) }
    // A thread's events in the last of them are those of the last piece of its own events.
    ensures last { (syms : SymbolMap) (thread : ThreadNo) (pc : ℕ) (pieces : List (List CountedEvent)) (last : List CountedEvent)
        → BeginsAt thread pc (flat_map (λ piece. piece) pieces ++ last)
        → of_thread thread (events_on_stacks_from syms (flat_map (λ piece. piece) pieces) last)
        ≡ last_events_on_stack syms (root syms pc) (own_pieces thread pieces) (counted_events_by thread last) }
{}
