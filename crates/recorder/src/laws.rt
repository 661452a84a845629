//! Laws of the definitions, each the contract of a function that does nothing.

ghost use Rattle.std.specs.Prelude.{◌≡◌, ◌≢◌, ◌⊎◌, ◌<◌, ◌≤◌, ◌^◌, ℕ, [], List, Some, false, length};
ghost use Rattle.event_costs.specs.declared.event.Event.{Event as EventValue};
ghost use Rattle.event_costs.specs.Keys.{ArcKey as ArcKeyValue, Place as PlaceValue};
ghost use Rattle.event_costs.specs.declared.numbers.ThreadNo.{ThreadNo as ThreadNoValue};
ghost use Rattle.sym_map.specs.SymbolMap.{place_of, SymbolMap};
ghost use Rattle.shadow_stack.specs.Frames.{stack};
ghost use Rattle.shadow_stack.specs.Changes.{after};
ghost use Rattle.shadow_stack.specs.Stacks.{most_frames, root, Stack, top_of};
ghost use Rattle.shadow_stack.specs.Traces.{CountedEvent, events_by, events_on_stacks, EventOnStack, stack_of};
ghost use Rattle.recorder.specs.Accounts.{account, Account, ledger, Recording};
ghost use Rattle.recorder.specs.Bounds.{AllWithin, IsUnit, SumsWithin};
ghost use Rattle.recorder.specs.Entries.{account_of, Entry, HaveWholeCosts, history_of, LeadTo, entries_of};
ghost use Rattle.recorder.specs.Entries.{StandsForHistory};
ghost use Rattle.recorder.specs.Laws.{AreApart, AreOf, IsIn, IsPushed, sum_over_all, counted_events_by, pieces};
ghost use Rattle.recorder.specs.Notes.{CanNote};
ghost use Rattle.recorder.specs.Sums.{arc_calls, arc_cost, of_thread, self_cost};

/// For every list of entries, which are threads that begin, events with their costs, and cuts, of whatever threads in
/// whatever order, a thread's account stands for its events: its tables plus, for each open frame, the total less the
/// frame's start, are the sums of its events since its last cut.
pub fn accounts_stand_for_their_entries()
    ensures stands { (syms : SymbolMap) (thread : ThreadNoValue) (entries : List Entry) → HaveWholeCosts entries
        → StandsForHistory syms (history_of syms thread entries) (account_of syms thread entries) }
    // It is decided by the thread's own entries.
    ensures alone { (syms : SymbolMap) (thread : ThreadNoValue) (xs ys : List Entry)
        → entries_of thread xs ≡ entries_of thread ys → account_of syms thread xs ≡ account_of syms thread ys }
    // A recorder without threads that calls lead on by these entries has these accounts.
    ensures kept { (syms : SymbolMap) (thread : ThreadNoValue) (entries : List Entry) (r s : Recording)
        → r.threads ≡ [] → LeadTo syms r entries s → account s thread ≡ account_of syms thread entries }
{}

/// Segments put together: for every cutting of a list of events, the sums over all segments and threads are the sums
/// over the list.
pub fn segments_sum_up()
    ensures lines { (syms : SymbolMap) (threads : List ThreadNoValue) (cuts : List ℕ) (xs : List EventOnStack) (kind : ℕ)
        (place : PlaceValue)
        → AreApart threads → AreOf threads xs → sum_over_all (self_cost syms kind place) threads (pieces cuts xs)
        ≡ self_cost syms kind place xs }
    ensures arcs { (threads : List ThreadNoValue) (cuts : List ℕ) (xs : List EventOnStack) (kind : ℕ) (arc : ArcKeyValue)
        → AreApart threads → AreOf threads xs → sum_over_all (arc_cost kind arc) threads (pieces cuts xs)
        ≡ arc_cost kind arc xs }
    ensures calls { (syms : SymbolMap) (threads : List ThreadNoValue) (cuts : List ℕ) (xs : List EventOnStack)
        (arc : ArcKeyValue)
        → AreApart threads → AreOf threads xs → sum_over_all (arc_calls syms arc) threads (pieces cuts xs)
        ≡ arc_calls syms arc xs }
{}

/// Each arc with a call or a cost in a segment of a trace, of whatever thread, is the arc of a frame that an event of
/// the trace pushes.
pub fn arcs_are_pushed()
    ensures { (syms : SymbolMap) (trace : List CountedEvent) (cuts : List ℕ) (segment : List EventOnStack) (thread : ThreadNoValue)
        (arc : ArcKeyValue) (kind : ℕ)
        → IsIn (pieces cuts (events_on_stacks syms trace)) segment
        → (arc_calls syms arc (of_thread thread segment) ≢ 0) ⊎ (arc_cost kind arc (of_thread thread segment) ≢ 0)
        → IsPushed syms arc (events_on_stacks syms trace) }
{}

/// Isolation: where two lists of events have the same events of a thread, with their costs, they give the thread the
/// same stack, and the same events with the same stacks, of which its sums are.
pub fn threads_are_isolated()
    ensures seen { (syms : SymbolMap) (thread : ThreadNoValue) (xs ys : List CountedEvent)
        → counted_events_by thread xs ≡ counted_events_by thread ys
        → of_thread thread (events_on_stacks syms xs) ≡ of_thread thread (events_on_stacks syms ys) }
    ensures stack { (syms : SymbolMap) (thread : ThreadNoValue) (xs ys : List CountedEvent) (pc : ℕ)
        → counted_events_by thread xs ≡ counted_events_by thread ys
        → stack_of syms (events_by thread xs) pc ≡ stack_of syms (events_by thread ys) pc }
{}

/// A run's events can be noted: with fewer than 10^12 events so far, each of a cost of zeros and ones, and no deeper a
/// stack than a run has, no sum passes 64 bits.
pub fn events_can_be_noted()
    ensures { (syms : SymbolMap) (event : EventValue) (cost : List ℕ) (a : Account) (steps : ℕ)
        → SumsWithin steps a → steps < 10 ^ 12
        → IsUnit cost → length a.frames ≤ most_frames
        → top_of (stack a.frames) ≡ Some (place_of syms event.done.pc).func
        → CanNote syms event cost a }
{}

/// A recorder without threads has no sums, and where one thread's account changes, those of all threads are of so many
/// events at most if this thread's are.
pub fn bounds_are_of_all_threads()
    ensures none { (steps : ℕ) (r : Recording) → r.threads ≡ [] → AllWithin steps r }
    ensures one { (steps more : ℕ) (r s : Recording) (thread : ThreadNoValue) → steps ≤ more → AllWithin steps r
        → SumsWithin more (account s thread)
        → ((other : ThreadNoValue) → other.0 ≢ thread.0 → ledger s other ≡ ledger r other) → AllWithin more s }
    ensures same { (steps : ℕ) (r s : Recording) → ((thread : ThreadNoValue) → account s thread ≡ account r thread)
        → AllWithin steps r → AllWithin steps s }
{}

/// A thread stands in the function of its pc: its first stack is a root of the function where it begins, and after each
/// event that it goes on from, the top is of the function that the event leads to.
pub fn the_top_is_of_the_pc()
    ensures first { (syms : SymbolMap) (pc : ℕ) → top_of (root syms pc) ≡ Some (place_of syms pc).func }
    ensures next { (syms : SymbolMap) (s : Stack) (event : EventValue) → event.ends ≡ false
        → top_of (after syms s event) ≡ Some (place_of syms event.done.next).func }
{}
