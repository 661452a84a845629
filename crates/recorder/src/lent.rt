//! One thread's account, borrowed.

ghost use Rattle.recorder.specs.inner.Places.{IsAt, IsAt-prop};

use crate::event_cost::EventCost;
use crate::recorder::Recorder;
use event_costs::{Cost, Event, FuncId, FuncSet, Noted, ThreadNo};
use shadow_stack::Frame;
use sym_map::SymMap;

/// The stack and tables of one thread, for writing. What is done through it changes this thread's frames and rows and
/// no other thread's.
#[derive(Drop)]
pub struct Lent<'a> {
    recorder: &'a mut Recorder,
    thread: ThreadNo,
    place: usize,
    ghost at: { IsAt recorder.now thread place } by { IsAt-prop recorder.now thread place },
}

impl<'a> Lent<'a> {
    ghost use Rattle.std.specs.Prelude.{◌≡◌, ◌≢◌, ◌+◌, ◌<◌, ◌≤◌, ◌∷◌, ◌++◌, [], List, ℕ, IsNone, Some, ◌↔◌};
    ghost use Rattle.std.specs.Prelude.{if◌then◌else◌, length, reverse, slice_get};
    ghost use Rattle.recorder.specs.Accounts.{account, IsReady, ledger, knows, live, live_in};
    ghost use Rattle.recorder.specs.Bounds.{IsUnit, SumsWithin};
    ghost use Rattle.recorder.specs.Entries.{Leads, Notes};
    ghost use Rattle.recorder.specs.Lending.{lender, lent_account, lent_ledger, recording, SameLoan, thread_of};
    ghost use Rattle.event_costs.specs.declared.numbers.ThreadNo.{ThreadNo as ThreadNoValue};
    ghost use Rattle.sym_map.specs.SymbolMap.{place_of};
    ghost use Rattle.arc_costs.specs.Lines.{has_line};
    ghost use Rattle.recorder.specs.Notes.{CanNote, frames_freed, frames_used, NeedsNoRoom, account_after_note, noted_answer};
    ghost use Rattle.recorder.specs.Notes.{places_used};
    ghost use Rattle.recorder.specs.Standing.{counted_event, event_on_stack, Stands, StandsFor};
    ghost use Rattle.shadow_stack.specs.Changes.{after as after_event, drop_count};
    ghost use Rattle.shadow_stack.specs.Traces.{CountedEvent, EventOnStack};
    ghost use Rattle.shadow_stack.specs.Frames.{count_pushed, pushed_activation, stack};
    ghost use Rattle.shadow_stack.specs.Stacks.{Stack, most_frames, top_of};

    pub(crate) fn new(recorder: &'a mut Recorder, thread: ThreadNo, place: usize) -> Lent<'a>
        requires { IsAt recorder.old thread place }
        ensures recorder { recording result ≡ recorder.old }
        ensures thread { thread_of result ≡ thread }
        ensures lender { lender result ≡ recorder.entry.ghost_name }
    {
        Lent {
            recorder,
            thread,
            place,
        }
    }

    /// The function of the top frame, nothing exactly after the thread's end.
    pub fn top(&self) -> Option<FuncId>
        ensures top { result ≡ top_of (stack (lent_account self.now).frames) }
        ensures none { IsNone result ↔ ((lent_account self.now).frames ≡ []) }
    {
        self.recorder.top_at(self.place, self.thread)
    }

    /// How many frames there are.
    pub fn depth(&self) -> usize
        ensures { result ≡ length (lent_account self.now).frames }
    {
        self.recorder.depth_at(self.place, self.thread)
    }

    /// The frame at this place, counted from the bottom: the root is at 0.
    pub fn frame(&self, i: usize) -> Frame
        requires { i < length (lent_account self.now).frames }
        ensures { slice_get (reverse (lent_account self.now).frames) i ≡ Some result }
    {
        self.recorder.frame_at(self.place, self.thread, i)
    }

    /// Counts an event of this thread, and then changes its stack. It takes no memory.
    pub fn note(&mut self, event: &Event, cost: &Cost, syms: &SymMap, after: &FuncSet) -> Noted
        requires thread { event.now.thread ≡ thread_of self.old }
        requires ready { IsReady (recording self.old) (thread_of self.old) }
        requires few { live (recording self.old) < most_frames }
        requires can { CanNote syms.now event.now cost.now (lent_account self.old) }
        ensures account { lent_account self.new ≡ account_after_note syms.now event.now cost.now (lent_account self.old) }
        ensures answer { result ≡ noted_answer syms.now after.now event.now (lent_account self.old).frames }
        // Every other thread is as before.
        ensures others { (other : ThreadNoValue) → other.0 ≢ (thread_of self.old).0
            → ledger (recording self.new) other ≡ ledger (recording self.old) other }
        ensures known { (other : ThreadNoValue) → knows (recording self.new) other ≡ knows (recording self.old) other }
        ensures entry { Leads syms.now (recording self.old) (Notes (counted_event event.now cost.now)) (recording self.new) }
        // An account that stands for events stands for one more.
        ensures stands { (s : Stack) (since : List EventOnStack) → Stands syms.now s since (lent_account self.old)
            → Stands syms.now (after_event syms.now s event.now) (since ++ event_on_stack s event.now cost.now ∷ [])
            (lent_account self.new) }
        ensures stands_for { (s : Stack) (earlier : List (List CountedEvent)) (last : List CountedEvent)
            → StandsFor syms.now s earlier last (lent_account self.old)
            → StandsFor syms.now s earlier (last ++ counted_event event.now cost.now ∷ []) (lent_account self.new) }
        // The sums of an account are those of one event more at most.
        ensures bounds { (steps : ℕ) → IsUnit cost.now → SumsWithin steps (lent_account self.old)
            → SumsWithin (steps + 1) (lent_account self.new) }
        // Room falls by one where a frame, a place or an arc is new; a frame that goes leaves room for another.
        ensures frame_room { (recording self.new).spare + frames_used syms.now event.now (lent_account self.old)
            ≡ (recording self.old).spare + frames_freed syms.now event.now (lent_account self.old) }
        ensures line_room { (lent_ledger self.new).line_room + places_used syms.now event.now (lent_account self.old)
            ≡ (lent_ledger self.old).line_room }
        ensures arc_room { (lent_ledger self.old).arc_room
            ≤ (lent_ledger self.new).arc_room + frames_used syms.now event.now (lent_account self.old) }
        // An event that needs no room leaves every thread ready that was.
        ensures lasting { NeedsNoRoom syms.now event.now (lent_account self.old)
            → (other : ThreadNoValue) → IsReady (recording self.old) other → IsReady (recording self.new) other }
        // The live frames of all threads change by those of this one.
        ensures live { live (recording self.new) + live_in (lent_account self.old).frames
            ≡ live (recording self.old) + live_in (lent_account self.new).frames }
        ensures loan { SameLoan self.old self.new }
    {
        self.note_event(event, cost, syms, after)
    }

    /// What `note` does, for a cost of any kind.
    #[inline(always)]
    pub fn note_event<C: EventCost>(
        &mut self,
        event: &Event,
        cost: &C,
        syms: &SymMap,
        after: &FuncSet,
    ) -> Noted
        requires thread { event.now.thread ≡ thread_of self.old }
        requires ready { IsReady (recording self.old) (thread_of self.old) }
        requires few { live (recording self.old) < most_frames }
        requires can { CanNote syms.now event.now (C.numbers cost.now) (lent_account self.old) }
        ensures account { lent_account self.new ≡ account_after_note syms.now event.now (C.numbers cost.now) (lent_account self.old) }
        ensures answer { result ≡ noted_answer syms.now after.now event.now (lent_account self.old).frames }
        ensures others { (other : ThreadNoValue) → other.0 ≢ (thread_of self.old).0
            → ledger (recording self.new) other ≡ ledger (recording self.old) other }
        ensures known { (other : ThreadNoValue) → knows (recording self.new) other ≡ knows (recording self.old) other }
        ensures entry { Leads syms.now (recording self.old) (Notes (counted_event event.now (C.numbers cost.now)))
            (recording self.new) }
        ensures stands { (s : Stack) (since : List EventOnStack) → Stands syms.now s since (lent_account self.old)
            → Stands syms.now (after_event syms.now s event.now)
            (since ++ event_on_stack s event.now (C.numbers cost.now) ∷ [])
            (lent_account self.new) }
        ensures stands_for { (s : Stack) (earlier : List (List CountedEvent)) (last : List CountedEvent)
            → StandsFor syms.now s earlier last (lent_account self.old)
            → StandsFor syms.now s earlier (last ++ counted_event event.now (C.numbers cost.now) ∷ []) (lent_account self.new) }
        ensures bounds { (steps : ℕ) → IsUnit (C.numbers cost.now) → SumsWithin steps (lent_account self.old)
            → SumsWithin (steps + 1) (lent_account self.new) }
        ensures frame_room { (recording self.new).spare + frames_used syms.now event.now (lent_account self.old)
            ≡ (recording self.old).spare + frames_freed syms.now event.now (lent_account self.old) }
        ensures line_room { (lent_ledger self.new).line_room + places_used syms.now event.now (lent_account self.old)
            ≡ (lent_ledger self.old).line_room }
        ensures arc_room { (lent_ledger self.old).arc_room
            ≤ (lent_ledger self.new).arc_room + frames_used syms.now event.now (lent_account self.old) }
        ensures lasting { NeedsNoRoom syms.now event.now (lent_account self.old)
            → (other : ThreadNoValue) → IsReady (recording self.old) other → IsReady (recording self.new) other }
        ensures live { live (recording self.new) + live_in (lent_account self.old).frames
            ≡ live (recording self.old) + live_in (lent_account self.new).frames }
        ensures loan { SameLoan self.old self.new }
    {
        self.recorder.note_at(self.place, event, cost, syms, after)
    }
}
