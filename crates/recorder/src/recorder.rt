//! The accounts of all threads.

ghost use Rattle.std.specs.Prelude.{◌≡◌, ◌≢◌, ◌==◌, ◌||◌, ◌+◌, ◌/◌, ◌<◌, ◌≤◌, [], ◌∷◌, ◌++◌, All, Bool, List, ℕ, IfOk, IfSome};
ghost use Rattle.std.specs.Prelude.{IsNone, is_some, None, OnOk, OnErr, Some, false};
ghost use Rattle.std.specs.Prelude.{true, if◌then◌else◌, length, position};
ghost use Rattle.std.specs.Prelude.{reverse, slice_get, slice_index_or, slice_set, ◌↔◌};
ghost use Rattle.std.specs.Borrow.{sem};
ghost use Rattle.event_costs.specs.Costs.{IsWhole};
ghost use Rattle.event_costs.specs.declared.numbers.ThreadNo.{ThreadNo as ThreadNoValue};
ghost use Rattle.sym_map.specs.SymbolMap.{place_of, SymbolMap};
ghost use Rattle.shadow_stack.specs.Changes.{after as after_event, change, drop_count, no_change};
ghost use Rattle.shadow_stack.specs.Frames.{count_pushed, pushed_activation, stack};
ghost use Rattle.shadow_stack.specs.Stacks.{Stack, most_frames, root, top_of};
ghost use Rattle.shadow_stack.specs.Traces.{CountedEvent, EventOnStack};
ghost use Rattle.arc_costs.specs.Lines.{has_line};
ghost use Rattle.recorder.specs.Accounts.{account, IsReady, is_ledger_of, ledger, knows, live, live_in, Recording};
ghost use Rattle.recorder.specs.Bounds.{IsUnit, SumsWithin};
ghost use Rattle.recorder.specs.Entries.{Begins, Cuts, Leads, Notes};
ghost use Rattle.recorder.specs.Lending.{lender, LendsAccount, recording, thread_of};
ghost use Rattle.recorder.specs.Notes.{CanNote, account_after_cut, frames_freed, frames_used, NeedsNoRoom, places_used, account_after_note};
ghost use Rattle.recorder.specs.Notes.{noted_answer, first_account};
ghost use Rattle.recorder.specs.Standing.{AreRowsOf, counted_event, event_on_stack, IsCutOf, last_events_on_stack, SameSums, Stands, StandsFor};
ghost use Rattle.recorder.specs.inner.Active.{IsMarkedReady, may_have};
ghost use Rattle.recorder.specs.inner.Books.{Adds};
ghost use Rattle.recorder.specs.inner.Places.{IsAt, IsReadyAt, IsRemembered, ledger_at};

use crate::active::Active;
use crate::book::{Book, Step};
use crate::event_cost::EventCost;
use crate::lent::Lent;
use arc_costs::{NearRows, TableRows, Tables};
use byte_text::OutOfMemory;
use event_costs::{Cost, Event, FuncId, FuncSet, Noted, ThreadNo};
use indexmap::IndexSet;
use shadow_stack::{Arena, Frame, frame_at, top_of};
use std::alloc::Global;
use std::marker::Model;
use sym_map::{NearPlaces, SymMap};

/// How many frames that are no roots may be live: an event is noted where there are fewer.
pub const MOST_FRAMES: u32 = 4_194_304;

/// The call stacks and tables of all threads. Contracts see what is kept of each thread, in the order of their starts,
/// and how many more frames fit without memory.
#[derive(Drop)]
pub struct Recorder {
    alloc: Global,
    /// The frames of all threads.
    arena: Arena,
    /// The threads in the order of their starts, and what is kept of each at the same place.
    threads: IndexSet<ThreadNo>,
    books: Vec<Book>,
    /// How many frames are no roots.
    entered: usize,
    /// Where the places of instructions are looked for first.
    places: NearPlaces,
    /// Where the rows of lines are looked for first.
    near: NearRows,
    ready: Option<ReadyThread>,
    /// Which threads a cut has to ask.
    active: Active,
}

/// The thread that is remembered as ready, and its place.
#[derive(Clone, Copy, Debug)]
struct ReadyThread {
    thread: ThreadNo,
    place: usize,
}

impl Model for Recorder {
    ghost use Rattle.std.specs.Prelude.{map};
    ghost use Rattle.recorder.specs.Accounts.{Recording};
    ghost use Rattle.recorder.specs.inner.Books.{AreSoundBooks, ledger_of};
    ghost use Rattle.recorder.specs.inner.Active.{AreMarked, IsMarkedReady};
    ghost use Rattle.recorder.specs.inner.Places.{IsRemembered};

    ghost Value = { Recording };

    ghost view = { λ r. record { threads = map (ledger_of r.arena.slots) r.books.items; spare = r.arena.spare } };

    ghost invariant = { λ r. AreSoundBooks r.arena.slots r.threads.keys r.books.items r.entered
        × IsRemembered (record { threads = map (ledger_of r.arena.slots) r.books.items; spare = r.arena.spare })
        r.ready
        × AreMarked (record { threads = map (ledger_of r.arena.slots) r.books.items; spare = r.arena.spare })
        r.active.words.items
        × IsMarkedReady r.ready r.active.words.items };
}

impl Recorder {
    /// A recorder that knows no thread. It takes no memory.
    pub fn new(alloc: Global) -> Recorder
        ensures threads { result.threads ≡ [] }
        ensures room { result.spare ≡ 0 }
    {
        Recorder {
            alloc,
            arena: Arena::new(alloc),
            threads: IndexSet::new(alloc),
            books: Vec::new(alloc),
            entered: 0,
            places: NearPlaces::new(alloc),
            near: NearRows::new(alloc),
            ready: None,
            active: Active::new(alloc),
        }
    }

    /// The place of a thread in the order of the starts. It is remembered, or looked for at its number first.
    #[inline(always)]
    fn place_of(&self, thread: ThreadNo) -> Option<usize>
        ensures place { result ≡ position (is_ledger_of thread) self.now.threads }
        ensures found { is_some result ≡ knows self.now thread }
    {
        if let Some(place) = self.place_remembered(thread) {
            return Some(place);
        }
        if let Some(place) = self.place_near(thread) {
            return Some(place);
        }
        self.place_by_hash(thread)
    }

    /// The place of the thread that is remembered as ready.
    #[inline(always)]
    fn place_remembered(&self, thread: ThreadNo) -> Option<usize>
        ensures { IfSome result (λ place. IsReadyAt self.now (record { thread = thread; place = place })) }
    {
        match self.ready {
            Some(ready) if ready.thread == thread => Some(ready.place),
            _ => None,
        }
    }

    /// The place of a thread that stands at its number. Threads are mostly started by rising number from 1 on, and this
    /// costs no hash.
    #[inline(always)]
    fn place_near(&self, thread: ThreadNo) -> Option<usize>
        ensures place { IfSome result (λ place. position (is_ledger_of thread) self.now.threads ≡ Some place) }
        ensures known { IfSome result (λ _. knows self.now thread ≡ true) }
    {
        let near = (thread.0 as usize).wrapping_sub(1);
        if let Some(other) = self.threads.as_slice().get(near)
            && *other == thread
        {
            return Some(near);
        }
        None
    }

    /// What `place_of` does, wherever the thread stands. It has a frame of its own, so that a thread which stands at
    /// its number needs none.
    #[cold]
    #[inline(never)]
    fn place_by_hash(&self, thread: ThreadNo) -> Option<usize>
        ensures place { result ≡ position (is_ledger_of thread) self.now.threads }
        ensures found { is_some result ≡ knows self.now thread }
    {
        self.threads.get_index_of(&thread)
    }

    /// Whether the thread was started.
    pub fn knows(&self, thread: ThreadNo) -> bool
        ensures { result ≡ knows self.now thread }
    {
        self.place_of(thread).is_some()
    }

    /// Begins the account of a thread that begins at this pc.
    pub fn start(&mut self, thread: ThreadNo, pc: u32, syms: &SymMap) -> Result<(), OutOfMemory>
        requires unknown { knows self.old thread ≡ false }
        ensures threads { OnOk result (self.new.threads
            ≡ self.old.threads ++ record { account = first_account syms.now thread pc; line_room = 1; arc_room = 1 } ∷ []) }
        ensures account { OnOk result (account self.new thread ≡ first_account syms.now thread pc) }
        ensures others { OnOk result ((other : ThreadNoValue) → other.0 ≢ thread.0
            → ledger self.new other ≡ ledger self.old other) }
        ensures known { OnOk result ((other : ThreadNoValue)
            → knows self.new other ≡ knows self.old other || other.0 == thread.0) }
        ensures stands { OnOk result (StandsFor syms.now (root syms.now pc) [] [] (account self.new thread)) }
        ensures bounds { OnOk result (SumsWithin 0 (account self.new thread)) }
        ensures entry { OnOk result (Leads syms.now self.old (Begins thread pc) self.new) }
        ensures err { OnErr result (self.new.threads ≡ self.old.threads) }
        ensures room { self.old.spare ≤ self.new.spare + 1 }
    {
        self.ready = None;
        self.places.prepare()?;
        self.near.prepare()?;
        self.active.prepare()?;
        self.arena.reserve()?;
        self.books.reserve(1)?;
        self.threads.insert(thread)?;
        let head = self.arena.root(syms.place(pc).func, &Cost::ZERO);
        self.books
            .push(Book::new(self.alloc, thread, head))
            .unwrap();
        Ok(())
    }

    /// Borrows one thread's stack and tables for writing; nothing exactly where the thread isn't known. It takes no
    /// memory.
    #[inline(always)]
    pub fn lend(&mut self, thread: ThreadNo) -> Option<Lent<'_>>
        ensures* lends { sem 𝓛 (LendsAccount self.entry result) }
        ensures none { IsNone result ↔ (knows self.old thread ≡ false) }
        ensures recorder { IfSome result (λ lent. recording lent ≡ self.old) }
        ensures thread { IfSome result (λ lent. thread_of lent ≡ thread) }
        ensures lender { IfSome result (λ lent. lender lent ≡ self.entry.ghost_name) }
    {
        let place = self.place_of(thread)?;
        Some(Lent::new(self, thread, place))
    }

    /// Whether the thread is known and its next note takes no memory, so that `ready` has nothing to do.
    #[inline(always)]
    pub fn is_ready(&self, thread: ThreadNo) -> bool
        ensures { result ≡ true ↔ (knows self.now thread ≡ true) × IsReady self.now thread }
    {
        let Some(place) = self.place_of(thread) else {
            return false;
        };
        if !self.arena.has_room() {
            return false;
        }
        self.books[place].rows.has_room()
    }

    /// Whether it is remembered that the thread is ready: one comparison. What is remembered lasts until a note of
    /// another thread or one that leaves no room, a cut, `ready` or the start of a thread.
    #[inline(always)]
    pub fn is_remembered(&self, thread: ThreadNo) -> bool
        ensures { result ≡ true → (knows self.now thread ≡ true) × IsReady self.now thread }
    {
        self.place_remembered(thread).is_some()
    }

    /// Remembers the thread if it is ready; else no thread is remembered. The answer is that of `is_ready`.
    pub fn remember(&mut self, thread: ThreadNo) -> bool
        ensures ready { result ≡ true ↔ (knows self.old thread ≡ true) × IsReady self.old thread }
        ensures same { self.new ≡ self.old }
    {
        let place = self.place_of(thread);
        let is_ready = self.is_ready(thread);
        self.active.mark(thread);
        self.ready = ready_at(is_ready, thread, place);
        is_ready
    }

    /// Makes room, so that notes of this thread take no memory until one uses room or a thread is started.
    pub fn ready(&mut self, thread: ThreadNo) -> Result<(), OutOfMemory>
        requires known { knows self.old thread ≡ true }
        ensures ready { OnOk result (IsReady self.new thread) }
        ensures accounts { (other : ThreadNoValue) → account self.new other ≡ account self.old other }
        ensures known { (other : ThreadNoValue) → knows self.new other ≡ knows self.old other }
        ensures kept { (other : ThreadNoValue) → IsReady self.old other → IsReady self.new other }
        ensures live { live self.new ≡ live self.old }
    {
        let Some(place) = self.place_of(thread) else {
            unreachable!()
        };
        self.ready = None;
        self.arena.reserve()?;
        self.books[place].rows.reserve()
    }

    /// Counts an event at the place of its pc, and then changes its thread's stack. It takes no memory.
    pub fn note(&mut self, event: &Event, cost: &Cost, syms: &SymMap, after: &FuncSet) -> Noted
        requires known { knows self.old event.now.thread ≡ true }
        requires ready { IsReady self.old event.now.thread }
        requires few { live self.old < most_frames }
        requires can { CanNote syms.now event.now cost.now (account self.old event.now.thread) }
        ensures account { account self.new event.now.thread
            ≡ account_after_note syms.now event.now cost.now (account self.old event.now.thread) }
        ensures answer { result ≡ noted_answer syms.now after.now event.now (account self.old event.now.thread).frames }
        // Every other thread is as before.
        ensures others { (other : ThreadNoValue) → other.0 ≢ event.now.thread.0
            → ledger self.new other ≡ ledger self.old other }
        ensures known { (other : ThreadNoValue) → knows self.new other ≡ knows self.old other }
        ensures entry { Leads syms.now self.old (Notes (counted_event event.now cost.now)) self.new }
        // An account that stands for events stands for one more.
        ensures stands { (s : Stack) (since : List EventOnStack) → Stands syms.now s since (account self.old event.now.thread)
            → Stands syms.now (after_event syms.now s event.now) (since ++ event_on_stack s event.now cost.now ∷ [])
            (account self.new event.now.thread) }
        ensures stands_for { (s : Stack) (earlier : List (List CountedEvent)) (last : List CountedEvent)
            → StandsFor syms.now s earlier last (account self.old event.now.thread)
            → StandsFor syms.now s earlier (last
            ++ counted_event event.now cost.now ∷ []) (account self.new event.now.thread) }
        // The sums of an account are those of one event more at most.
        ensures bounds { (steps : ℕ) → IsUnit cost.now → SumsWithin steps (account self.old event.now.thread)
            → SumsWithin (steps + 1) (account self.new event.now.thread) }
        // Room falls by one where a frame, a place or an arc is new; a frame that goes leaves room for another.
        ensures frame_room { self.new.spare + frames_used syms.now event.now (account self.old event.now.thread)
            ≡ self.old.spare + frames_freed syms.now event.now (account self.old event.now.thread) }
        ensures line_room { (ledger self.new event.now.thread).line_room
            + places_used syms.now event.now (account self.old event.now.thread)
            ≡ (ledger self.old event.now.thread).line_room }
        ensures arc_room { (ledger self.old event.now.thread).arc_room
            ≤ (ledger self.new event.now.thread).arc_room
            + frames_used syms.now event.now (account self.old event.now.thread) }
        // An event that needs no room leaves every thread ready that was.
        ensures lasting { NeedsNoRoom syms.now event.now (account self.old event.now.thread)
            → (other : ThreadNoValue) → IsReady self.old other → IsReady self.new other }
        // The live frames of all threads change by those of this one.
        ensures live { live self.new + live_in (account self.old event.now.thread).frames
            ≡ live self.old + live_in (account self.new event.now.thread).frames }
    {
        match self.lend(event.thread) {
            Some(mut lent) => lent.note(event, cost, syms, after),
            None => unreachable!(),
        }
    }

    /// What `note` does, for a cost of any kind.
    #[inline(always)]
    pub fn note_event<C: EventCost>(
        &mut self,
        event: &Event,
        cost: &C,
        syms: &SymMap,
        after: &FuncSet,
    ) -> Noted
        requires known { knows self.old event.now.thread ≡ true }
        requires ready { IsReady self.old event.now.thread }
        requires few { live self.old < most_frames }
        requires can { CanNote syms.now event.now (C.numbers cost.now) (account self.old event.now.thread) }
        ensures account { account self.new event.now.thread
            ≡ account_after_note syms.now event.now (C.numbers cost.now) (account self.old event.now.thread) }
        ensures answer { result ≡ noted_answer syms.now after.now event.now (account self.old event.now.thread).frames }
        ensures others { (other : ThreadNoValue) → other.0 ≢ event.now.thread.0
            → ledger self.new other ≡ ledger self.old other }
        ensures known { (other : ThreadNoValue) → knows self.new other ≡ knows self.old other }
        ensures entry { Leads syms.now self.old (Notes (counted_event event.now (C.numbers cost.now))) self.new }
        ensures stands { (s : Stack) (since : List EventOnStack) → Stands syms.now s since (account self.old event.now.thread)
            → Stands syms.now (after_event syms.now s event.now)
            (since ++ event_on_stack s event.now (C.numbers cost.now) ∷ [])
            (account self.new event.now.thread) }
        ensures stands_for { (s : Stack) (earlier : List (List CountedEvent)) (last : List CountedEvent)
            → StandsFor syms.now s earlier last (account self.old event.now.thread)
            → StandsFor syms.now s earlier (last
            ++ counted_event event.now (C.numbers cost.now) ∷ []) (account self.new event.now.thread) }
        ensures bounds { (steps : ℕ) → IsUnit (C.numbers cost.now)
            → SumsWithin steps (account self.old event.now.thread)
            → SumsWithin (steps + 1) (account self.new event.now.thread) }
        ensures frame_room { self.new.spare + frames_used syms.now event.now (account self.old event.now.thread)
            ≡ self.old.spare + frames_freed syms.now event.now (account self.old event.now.thread) }
        ensures line_room { (ledger self.new event.now.thread).line_room
            + places_used syms.now event.now (account self.old event.now.thread)
            ≡ (ledger self.old event.now.thread).line_room }
        ensures arc_room { (ledger self.old event.now.thread).arc_room
            ≤ (ledger self.new event.now.thread).arc_room
            + frames_used syms.now event.now (account self.old event.now.thread) }
        ensures lasting { NeedsNoRoom syms.now event.now (account self.old event.now.thread)
            → (other : ThreadNoValue) → IsReady self.old other → IsReady self.new other }
        ensures live { live self.new + live_in (account self.old event.now.thread).frames
            ≡ live self.old + live_in (account self.new event.now.thread).frames }
    {
        match self.lend(event.thread) {
            Some(mut lent) => lent.note_event(event, cost, syms, after),
            None => unreachable!(),
        }
    }

    /// Whether it is seen at once that the event, whose thread stands in the function of its pc, only adds to a row and
    /// to the total of its thread. `note_event` does the same either way: where this is true before it, it calls
    /// nothing.
    #[inline(always)]
    pub fn is_plain(&self, event: &Event, syms: &SymMap) -> bool
        ensures known { result ≡ true
            → has_line (place_of syms.now event.now.done.pc) (account self.now event.now.thread).lines ≡ true }
        ensures stays { result ≡ true
            → top_of (stack (account self.now event.now.thread).frames)
            ≡ Some (place_of syms.now event.now.done.pc).func
            → change syms.now event.now (stack (account self.now event.now.thread).frames)
            ≡ no_change (stack (account self.now event.now.thread).frames) }
    {
        match self.place_remembered(event.thread) {
            Some(place) => self.books[place].is_plain(&self.near, event, syms),
            None => false,
        }
    }

    /// What `Lent::note` does, at the place of its thread.
    #[inline(always)]
    pub(crate) fn note_at<C: EventCost>(
        &mut self,
        place: usize,
        event: &Event,
        cost: &C,
        syms: &SymMap,
        watched: &FuncSet,
    ) -> Noted
        requires at { IsAt self.old event.now.thread place }
        requires within { place < length self.old.threads }
        requires room { 1 ≤ self.old.spare }
        requires line_room { 1 ≤ (ledger_at self.old place event.now.thread).line_room }
        requires arc_room { 1 ≤ (ledger_at self.old place event.now.thread).arc_room }
        requires few { live self.old < most_frames }
        requires can { CanNote syms.now event.now (C.numbers cost.now)
            (ledger_at self.old place event.now.thread).account }
        ensures threads { self.new.threads
            ≡ slice_set self.old.threads place (ledger_at self.new place event.now.thread) }
        ensures account { (ledger_at self.new place event.now.thread).account
            ≡ account_after_note syms.now event.now (C.numbers cost.now) (ledger_at self.old place event.now.thread).account }
        ensures shallow { length (ledger_at self.old place event.now.thread).account.frames ≤ most_frames }
        ensures adds { Adds syms.now event.now (C.numbers cost.now) (ledger_at self.old place event.now.thread).account
            (ledger_at self.new place event.now.thread).account }
        ensures answer { result
            ≡ noted_answer syms.now watched.now event.now (ledger_at self.old place event.now.thread).account.frames }
        ensures frame_room { self.new.spare
            + frames_used syms.now event.now (ledger_at self.old place event.now.thread).account
            ≡ self.old.spare + frames_freed syms.now event.now (ledger_at self.old place event.now.thread).account }
        ensures line_room { (ledger_at self.new place event.now.thread).line_room
            + places_used syms.now event.now (ledger_at self.old place event.now.thread).account
            ≡ (ledger_at self.old place event.now.thread).line_room }
        ensures arc_room { (ledger_at self.old place event.now.thread).arc_room
            ≤ (ledger_at self.new place event.now.thread).arc_room
            + frames_used syms.now event.now (ledger_at self.old place event.now.thread).account }
    {
        mark_other(self.ready, event.thread, &mut self.active);
        let plain = self.books[place].is_plain(&self.near, event, syms);
        let step = Step {
            event,
            syms,
            watched,
        };
        let book = &mut self.books[place];
        let noted = book.note(
            &mut self.arena,
            &mut self.places,
            &mut self.near,
            &mut self.entered,
            &step,
            cost,
        );
        let at = ReadyThread {
            thread: event.thread,
            place,
        };
        keep_where(
            plain,
            &self.arena,
            &self.books[place].rows,
            at,
            &mut self.ready,
        );
        noted
    }

    /// What `Lent::top`, `Lent::depth` and `Lent::frame` answer, at the place of their thread.
    pub(crate) fn top_at(&self, place: usize, thread: ThreadNo) -> Option<FuncId>
        requires { place < length self.now.threads }
        ensures { result ≡ top_of (stack (ledger_at self.now place thread).account.frames) }
    {
        top_of(&self.arena, self.books[place].head)
    }

    pub(crate) fn depth_at(&self, place: usize, thread: ThreadNo) -> usize
        requires { place < length self.now.threads }
        ensures { result ≡ length (ledger_at self.now place thread).account.frames }
    {
        self.books[place].head.depth
    }

    pub(crate) fn frame_at(&self, place: usize, thread: ThreadNo, i: usize) -> Frame
        requires within { place < length self.now.threads }
        requires some { i < length (ledger_at self.now place thread).account.frames }
        ensures { slice_get (reverse (ledger_at self.now place thread).account.frames) i ≡ Some result }
    {
        frame_at(&self.arena, self.books[place].head, i)
    }

    /// How many live frames are no roots, over all threads.
    pub fn live_frames(&self) -> u32
        ensures live { result ≡ live self.now }
        // No stack is deeper than all of them and a root.
        ensures depth { (thread : ThreadNoValue) → length (account self.now thread).frames ≤ result + 1 }
    {
        self.entered as u32
    }

    /// Whether the thread had an event since its last cut; false where it isn't known.
    pub fn had_event(&self, thread: ThreadNo) -> bool
        ensures { result ≡ (account self.now thread).had_event }
    {
        if !self.active.may_have(thread) {
            return false;
        }
        match self.place_of(thread) {
            Some(place) => self.books[place].had_event,
            None => false,
        }
    }

    /// How many threads, from this number on, are seen at once to have had no event since their last cuts: at most 64,
    /// and 0 where each is to be asked. Who goes on behind them asks few that had none.
    pub fn quiet_from(&self, thread: ThreadNo) -> u32
        ensures { (other : ThreadNoValue) → thread.0 ≤ other.0 → other.0 < thread.0 + result
            → (account self.now other).had_event ≡ false }
    {
        self.active.quiet_from(thread)
    }

    /// Cuts a thread: its open frames give their cost so far and start anew, and its rows since its last cut are
    /// answered and count from 0 again. After want of memory its sums are as before; only the starts of its frames may
    /// have moved.
    pub fn take_rows(&mut self, thread: ThreadNo) -> Result<TableRows, OutOfMemory>
        requires known { knows self.old thread ≡ true }
        ensures rows { IfOk result (IsCutOf (account self.old thread)) }
        // Each cost has a number for each kind of event.
        ensures whole_lines { IfOk result (λ rows. All (λ row. IsWhole row.cost) rows.lines) }
        ensures whole_arcs { IfOk result (λ rows. All (λ row. IsWhole row.cost) rows.arcs) }
        ensures account { OnOk result (account self.new thread ≡ account_after_cut (account self.old thread)) }
        ensures err { OnErr result (SameSums (account self.old thread) (account self.new thread)) }
        // Every other thread is as before.
        ensures others { (other : ThreadNoValue) → other.0 ≢ thread.0 → ledger self.new other ≡ ledger self.old other }
        ensures known { (other : ThreadNoValue) → knows self.new other ≡ knows self.old other }
        ensures entry { (syms : SymbolMap) → OnOk result (Leads syms self.old (Cuts thread) self.new) }
        // The rows are the sums of the events since the last cut.
        ensures stands { (syms : SymbolMap) (s : Stack) (since : List EventOnStack)
            → Stands syms s since (account self.old thread)
            → IfOk result (AreRowsOf syms since) }
        // They are the thread's own rows: the sums of the last piece of its own events, with its stack folded over all
        // pieces.
        ensures own_rows { (syms : SymbolMap) (s : Stack) (earlier : List (List CountedEvent)) (last : List CountedEvent)
            → StandsFor syms s earlier last (account self.old thread)
            → IfOk result (AreRowsOf syms (last_events_on_stack syms s earlier last)) }
        ensures stands_for { (syms : SymbolMap) (s : Stack) (earlier : List (List CountedEvent)) (last : List CountedEvent)
            → StandsFor syms s earlier last (account self.old thread)
            → OnOk result (StandsFor syms s (earlier ++ last ∷ []) [] (account self.new thread)) }
        ensures still_stands { (syms : SymbolMap) (s : Stack) (earlier : List (List CountedEvent)) (last : List CountedEvent)
            → StandsFor syms s earlier last (account self.old thread)
            → OnErr result (StandsFor syms s earlier last (account self.new thread)) }
        ensures bounds { (steps : ℕ) → SumsWithin steps (account self.old thread)
            → SumsWithin steps (account self.new thread) }
        ensures lasting { (other : ThreadNoValue) → IsReady self.old other → IsReady self.new other }
        ensures live { live self.new ≡ live self.old }
    {
        let Some(place) = self.place_of(thread) else {
            unreachable!()
        };
        self.ready = None;
        let nothing = FuncSet {
            items: Vec::new(self.alloc),
        };
        let rows = self.books[place].take_rows(&mut self.arena, &nothing);
        self.active.clear(thread, rows.is_ok());
        rows
    }
}

/// Keeps the thread that is remembered as ready where its event is plain, which uses no room. After another event its
/// thread is remembered where there still is room, so that it needn't be made ready anew.
#[inline(always)]
fn keep_where(
    plain: bool,
    arena: &Arena,
    rows: &Tables,
    at: ReadyThread,
    ready: &mut Option<ReadyThread>,
)
    ensures kept { plain ≡ true → ready.new ≡ ready.old }
    ensures again { plain ≡ false → IfSome ready.new (λ it. (it ≡ at) × (1 ≤ arena.now.spare)
        × (1 ≤ rows.now.line_room) × (1 ≤ rows.now.arc_room)) }
{
    if plain {
        return;
    }
    let has_room = arena.has_room() && rows.has_room();
    *ready = if has_room { Some(at) } else { None };
}

/// Marks the thread of an event, but where it is the one that is remembered, which is marked.
#[inline(always)]
fn mark_other(ready: Option<ReadyThread>, thread: ThreadNo, active: &mut Active)
    requires { IsMarkedReady ready active.old.words.items }
    ensures own { may_have active.new.words.items thread ≡ true }
    ensures others { (other : ThreadNoValue) → may_have active.old.words.items other ≡ true
        → may_have active.new.words.items other ≡ true }
{
    match ready {
        Some(ready) if ready.thread == thread => {}
        _ => active.mark(thread),
    }
}

/// The thread at its place, where it is ready.
fn ready_at(is_ready: bool, thread: ThreadNo, place: Option<usize>) -> Option<ReadyThread>
    ensures remembered { (r : Recording) → (is_ready ≡ true → (knows r thread ≡ true) × IsReady r thread)
        → place ≡ position (is_ledger_of thread) r.threads → IsRemembered r result }
    ensures own { (words : List ℕ) → may_have words thread ≡ true → IsMarkedReady result words }
{
    match place {
        Some(place) if is_ready => Some(ReadyThread { thread, place }),
        _ => None,
    }
}
