//! What is kept of one thread.

ghost use Rattle.std.specs.Prelude.{◌≡◌, ◌+◌, ◌-◌, ◌<◌, ◌≤◌, ◌^◌, ◌++◌, ℕ, All, IfOk, List, OnOk, Some};
ghost use Rattle.std.specs.Prelude.{if◌then◌else◌, length, reverse, slice_index, take, true, vec_capacity};
ghost use Rattle.event_costs.specs.Costs.{IsWhole, sum_of_costs};
ghost use Rattle.event_costs.specs.Keys.{ArcKey as ArcKeyValue, Place as PlaceValue};
ghost use Rattle.arc_costs.specs.Arcs.{ArcsStandFor, arc_sum, call_sum, cleared_arcs};
ghost use Rattle.arc_costs.specs.Rows.{ArcRow as ArcRowValue};
ghost use Rattle.arc_costs.specs.Lines.{add_line, cleared_lines, has_line, line, line_index, line_sum};
ghost use Rattle.event_costs.specs.Order.{same_place};
ghost use Rattle.recorder.specs.Notes.{open_sum, rows_of_tellings};
ghost use Rattle.recorder.specs.inner.Tellers.{CanTell, RowsAfterTellings};
ghost use Rattle.recorder.specs.Standing.{IsCutOf};
ghost use Rattle.shadow_stack.specs.Changes.{after, change, drop_count, no_change};
ghost use Rattle.shadow_stack.specs.Frames.{StartWithin, closings, frames_after, restarted_frames, stack};
ghost use Rattle.shadow_stack.specs.Stacks.{is_rooted};
ghost use Rattle.ctx_rows.specs.States.{first_track};
ghost use Rattle.ctx_rows.specs.Tracks.{AreNumbered, account_of};
ghost use Rattle.ctx_costs.specs.inner.Frames.{AreOpen, first_number, numbered_frames, pushed_entry};
ghost use Rattle.ctx_costs.specs.inner.Tracks.{CanEnter, IsChanged, IsEntered, IsFramed, IsLeft, IsRoomy, SameThread, closings_gone};
ghost use Rattle.ctx_costs.specs.inner.Tracks.{frames_of, numbers_of, track_of};

use crate::closing::{Closing, Entry, Opening, Unheard};
use arc_costs::{TableRows, Tables};
use byte_text::OutOfMemory;
use contexts::Contexts;
use event_costs::{ArcKey, ContextNo, Cost, Event, FuncId, Place, ThreadNo};
use recorder::EventCost;
use shadow_stack::{ShadowStack, goes_on};
use std::alloc::Global;
use sym_map::SymMap;

/// A thread's stack, and its costs by the numbers of contexts.
#[derive(Drop)]
pub struct Track {
    pub alloc: Global,
    pub thread: ThreadNo,
    pub stack: ShadowStack,
    /// The number of the context of each frame, the root's first.
    pub numbers: Vec<ContextNo>,
    pub total: Cost,
    pub rows: Tables<ContextNo>,
}

impl Track {
    /// A thread that begins in this function, whose context has this number. There is room for a step.
    pub fn new(
        alloc: Global,
        thread: ThreadNo,
        func: FuncId,
        number: ContextNo,
    ) -> Result<Track, OutOfMemory>
        ensures track { IfOk result (λ b. track_of b ≡ first_track thread func number) }
        ensures framed { IfOk result IsFramed }
        ensures room { IfOk result IsRoomy }
    {
        let mut numbers = Vec::with_capacity(alloc, 2)?;
        numbers.push(number)?;
        let mut stack = ShadowStack::new(alloc, func, &Cost::ZERO)?;
        stack.reserve()?;
        Ok(Track {
            alloc,
            thread,
            stack,
            numbers,
            total: Cost::ZERO,
            rows: Tables::new(alloc),
        })
    }

    /// Makes room for a step. Most steps use none.
    #[cold]
    #[inline(never)]
    pub fn reserve(&mut self) -> Result<(), OutOfMemory>
        ensures track { track_of self.new ≡ track_of self.old }
        ensures framed { IsFramed self.old → IsFramed self.new }
        ensures room { OnOk result (IsRoomy self.new) }
        ensures room_kept { IsRoomy self.old → IsRoomy self.new }
    {
        self.stack.reserve()?;
        self.numbers.reserve(1)?;
        self.rows.reserve()
    }

    /// The number of the top frame's context.
    #[inline(always)]
    pub fn top(&self) -> ContextNo
        requires { 0 < length self.now.numbers.items }
        ensures { result ≡ first_number (numbers_of self.now) }
    {
        self.numbers[self.numbers.len() - 1]
    }

    /// Counts an event at this place, in the context of the top frame. Its row is looked for at this index first; the
    /// answer is the row's index.
    #[inline(always)]
    pub fn count<C: EventCost>(&mut self, near: usize, at: Place, cost: &C) -> usize
        requires live { 0 < length self.old.numbers.items }
        requires room { 1 ≤ self.old.rows.line_room }
        requires lines { (kind : ℕ) (place : PlaceValue)
            → line_sum kind place self.old.rows.lines + slice_index (C.numbers cost.now) kind < 2 ^ 64 }
        requires total { (kind : ℕ)
            → slice_index self.old.total kind + slice_index (C.numbers cost.now) kind < 2 ^ 64 }
        ensures lines { self.new.rows.lines ≡ add_line self.old.rows.lines
            (line (record { func = first_number (numbers_of self.old); file = at.file; line = at.line })
            (C.numbers cost.now)) }
        ensures line_sums { (kind : ℕ) (place : PlaceValue) → line_sum kind place self.new.rows.lines
            ≡ line_sum kind place self.old.rows.lines
            + (if same_place place (record { func = first_number (numbers_of self.old); file = at.file; line = at.line })
            then slice_index (C.numbers cost.now) kind else 0) }
        ensures line_room { self.new.rows.line_room + (if has_line
            (record { func = first_number (numbers_of self.old); file = at.file; line = at.line }) self.old.rows.lines
            then 0 else 1) ≡ self.old.rows.line_room }
        ensures total { self.new.total ≡ sum_of_costs self.old.total (C.numbers cost.now) }
        ensures whole { IsWhole (C.numbers cost.now) }
        ensures arcs { self.new.rows.arcs ≡ self.old.rows.arcs }
        ensures arc_room { self.new.rows.arc_room ≡ self.old.rows.arc_room }
        ensures stack { self.new.stack ≡ self.old.stack }
        ensures numbers { self.new.numbers ≡ self.old.numbers }
        ensures thread { self.new.thread ≡ self.old.thread }
        ensures index { line_index (record { func = first_number (numbers_of self.old); file = at.file; line = at.line })
            self.new.rows.lines ≡ Some result }
    {
        let place = self.row_place(at);
        let row = cost.add_line(&mut self.rows, near, place);
        cost.add_total(&mut self.total);
        row
    }

    /// Where an event at this place counts: in the context of the top frame.
    #[inline(always)]
    fn row_place(&self, at: Place) -> Place<ContextNo>
        requires { 0 < length self.now.numbers.items }
        ensures { result ≡ record { func = first_number (numbers_of self.now); file = at.file; line = at.line } }
    {
        Place {
            func: self.top(),
            file: at.file,
            line: at.line,
        }
    }

    /// Whether the row in which an event at this place counts is seen at this index, without a search.
    #[inline(always)]
    pub fn has_row_at(&self, index: usize, at: Place) -> bool
        requires { 0 < length self.now.numbers.items }
        ensures { result ≡ true → has_line
            (record { func = first_number (numbers_of self.now); file = at.file; line = at.line }) self.now.rows.lines
            ≡ true }
    {
        self.rows.is_line_at(index, self.row_place(at))
    }

    /// Whether it is seen at once that the event leaves the stack as it is.
    #[inline(always)]
    pub fn stays(&self, event: &Event, syms: &SymMap) -> bool
        ensures { result ≡ true → change syms.now event.now (stack self.now.stack.frames)
            ≡ no_change (stack self.now.stack.frames) }
    {
        let Some(top) = self.stack.top() else {
            return false;
        };
        let Some(next) = syms.indexed_place(event.done.next) else {
            return false;
        };
        goes_on(event, top, next.func)
    }

    /// Changes the stack as an event says: each frame that goes gives its arc what it has cost since its start, and one
    /// that comes counts as a call. It takes no memory.
    #[inline(always)]
    pub fn change(&mut self, event: &Event, syms: &SymMap, contexts: &mut Contexts, callers: u32)
        requires few { callers ≤ 16 }
        requires room { CanEnter self.old }
        requires context_room { 1 ≤ contexts.old.room }
        requires live { 0 < length self.old.stack.frames }
        requires rooted { is_rooted (stack self.old.stack.frames) ≡ true }
        requires framed { IsFramed self.old }
        requires numbered { AreNumbered callers contexts.old.contexts (frames_of self.old) (stack self.old.stack.frames) }
        requires can { CanTell self.old.rows (closings_gone syms.now event.now self.old) }
        requires calls { (arc : ArcKeyValue) → call_sum arc self.old.rows.arcs + 1 < 2 ^ 64 }
        ensures { IsChanged callers contexts.old.contexts contexts.new.contexts syms.now event.now self.old self.new }
    {
        if self.stays(event, syms) {
            return;
        }
        self.change_frames(event, syms, contexts, callers);
    }

    /// What `change` does where frames may go or come. It has a frame of its own, so that an event which goes on in its
    /// function needs none.
    #[inline(never)]
    fn change_frames(&mut self, event: &Event, syms: &SymMap, contexts: &mut Contexts, callers: u32)
        requires few { callers ≤ 16 }
        requires room { CanEnter self.old }
        requires context_room { 1 ≤ contexts.old.room }
        requires live { 0 < length self.old.stack.frames }
        requires rooted { is_rooted (stack self.old.stack.frames) ≡ true }
        requires framed { IsFramed self.old }
        requires numbered { AreNumbered callers contexts.old.contexts (frames_of self.old) (stack self.old.stack.frames) }
        requires can { CanTell self.old.rows (closings_gone syms.now event.now self.old) }
        requires calls { (arc : ArcKeyValue) → call_sum arc self.old.rows.arcs + 1 < 2 ^ 64 }
        ensures { IsChanged callers contexts.old.contexts contexts.new.contexts syms.now event.now self.old self.new }
    {
        if let Some(entry) = self.leave(event, syms) {
            self.enter(entry, contexts, callers);
        }
    }

    /// Changes the stack as an event says, and counts what the frames that go have cost. How the frame was
    /// entered that comes, whose context has no number yet.
    fn leave(&mut self, event: &Event, syms: &SymMap) -> Option<Entry>
        requires room { 1 ≤ self.old.stack.spare }
        requires live { 0 < length self.old.stack.frames }
        requires rooted { is_rooted (stack self.old.stack.frames) ≡ true }
        requires framed { IsFramed self.old }
        requires can { CanTell self.old.rows (closings_gone syms.now event.now self.old) }
        ensures left { IsLeft syms.now event.now self.old self.new }
        ensures entry { result ≡ pushed_entry (change syms.now event.now (stack self.old.stack.frames)).pushed }
    {
        let pushed = tell(
            &mut self.stack,
            &mut self.rows,
            &self.numbers,
            event,
            syms,
            &self.total,
        );
        let kept = count_kept(self.stack.depth(), pushed.is_some());
        self.numbers.truncate(kept);
        pushed
    }

    /// Enters a frame, in the context that it comes to from the top one.
    fn enter(&mut self, entry: Entry, contexts: &mut Contexts, callers: u32)
        requires few { callers ≤ 16 }
        requires live { 0 < length self.old.numbers.items }
        requires room { length self.old.numbers.items < vec_capacity self.old.numbers }
        requires context_room { 1 ≤ contexts.old.room }
        requires known { (first_number (numbers_of self.old)).0 < length contexts.old.contexts }
        requires arc_room { 1 ≤ self.old.rows.arc_room }
        requires calls { (arc : ArcKeyValue) → call_sum arc self.old.rows.arcs + 1 < 2 ^ 64 }
        ensures { IsEntered callers entry contexts.old.contexts contexts.new.contexts self.old self.new }
    {
        let caller = self.top();
        let beneath = contexts.context(caller);
        let callee = contexts.number_of(beneath.entering(entry.func, callers as usize + 1));
        self.rows.count_call(&ArcKey {
            caller,
            file: entry.file,
            line: entry.line,
            callee,
        });
        self.numbers.push(callee).unwrap();
    }

    /// Adds to rows what the open frames have cost since their starts, without a list of them.
    fn add_open(&self, rows: &mut Tables<ContextNo>) -> Result<(), OutOfMemory>
        requires framed { IsFramed self.now }
        requires starts { StartWithin self.now.total (frames_of self.now) }
        requires fits { (kind : ℕ) (arc : ArcKeyValue) → arc_sum kind arc rows.old.arcs
            + open_sum kind self.now.total arc (frames_of self.now) < 2 ^ 64 }
        ensures lines { OnOk result (rows.new.lines ≡ rows.old.lines) }
        ensures stands { OnOk result ((additions : List ArcRowValue) → ArcsStandFor rows.old.arcs additions
            → ArcsStandFor rows.new.arcs
            (additions ++ rows_of_tellings (closings self.now.total (frames_of self.now)))) }
    {
        let mut sink = Opening {
            rows,
            numbers: &self.numbers,
            memory: Ok(()),
        };
        self.stack.tell_open(&self.total, &mut sink);
        sink.memory
    }

    /// The rows since the last cut, the costs of open frames counted in.
    pub fn rows(&self) -> Result<TableRows<ContextNo>, OutOfMemory>
        requires framed { IsFramed self.now }
        requires starts { StartWithin self.now.total (frames_of self.now) }
        requires lines { (kind : ℕ) (place : PlaceValue) → line_sum kind place self.now.rows.lines < 2 ^ 64 }
        requires arcs { (kind : ℕ) (arc : ArcKeyValue) → arc_sum kind arc self.now.rows.arcs
            + open_sum kind self.now.total arc (frames_of self.now) < 2 ^ 64 }
        requires calls { (arc : ArcKeyValue) → call_sum arc self.now.rows.arcs < 2 ^ 64 }
        ensures rows { IfOk result (IsCutOf (account_of (track_of self.now))) }
        ensures whole_lines { IfOk result (λ rows. All (λ row. IsWhole row.cost) rows.lines) }
        ensures whole_arcs { IfOk result (λ rows. All (λ row. IsWhole row.cost) rows.arcs) }
    {
        if self.numbers.is_empty() {
            return self.rows.sorted();
        }
        let mut all = Tables::new(self.alloc);
        all.merge(&self.rows.sorted()?)?;
        self.add_open(&mut all)?;
        all.sorted()
    }

    /// Has all rows count from 0, and the open frames start anew.
    pub fn cut(&mut self)
        requires framed { IsFramed self.old }
        ensures frames { frames_of self.new ≡ restarted_frames self.old.total (frames_of self.old) }
        ensures framed { IsFramed self.new }
        ensures lines { self.new.rows.lines ≡ cleared_lines self.old.rows.lines }
        ensures arcs { self.new.rows.arcs ≡ cleared_arcs self.old.rows.arcs }
        ensures stack { stack self.new.stack.frames ≡ stack self.old.stack.frames }
        ensures same { SameThread self.old self.new }
        ensures room { IsRoomy self.old → IsRoomy self.new }
    {
        self.rows.clear();
        self.stack.restart(&self.total, &mut Unheard);
    }
}

/// How many frames an event keeps, of so many after it, where one may have come.
fn count_kept(depth: usize, pushed: bool) -> usize
    ensures { result ≡ depth - (if pushed then 1 else 0) }
{
    if pushed {
        depth.saturating_sub(1)
    } else {
        depth
    }
}

/// Changes a stack as an event says, and counts what the frames that go have cost. How the one was entered that comes.
fn tell(
    calls: &mut ShadowStack,
    rows: &mut Tables<ContextNo>,
    numbers: &[ContextNo],
    event: &Event,
    syms: &SymMap,
    total: &Cost,
) -> Option<Entry>
    requires room { 1 ≤ calls.old.spare }
    requires live { 0 < length calls.old.frames }
    requires starts { StartWithin total.now calls.old.frames }
    requires entered { AreOpen calls.old.frames (reverse numbers.now) }
    requires can { CanTell rows.old (closings total.now (take (drop_count syms.now event.now (stack calls.old.frames))
        (numbered_frames calls.old.frames (reverse numbers.now)))) }
    ensures frames { calls.new.frames ≡ frames_after syms.now total.now calls.old.frames event.now }
    ensures stacked { stack calls.new.frames ≡ after syms.now (stack calls.old.frames) event.now }
    ensures starts { StartWithin total.now calls.new.frames }
    ensures told { RowsAfterTellings rows.old
        (closings total.now (take (drop_count syms.now event.now (stack calls.old.frames))
        (numbered_frames calls.old.frames (reverse numbers.now)))) rows.new }
    ensures pushed { result ≡ pushed_entry (change syms.now event.now (stack calls.old.frames)).pushed }
{
    let mut sink = Closing {
        rows,
        numbers,
        pushed: None,
    };
    calls.after(event, syms, total, &mut sink);
    sink.pushed
}
