//! What is kept of one thread, and what an event and a cut do to it.

ghost use Rattle.std.specs.Prelude.{◌≡◌, ◌+◌, ◌-◌, ◌<◌, ◌≤◌, ◌^◌, [], All, IfOk, IfSome, None, OnOk, OnErr, Some, false, true};
ghost use Rattle.std.specs.Prelude.{if◌then◌else◌};
ghost use Rattle.event_costs.specs.Costs.{IsWhole, no_cost};
ghost use Rattle.sym_map.specs.SymbolMap.{place_of, SymbolMap};
ghost use Rattle.shadow_stack.specs.Arenas.{frames, stack_at, LeavesOthers, LiesIn};
ghost use Rattle.shadow_stack.specs.Changes.{change, drop_count, next_func, no_change};
ghost use Rattle.shadow_stack.specs.Stacks.{Stack, top_of};
ghost use Rattle.shadow_stack.specs.Frames.{closings, count_pushed, frames_after, pushed_activation, restarted_frames, StartWithin};
ghost use Rattle.shadow_stack.specs.Frames.{tellings};
ghost use Rattle.arc_costs.specs.Lines.{has_line, cleared_lines};
ghost use Rattle.arc_costs.specs.Arcs.{cleared_arcs};
ghost use Rattle.recorder.specs.Notes.{CanNote, account_after_cut, account_after_note, noted_answer};
ghost use Rattle.recorder.specs.Standing.{IsCutOf, SameSums};
ghost use Rattle.recorder.specs.inner.Books.{account_in, Adds, AreEntered, AreRowsIn, entered_in, Gives, IsSoundBook};
ghost use Rattle.recorder.specs.inner.Tellers.{CanTell, root_leaves, RowsAfterTellings};

use crate::event_cost::EventCost;
use crate::teller::Teller;
use arc_costs::{NearRows, TableRows, Tables};
use byte_text::OutOfMemory;
use event_costs::{Cost, Event, FuncSet, Noted, ThreadNo};
use shadow_stack::{Arena, Head, frame_at, goes_on};
use std::alloc::Global;
use sym_map::{NearPlaces, SymMap, Way};

/// The context of all rows here: an instruction has one row a thread.
const ONE_CONTEXT: u32 = 0;

/// An event, with the map of its program, and the functions of which it is told when a frame of theirs comes or goes.
#[derive(Drop)]
pub struct Step<'a> {
    pub event: &'a Event,
    pub syms: &'a SymMap,
    pub watched: &'a FuncSet,
}

/// A thread's chain of frames, what its events have cost in all, and its tables since its last cut.
#[derive(Drop)]
pub struct Book {
    pub thread: ThreadNo,
    pub head: Head,
    pub total: Cost,
    pub rows: Tables,
    pub had_event: bool,
}

impl Book {
    /// A thread without an event.
    pub fn new(alloc: Global, thread: ThreadNo, head: Head) -> Book
        ensures thread { result.thread ≡ thread }
        ensures head { result.head ≡ head }
        ensures total { result.total ≡ no_cost }
        ensures lines { result.rows.lines ≡ [] }
        ensures arcs { result.rows.arcs ≡ [] }
        ensures had_event { result.had_event ≡ false }
        ensures line_room { result.rows.line_room ≡ 1 }
        ensures arc_room { result.rows.arc_room ≡ 1 }
    {
        Book {
            thread,
            head,
            total: Cost::ZERO,
            rows: Tables::new(alloc),
            had_event: false,
        }
    }

    /// Counts an event, and then changes the stack.
    #[inline(always)]
    pub fn note<C: EventCost>(
        &mut self,
        arena: &mut Arena,
        places: &mut NearPlaces,
        near: &mut NearRows,
        live: &mut usize,
        step: &Step<'_>,
        cost: &C,
    ) -> Noted
        requires counted { entered_in self.old ≤ live.old }
        requires few { live.old < 2 ^ 32 }
        requires room { 1 ≤ arena.old.spare }
        requires line_room { 1 ≤ self.old.rows.line_room }
        requires arc_room { 1 ≤ self.old.rows.arc_room }
        requires kept { IsSoundBook arena.old.slots self.old }
        requires can { CanNote step.now.syms.now step.now.event.now (C.numbers cost.now) (account_in arena.old.slots self.old) }
        ensures account { account_in arena.new.slots self.new
            ≡ account_after_note step.now.syms.now step.now.event.now (C.numbers cost.now) (account_in arena.old.slots self.old) }
        ensures adds { Adds step.now.syms.now step.now.event.now (C.numbers cost.now) (account_in arena.old.slots self.old)
            (account_in arena.new.slots self.new) }
        ensures kept { IsSoundBook arena.new.slots self.new }
        ensures answer { result ≡ noted_answer step.now.syms.now step.now.watched.now step.now.event.now (frames arena.old.slots self.old.head) }
        ensures line_room { self.new.rows.line_room
            + (if has_line (place_of step.now.syms.now step.now.event.now.done.pc) self.old.rows.lines then 0 else 1)
            ≡ self.old.rows.line_room }
        ensures arc_room { self.old.rows.arc_room
            ≤ self.new.rows.arc_room + count_pushed (pushed_activation step.now.syms.now step.now.event.now (frames arena.old.slots self.old.head)) }
        ensures room { arena.new.spare + count_pushed (pushed_activation step.now.syms.now step.now.event.now (frames arena.old.slots self.old.head))
            ≡ arena.old.spare + drop_count step.now.syms.now step.now.event.now (stack_at arena.old.slots self.old.head) }
        ensures others { LeavesOthers arena.old.slots self.old.head arena.new.slots self.new.head }
        ensures entered { entered_in self.new ≤ entered_in self.old + 1 }
        ensures live { live.new + entered_in self.old ≡ live.old + entered_in self.new }
    {
        let event = step.event;
        let way = places.way(step.syms, event.done.pc, event.done.next);
        // Asked before anything is written, so that what is known of it needn't be asked again.
        let stays = goes_on(event, way.place.func, way.next_func);
        let looked = near.of(event, ONE_CONTEXT);
        let row = cost.add_line(&mut self.rows, looked, way.place);
        near.remember(event, ONE_CONTEXT, looked, row);
        cost.add_total(&mut self.total);
        self.had_event = true;
        let leading = if stays { None } else { Some(way) };
        let changed = change(
            arena,
            self.head,
            live,
            step,
            leading,
            &self.total,
            &mut self.rows,
        );
        self.head = changed.head;
        changed.noted
    }

    /// Whether it is seen at once that the event only adds to a row and to the total, on a stack whose top is of the
    /// function of its pc. `note` does the same either way: where this is true before it, it calls nothing.
    #[inline(always)]
    pub fn is_plain(&self, near: &NearRows, event: &Event, syms: &SymMap) -> bool
        ensures known { result ≡ true → has_line (place_of syms.now event.now.done.pc) self.now.rows.lines ≡ true }
        ensures stays { result ≡ true → (s : Stack) → top_of s ≡ Some (place_of syms.now event.now.done.pc).func
            → change syms.now event.now s ≡ no_change s }
    {
        let Some(way) = syms.way_within(event.done.pc, event.done.next) else {
            return false;
        };
        if !goes_on(event, way.place.func, way.next_func) {
            return false;
        }
        self.rows.is_line_at(near.of(event, ONE_CONTEXT), way.place)
    }

    /// Has the open frames give their cost so far, and start anew.
    fn cut(&mut self, arena: &mut Arena, nothing: &FuncSet)
        requires kept { IsSoundBook arena.old.slots self.old }
        ensures kept { IsSoundBook arena.new.slots self.new }
        ensures gives { Gives (account_in arena.old.slots self.old) (account_in arena.new.slots self.new) }
        ensures head { self.new.head ≡ self.old.head }
        ensures line_room { self.new.rows.line_room ≡ self.old.rows.line_room }
        ensures arc_room { self.old.rows.arc_room ≤ self.new.rows.arc_room }
        ensures room { arena.new.spare ≡ arena.old.spare }
        ensures others { LeavesOthers arena.old.slots self.old.head arena.new.slots self.new.head }
    {
        let mut head = self.head;
        restart(arena, &mut head, &self.total, &mut self.rows, nothing);
        self.head = head;
    }

    /// The rows since the last cut, the open frames' costs counted in. After want of memory the sums are as before.
    pub fn take_rows(
        &mut self,
        arena: &mut Arena,
        nothing: &FuncSet,
    ) -> Result<TableRows, OutOfMemory>
        requires kept { IsSoundBook arena.old.slots self.old }
        ensures kept { IsSoundBook arena.new.slots self.new }
        ensures rows { IfOk result (IsCutOf (account_in arena.old.slots self.old)) }
        ensures whole_lines { IfOk result (λ rows. All (λ row. IsWhole row.cost) rows.lines) }
        ensures whole_arcs { IfOk result (λ rows. All (λ row. IsWhole row.cost) rows.arcs) }
        ensures account { OnOk result (account_in arena.new.slots self.new
            ≡ account_after_cut (account_in arena.old.slots self.old)) }
        ensures err { OnErr result
            (SameSums (account_in arena.old.slots self.old) (account_in arena.new.slots self.new)) }
        ensures thread { self.new.thread ≡ self.old.thread }
        ensures head { self.new.head ≡ self.old.head }
        ensures line_room { self.new.rows.line_room ≡ self.old.rows.line_room }
        ensures arc_room { self.old.rows.arc_room ≤ self.new.rows.arc_room }
        ensures room { arena.new.spare ≡ arena.old.spare }
        ensures others { LeavesOthers arena.old.slots self.old.head arena.new.slots self.new.head }
    {
        self.cut(arena, nothing);
        self.take()
    }

    /// The rows of the tables, which begin again from 0.
    fn take(&mut self) -> Result<TableRows, OutOfMemory>
        ensures rows { IfOk result (AreRowsIn self.old.rows.lines self.old.rows.arcs) }
        ensures whole_lines { IfOk result (λ rows. All (λ row. IsWhole row.cost) rows.lines) }
        ensures whole_arcs { IfOk result (λ rows. All (λ row. IsWhole row.cost) rows.arcs) }
        ensures lines { OnOk result (self.new.rows.lines ≡ cleared_lines self.old.rows.lines) }
        ensures arcs { OnOk result (self.new.rows.arcs ≡ cleared_arcs self.old.rows.arcs) }
        ensures had_event { OnOk result (self.new.had_event ≡ false) }
        ensures err { OnErr result (self.new ≡ self.old) }
        ensures head { self.new.head ≡ self.old.head }
        ensures total { self.new.total ≡ self.old.total }
        ensures thread { self.new.thread ≡ self.old.thread }
        ensures line_room { self.new.rows.line_room ≡ self.old.rows.line_room }
        ensures arc_room { self.new.rows.arc_room ≡ self.old.rows.arc_room }
    {
        let rows = self.rows.sorted()?;
        self.rows.clear();
        self.had_event = false;
        Ok(rows)
    }
}

/// Whether the thread ends with the event and its root is of a function that is watched.
fn leaves_root(arena: &Arena, head: Head, event: &Event, watched: &FuncSet) -> bool
    requires lies { LiesIn arena.now.slots head }
    requires live { 0 < head.depth }
    ensures { result ≡ root_leaves watched.now event.now (frames arena.now.slots head) }
{
    if !event.ends {
        return false;
    }
    watched.has(frame_at(arena, head, 0).func)
}

/// A chain after an event, and what the event did.
#[derive(Drop)]
struct Changed {
    head: Head,
    noted: Noted,
}

/// Changes a chain as an event says, with its frames told to the tables. The event's way is known, or that the chain stays
/// as it is.
#[inline(always)]
fn change(
    arena: &mut Arena,
    head: Head,
    live: &mut usize,
    step: &Step<'_>,
    way: Option<Way>,
    total: &Cost,
    rows: &mut Tables,
) -> Changed
    requires place { IfSome way (λ w. w.place ≡ place_of step.now.syms.now step.now.event.now.done.pc) }
    requires func { IfSome way (λ w. w.next_func ≡ next_func step.now.syms.now step.now.event.now) }
    requires stays { way ≡ None → change step.now.syms.now step.now.event.now (stack_at arena.old.slots head)
        ≡ no_change (stack_at arena.old.slots head) }
    requires counted { head.depth - 1 ≤ live.old }
    requires few { live.old < 2 ^ 32 }
    requires room { 1 ≤ arena.old.spare }
    requires lies { LiesIn arena.old.slots head }
    requires some { 0 < head.depth }
    requires starts { StartWithin total.now (frames arena.old.slots head) }
    requires entered { AreEntered (frames arena.old.slots head) }
    requires tellings { CanTell rows.old (tellings step.now.syms.now total.now (frames arena.old.slots head) step.now.event.now) }
    ensures lies { LiesIn arena.new.slots result.head }
    ensures frames { frames arena.new.slots result.head
        ≡ frames_after step.now.syms.now total.now (frames arena.old.slots head) step.now.event.now }
    ensures starts { StartWithin total.now (frames arena.new.slots result.head) }
    ensures told { RowsAfterTellings rows.old (tellings step.now.syms.now total.now (frames arena.old.slots head) step.now.event.now) rows.new }
    ensures answer { result.noted ≡ noted_answer step.now.syms.now step.now.watched.now step.now.event.now (frames arena.old.slots head) }
    ensures room { arena.new.spare + count_pushed (pushed_activation step.now.syms.now step.now.event.now (frames arena.old.slots head))
        ≡ arena.old.spare + drop_count step.now.syms.now step.now.event.now (stack_at arena.old.slots head) }
    ensures others { LeavesOthers arena.old.slots head arena.new.slots result.head }
    ensures live { live.new + (head.depth - 1) ≡ live.old + (result.head.depth - 1) }
{
    match way {
        None => {
            let noted = Noted {
                pushed: None,
                left: false,
            };
            Changed { head, noted }
        }
        Some(way) => {
            let mut after = head;
            let noted = change_frames(arena, &mut after, step, way, total, rows);
            *live = *live - head.depth.saturating_sub(1) + after.depth.saturating_sub(1);
            Changed { head: after, noted }
        }
    }
}

/// What `change` does where frames may go or come. It has a frame of its own, so that an event which stays in its
/// function needs none.
#[inline(never)]
fn change_frames(
    arena: &mut Arena,
    head: &mut Head,
    step: &Step<'_>,
    way: Way,
    total: &Cost,
    rows: &mut Tables,
) -> Noted
    requires place { way.place ≡ place_of step.now.syms.now step.now.event.now.done.pc }
    requires func { way.next_func ≡ next_func step.now.syms.now step.now.event.now }
    requires room { 1 ≤ arena.old.spare }
    requires lies { LiesIn arena.old.slots head.old }
    requires live { 0 < head.old.depth }
    requires starts { StartWithin total.now (frames arena.old.slots head.old) }
    requires entered { AreEntered (frames arena.old.slots head.old) }
    requires tellings { CanTell rows.old (tellings step.now.syms.now total.now (frames arena.old.slots head.old) step.now.event.now) }
    ensures lies { LiesIn arena.new.slots head.new }
    ensures frames { frames arena.new.slots head.new
        ≡ frames_after step.now.syms.now total.now (frames arena.old.slots head.old) step.now.event.now }
    ensures starts { StartWithin total.now (frames arena.new.slots head.new) }
    ensures told { RowsAfterTellings rows.old (tellings step.now.syms.now total.now (frames arena.old.slots head.old) step.now.event.now)
        rows.new }
    ensures answer { result ≡ noted_answer step.now.syms.now step.now.watched.now step.now.event.now (frames arena.old.slots head.old) }
    ensures room { arena.new.spare + count_pushed (pushed_activation step.now.syms.now step.now.event.now (frames arena.old.slots head.old))
        ≡ arena.old.spare + drop_count step.now.syms.now step.now.event.now (stack_at arena.old.slots head.old) }
    ensures others { LeavesOthers arena.old.slots head.old arena.new.slots head.new }
{
    let left = leaves_root(arena, *head, step.event, step.watched);
    let mut teller = Teller {
        rows,
        watched: step.watched,
        noted: Noted { pushed: None, left },
    };
    let mut held = arena.lend(head);
    held.after_known(step.event, step.syms, way, total, &mut teller);
    teller.noted
}

/// Tells the tables what each frame of a chain has cost, and gives it the total as its start.
fn restart(arena: &mut Arena, head: &mut Head, total: &Cost, rows: &mut Tables, nothing: &FuncSet)
    requires lies { LiesIn arena.old.slots head.old }
    requires starts { StartWithin total.now (frames arena.old.slots head.old) }
    requires tellings { CanTell rows.old (closings total.now (frames arena.old.slots head.old)) }
    ensures lies { LiesIn arena.new.slots head.new }
    ensures head { head.new ≡ head.old }
    ensures frames { frames arena.new.slots head.new ≡ restarted_frames total.now (frames arena.old.slots head.old) }
    ensures told { RowsAfterTellings rows.old (closings total.now (frames arena.old.slots head.old)) rows.new }
    ensures room { arena.new.spare ≡ arena.old.spare }
    ensures others { LeavesOthers arena.old.slots head.old arena.new.slots head.new }
{
    let mut teller = Teller {
        rows,
        watched: nothing,
        noted: Noted {
            pushed: None,
            left: false,
        },
    };
    let mut held = arena.lend(head);
    held.restart(total, &mut teller);
}
