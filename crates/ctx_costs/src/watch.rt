//! The watch that counts by calling context.

ghost use Rattle.std.specs.Prelude.{◌≡◌, ◌==◌, ◌≤◌, IfOk, IfSome, OnErr, OnOk, Some, position, true};
ghost use Rattle.ctx_rows.specs.Telling.{CanSee, CanWrite, HasRoom, named_rows, rows_in};
ghost use Rattle.ctx_rows.specs.Texts.{ctx_text};
ghost use Rattle.ctx_rows.specs.States.{after_part, after_ready, after_seen, knows};
ghost use Rattle.ctx_rows.specs.Watching.{IsFresh, by_context};
ghost use Rattle.ctx_costs.specs.inner.Tracks.{Book, HasBegun, IsPlaceOf};
ghost use Rattle.ctx_costs.specs.inner.WatchLaw.{context_watch_keeps_room, context_watch_lasts};

use crate::names::named_rows;
use crate::noting::{is_plain, note, note_plain};
use crate::sorting::in_order;
use crate::track::Track;
use arc_costs::{NearRows, TableRows};
use byte_text::{OutOfMemory, Text};
use cg_format::PartHead;
use contexts::{Context, ContextRef, Contexts};
use ctx_rows::{CtxRows, write_by_number};
use event_costs::{ContextNo, Cost, Event, FuncId, Ones, ThreadNo, ones_of};
use part_dump::Watch;
use std::alloc::Global;
use std::marker::Model;
use sym_map::{SymMap, maps_are_sound};

/// Counts what each thread costs by calling context: a function with up to so many callers. Contracts see the state of
/// all threads.
#[derive(Drop)]
pub struct CtxCosts {
    alloc: Global,
    /// How many callers a context has at most.
    callers: u32,
    contexts: Contexts,
    tracks: Vec<Track>,
    near: NearRows,
    /// The thread that was last made ready, while there is room for a step of it.
    roomy: Option<ThreadNo>,
    /// Whether it has stepped since.
    stepped: bool,
}

impl Model for CtxCosts {
    ghost use Rattle.std.specs.Prelude.{None, if◌then◌else◌, map};
    ghost use Rattle.ctx_rows.specs.States.{CtxState};
    ghost use Rattle.ctx_costs.specs.inner.Tracks.{IsWatching, track_of};

    ghost Value = { CtxState };

    ghost view = { λ w. record {
      callers = w.callers;
      contexts = w.contexts.contexts;
      tracks = map track_of w.tracks.items;
      ready = if w.stepped then None else w.roomy;
    } };

    ghost invariant = { λ w. IsWatching w.callers w.contexts w.tracks.items w.roomy };
}

/// Where a thread's first track stands.
fn first_place(tracks: &[Track], thread: ThreadNo) -> Option<usize>
    ensures { result ≡ position (λ (b : Book). thread.0 == b.thread.0) tracks.now }
{
    tracks.iter().position(|track| thread.0 == track.thread.0)
}

/// Where a thread's track stands, if threads have started in the order of their numbers.
#[inline(always)]
fn near_place(tracks: &[Track], thread: ThreadNo) -> Option<usize>
    ensures { IfSome result (λ place. IsPlaceOf tracks.now thread (Some place)) }
{
    let near = (thread.0 as usize).wrapping_sub(1);
    match tracks.get(near) {
        Some(track) if track.thread.0 == thread.0 => Some(near),
        _ => None,
    }
}

/// Where a thread's track stands, if it has one.
#[inline(always)]
fn place_of(tracks: &[Track], thread: ThreadNo) -> Option<usize>
    ensures { IsPlaceOf tracks.now thread result }
{
    if let Some(near) = near_place(tracks, thread) {
        return Some(near);
    }
    first_place(tracks, thread)
}

/// Whether it is this thread.
#[inline(always)]
fn is_thread(known: Option<ThreadNo>, thread: ThreadNo) -> bool
    ensures { result ≡ true → known ≡ Some thread }
{
    match known {
        Some(other) => other.0 == thread.0,
        None => false,
    }
}

/// Begins a thread in this function, whose context is a new one or has come up. On an error nothing has changed.
fn begin(
    alloc: Global,
    tracks: &mut Vec<Track>,
    contexts: &mut Contexts,
    thread: ThreadNo,
    func: FuncId,
) -> Result<(), OutOfMemory>
    requires { 1 ≤ contexts.old.room }
    ensures ok { OnOk result (HasBegun thread func tracks.old.items contexts.old tracks.new.items contexts.new) }
    ensures err_tracks { OnErr result (tracks.new.items ≡ tracks.old.items) }
    ensures err_contexts { OnErr result (contexts.new ≡ contexts.old) }
{
    tracks.reserve(1)?;
    let context = Context::of(func);
    let number = contexts.next_number(&context);
    let track = Track::new(alloc, thread, func, number)?;
    contexts.number_of(context);
    tracks.push(track).unwrap();
    Ok(())
}

impl CtxCosts {
    /// A watch before any call, by contexts of a function with up to so many callers, 16 at most.
    pub fn new(alloc: Global, callers: u32) -> CtxCosts
        requires few { callers ≤ 16 }
        ensures fresh { IsFresh result }
        ensures callers { result.callers ≡ callers }
    {
        CtxCosts {
            alloc,
            callers,
            contexts: Contexts::new(alloc),
            tracks: Vec::new(alloc),
            near: NearRows::new(alloc),
            roomy: None,
            stepped: false,
        }
    }

    /// The rows of a thread since its last cut, what its open frames have cost counted in: lines by context, file and
    /// line, arcs by caller, file, line and callee. The thread was made ready once.
    pub fn rows(&self, thread: ThreadNo) -> Result<CtxRows, OutOfMemory>
        requires known { knows self.now thread ≡ true }
        ensures rows { IfOk result (λ rows. rows ≡ record { thread = thread; rows = rows_in self.now thread }) }
    {
        let contexts = self.contexts.refs()?;
        let rows = self.rows_by_number(thread, &contexts)?;
        named_rows(self.alloc, thread, &rows, &contexts)
    }

    /// These rows by the numbers of contexts, in the order of the contexts.
    fn rows_by_number(
        &self,
        thread: ThreadNo,
        contexts: &[ContextRef<'_>],
    ) -> Result<TableRows<ContextNo>, OutOfMemory>
        requires known { knows self.now thread ≡ true }
        requires contexts { contexts.now ≡ self.now.contexts }
        ensures { IfOk result (λ rows. named_rows contexts.now rows ≡ rows_in self.now thread) }
    {
        let Some(place) = place_of(&self.tracks, thread) else {
            unreachable!()
        };
        let rows = self.tracks[place].rows()?;
        Ok(in_order(rows, contexts))
    }

    /// The text of a thread's part, made of its rows by number: no context is copied.
    fn text(&self, head: &PartHead, syms: &SymMap) -> Result<Text, OutOfMemory>
        requires { CanWrite self.now head.now.thread syms.now }
        ensures { IfOk result (λ text. text ≡ ctx_text head.now (rows_in self.now head.now.thread) syms.now) }
    {
        maps_are_sound(syms);
        let contexts = self.contexts.refs()?;
        let rows = self.rows_by_number(head.thread, &contexts)?;
        write_by_number(self.alloc, head, rows, &contexts, syms)
    }

    /// Has the rows of a thread count from 0, and its open frames start anew. The thread was made ready once.
    pub fn cut(&mut self, thread: ThreadNo)
        requires known { knows self.old thread ≡ true }
        ensures { self.new ≡ after_part self.old thread }
    {
        let Some(place) = place_of(&self.tracks, thread) else {
            unreachable!()
        };
        self.tracks[place].cut();
    }

    /// What `ready` does where room may be wanting.
    #[cold]
    #[inline(never)]
    fn ready_cold(&mut self, thread: ThreadNo, pc: u32, syms: &SymMap) -> Result<(), OutOfMemory>
        ensures ok { OnOk result (self.new ≡ after_ready self.old thread pc syms.now) }
        ensures err { OnErr result (self.new ≡ self.old) }
    {
        self.contexts.reserve()?;
        if let Some(place) = place_of(&self.tracks, thread) {
            self.tracks[place].reserve()?;
            self.roomy = Some(thread);
            self.stepped = false;
            return Ok(());
        }
        self.near.prepare()?;
        let func = syms.place(pc).func;
        begin(
            self.alloc,
            &mut self.tracks,
            &mut self.contexts,
            thread,
            func,
        )?;
        self.roomy = Some(thread);
        self.stepped = false;
        Ok(())
    }

    /// What `seen` does, for a cost of kinds. A step that only adds to numbers calls nothing but for seldom kinds. It is
    /// cold for the loop of a run, most of which aren't watched so.
    #[cold]
    #[inline(never)]
    fn seen_by_kinds(&mut self, event: &Event, ones: &Ones, syms: &SymMap)
        requires { CanSee self.old event.now ones.now }
        ensures { self.new ≡ after_seen self.old event.now ones.now syms.now }
    {
        let Some(place) = place_of(&self.tracks, event.thread) else {
            unreachable!()
        };
        let looked = self.near.of(event, self.tracks[place].top().low());
        if !is_plain(&self.tracks[place], looked, event, syms) {
            return self.seen_cold(event, &ones.cost(), syms);
        }
        note_plain(&mut self.tracks[place], looked, event, ones, syms);
        self.stepped = true;
    }

    /// What `seen` does.
    #[cold]
    #[inline(never)]
    fn seen_cold(&mut self, event: &Event, cost: &Cost, syms: &SymMap)
        requires { CanSee self.old event.now cost.now }
        ensures { self.new ≡ after_seen self.old event.now cost.now syms.now }
    {
        let Some(place) = place_of(&self.tracks, event.thread) else {
            unreachable!()
        };
        self.roomy = None;
        self.stepped = true;
        note(
            &mut self.tracks[place],
            &mut self.near,
            &mut self.contexts,
            self.callers,
            event,
            cost,
            syms,
        );
    }
}

impl Watch for CtxCosts {
    ghost meaning = { by_context };

    ghost fresh = { λ w syms. IsFresh w };

    ghost has_room = { HasRoom };

    ghost can_see = { λ w event cost wait woken syms. CanSee w event cost };

    ghost can_write = { λ w head rows syms. CanWrite w head.thread syms };

    ghost keeps_room = { context_watch_keeps_room };

    ghost lasts = { context_watch_lasts };

    #[inline(always)]
    fn ready(&mut self, thread: ThreadNo, pc: u32, syms: &SymMap) -> Result<(), OutOfMemory> {
        if is_thread(self.roomy, thread) && near_place(&self.tracks, thread).is_some() {
            self.stepped = false;
            return Ok(());
        }
        self.ready_cold(thread, pc, syms)
    }

    // It hands on copies, whose addresses the loop of a run needn't keep.
    #[inline(always)]
    fn seen(
        &mut self,
        event: &Event,
        cost: &Cost,
        _wait: Option<u32>,
        _woken: &[ThreadNo],
        syms: &SymMap,
    ) {
        let event = event.copied();
        match ones_of(cost) {
            Some(ones) => self.seen_by_kinds(&event, &ones, syms),
            None => {
                let cost = *cost;
                self.seen_cold(&event, &cost, syms)
            }
        }
    }

    fn part(
        &mut self,
        head: &PartHead,
        _rows: &TableRows,
        syms: &SymMap,
    ) -> Result<Text, OutOfMemory> {
        let text = self.text(head, syms)?;
        self.cut(head.thread);
        Ok(text)
    }
}
