//! The call stack of one thread.

ghost use Rattle.std.specs.Prelude.{◌≡◌, ◌<◌, ◌≤◌, ◌+◌, ◌∷◌, ◌++◌, [], List, IsNone, IfOk, OnOk, Some, None, ◌↔◌};
ghost use Rattle.std.specs.Prelude.{false, true, length, reverse, slice_get};
ghost use Rattle.event_costs.specs.Arcs.{TakesAll};
ghost use Rattle.event_costs.specs.declared.event.Event.{Event as EventValue};
ghost use Rattle.shadow_stack.specs.Stacks.{Stack, is_rooted, top_of};
ghost use Rattle.shadow_stack.specs.Changes.{after, drop_count};
ghost use Rattle.shadow_stack.specs.Traces.{stack_after};
ghost use Rattle.shadow_stack.specs.Frames.{closings, count_pushed, frames_after, pushed_activation, restarted_frames, stack};
ghost use Rattle.shadow_stack.specs.Frames.{StartWithin, tellings};

use crate::arena::{Arena, Head};
use crate::changing::change;
use crate::closing::{restart, tell_all};
use crate::frame::{Frame, Kind};
use crate::reading::{frame_at, top_of};
use byte_text::OutOfMemory;
use event_costs::{ArcSink, Cost, Event, FuncId};
use std::alloc::Global;
use std::marker::Model;
use sym_map::SymMap;

/// The call stack of a thread. Contracts see its frames, the top first, and how many more fit without memory.
#[derive(Drop)]
pub struct ShadowStack {
    arena: Arena,
    head: Head,
}

impl Model for ShadowStack {
    ghost use Rattle.shadow_stack.specs.Frames.{Frames};
    ghost use Rattle.shadow_stack.specs.Arenas.{frames, LiesIn};

    ghost Value = { Frames };

    ghost view = { λ s. record { frames = frames s.arena.slots s.head; spare = s.arena.spare } };

    ghost invariant = { λ s. LiesIn s.arena.slots s.head };
}

impl ShadowStack {
    /// The stack of a thread that begins in this function at this cost.
    pub fn new(alloc: Global, root: FuncId, total: &Cost) -> Result<ShadowStack, OutOfMemory>
        ensures { IfOk result (λ s. s.frames
            ≡ record { func = root; from = None; kind = Kind.Root; start = total.now } ∷ []) }
    {
        let mut arena = Arena::new(alloc);
        arena.reserve()?;
        let head = arena.root(root, total);
        Ok(ShadowStack { arena, head })
    }

    /// Makes room for one more frame.
    pub fn reserve(&mut self) -> Result<(), OutOfMemory>
        ensures room { OnOk result (1 ≤ self.new.spare) }
        ensures kept { self.old.spare ≤ self.new.spare }
        ensures same { self.new.frames ≡ self.old.frames }
    {
        self.arena.reserve()
    }

    /// The stack after an event of its thread, which hasn't ended, at the thread's total. Each frame that goes is told,
    /// from the top down, and then the one that comes. It takes no memory.
    pub fn after<S: ArcSink>(&mut self, event: &Event, syms: &SymMap, total: &Cost, sink: &mut S)
        requires room { 1 ≤ self.old.spare }
        requires live { 0 < length self.old.frames }
        requires starts { StartWithin total.now self.old.frames }
        requires tellings { S.can_take sink.old (tellings syms.now total.now self.old.frames event.now) }
        ensures frames { self.new.frames ≡ frames_after syms.now total.now self.old.frames event.now }
        ensures stack { stack self.new.frames ≡ after syms.now (stack self.old.frames) event.now }
        ensures starts { StartWithin total.now self.new.frames }
        ensures told { TakesAll S.takes sink.old (tellings syms.now total.now self.old.frames event.now) sink.new }
        // Room falls by one where a frame comes, and rises by one for each that goes.
        ensures room { self.new.spare + count_pushed (pushed_activation syms.now event.now self.old.frames)
            ≡ self.old.spare + drop_count syms.now event.now (stack self.old.frames) }
        // The root goes with the thread's end alone, and then all goes.
        ensures root { event.now.ends ≡ false → is_rooted (stack self.new.frames) ≡ true }
        ensures end { event.now.ends ≡ true → self.new.frames ≡ [] }
        // A stack that stands for events stands for one more.
        ensures stands { (first : Stack) (events : List EventValue)
            → stack self.old.frames ≡ stack_after syms.now first events
            → stack self.new.frames ≡ stack_after syms.now first (events ++ event.now ∷ []) }
    {
        let way = syms.way(event.done.pc, event.done.next);
        self.head = change(&mut self.arena, self.head, event, syms, way, total, sink);
    }

    /// Tells of each frame, from the top down, with what it has cost at the thread's total, which is its start from now
    /// on. Nothing else changes. It takes no memory.
    pub fn restart<S: ArcSink>(&mut self, total: &Cost, sink: &mut S)
        requires starts { StartWithin total.now self.old.frames }
        requires tellings { S.can_take sink.old (closings total.now self.old.frames) }
        ensures frames { self.new.frames ≡ restarted_frames total.now self.old.frames }
        ensures stack { stack self.new.frames ≡ stack self.old.frames }
        ensures starts { StartWithin total.now self.new.frames }
        ensures told { TakesAll S.takes sink.old (closings total.now self.old.frames) sink.new }
        ensures room { self.new.spare ≡ self.old.spare }
    {
        restart(&mut self.arena, self.head, total, sink);
    }

    /// Tells of each frame, from the top down, with what it has cost at the thread's total. It takes no memory.
    pub fn tell_open<S: ArcSink>(&self, total: &Cost, sink: &mut S)
        requires starts { StartWithin total.now self.now.frames }
        requires tellings { S.can_take sink.old (closings total.now self.now.frames) }
        ensures { TakesAll S.takes sink.old (closings total.now self.now.frames) sink.new }
    {
        tell_all(&self.arena, self.head, total, sink);
    }

    /// The function of the top frame, nothing exactly after the thread's end.
    pub fn top(&self) -> Option<FuncId>
        ensures top { result ≡ top_of (stack self.now.frames) }
        ensures none { IsNone result ↔ (self.now.frames ≡ []) }
    {
        top_of(&self.arena, self.head)
    }

    /// How many frames there are.
    pub fn depth(&self) -> usize
        ensures { result ≡ length self.now.frames }
    {
        self.head.depth
    }

    /// The frame at this place, counted from the bottom: the root is at 0.
    pub fn frame(&self, i: usize) -> Frame
        requires { i < length self.now.frames }
        ensures { slice_get (reverse self.now.frames) i ≡ Some result }
    {
        frame_at(&self.arena, self.head, i)
    }
}
