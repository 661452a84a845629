//! A chain that is borrowed together with its arena.

ghost use Rattle.shadow_stack.specs.Arenas.{LiesIn, LiesIn-prop};

use crate::arena::{Arena, Head};
use crate::changing::change;
use crate::closing::restart;
use crate::frame::Frame;
use crate::reading::{frame_at, top_of};
use event_costs::{ArcSink, Cost, Event, FuncId};
use sym_map::{SymMap, Way};

/// One chain of an arena, for writing. What is done through it changes the frames of this chain and no other's.
#[derive(Drop)]
pub struct Held<'a> {
    pub arena: &'a mut Arena,
    pub head: &'a mut Head,
    ghost lies: { LiesIn arena.now.slots head.now } by { LiesIn-prop arena.now.slots head.now },
}

impl<'a> Held<'a> {
    ghost use Rattle.std.specs.Prelude.{◌≡◌, ◌<◌, ◌≤◌, ◌+◌, ◌∷◌, ◌++◌, [], List, IsNone, Some, ◌↔◌, false, true};
    ghost use Rattle.std.specs.Prelude.{length, reverse, slice_get};
    ghost use Rattle.event_costs.specs.Arcs.{TakesAll};
    ghost use Rattle.event_costs.specs.declared.event.Event.{Event as EventValue};
    ghost use Rattle.shadow_stack.specs.Stacks.{Stack, is_rooted, top_of};
    ghost use Rattle.shadow_stack.specs.Changes.{after, drop_count, next_func};
    ghost use Rattle.sym_map.specs.SymbolMap.{place_of};
    ghost use Rattle.shadow_stack.specs.Traces.{stack_after};
    ghost use Rattle.shadow_stack.specs.Frames.{closings, count_pushed, frames_after, pushed_activation, restarted_frames, StartWithin};
    ghost use Rattle.shadow_stack.specs.Frames.{tellings};
    ghost use Rattle.shadow_stack.specs.Arenas.{frames, stack_at, ChangesChainOnly, LeavesOthers};
    ghost use Rattle.shadow_stack.specs.Loans.{SameLoan};

    /// The chain after an event of its thread, which hasn't ended, at the thread's total. Each frame that goes is told,
    /// from the top down, and then the one that comes. It takes no memory.
    pub fn after<S: ArcSink>(&mut self, event: &Event, syms: &SymMap, total: &Cost, sink: &mut S)
        requires room { 1 ≤ self.old.arena.now.spare }
        requires live { 0 < self.old.head.now.depth }
        requires starts { StartWithin total.now (frames self.old.arena.now.slots self.old.head.now) }
        requires tellings { S.can_take sink.old
            (tellings syms.now total.now (frames self.old.arena.now.slots self.old.head.now) event.now) }
        ensures frames { frames self.new.arena.now.slots self.new.head.now
            ≡ frames_after syms.now total.now (frames self.old.arena.now.slots self.old.head.now) event.now }
        ensures stack { stack_at self.new.arena.now.slots self.new.head.now
            ≡ after syms.now (stack_at self.old.arena.now.slots self.old.head.now) event.now }
        ensures starts { StartWithin total.now (frames self.new.arena.now.slots self.new.head.now) }
        ensures told { TakesAll S.takes sink.old
            (tellings syms.now total.now (frames self.old.arena.now.slots self.old.head.now) event.now) sink.new }
        ensures chain { ChangesChainOnly self.old.arena.now.slots self.old.head.now
            self.new.arena.now.slots self.new.head.now }
        ensures others { LeavesOthers self.old.arena.now.slots self.old.head.now
            self.new.arena.now.slots self.new.head.now }
        // Room falls by one where a frame comes, and rises by one for each that goes.
        ensures room { self.new.arena.now.spare
            + count_pushed (pushed_activation syms.now event.now (frames self.old.arena.now.slots self.old.head.now))
            ≡ self.old.arena.now.spare + drop_count syms.now event.now (stack_at self.old.arena.now.slots self.old.head.now) }
        // The root goes with the thread's end alone, and then all goes.
        ensures root { event.now.ends ≡ false → is_rooted (stack_at self.new.arena.now.slots self.new.head.now) ≡ true }
        ensures end { event.now.ends ≡ true → frames self.new.arena.now.slots self.new.head.now ≡ [] }
        // A stack that stands for events stands for one more.
        ensures stands { (first : Stack) (events : List EventValue)
            → stack_at self.old.arena.now.slots self.old.head.now ≡ stack_after syms.now first events
            → stack_at self.new.arena.now.slots self.new.head.now
            ≡ stack_after syms.now first (events ++ event.now ∷ []) }
        ensures loan { SameLoan self.old self.new }
    {
        let way = syms.way(event.done.pc, event.done.next);
        self.after_known(event, syms, way, total, sink);
    }

    /// What `after` does, where the event's place and the function that it leads to are known.
    pub fn after_known<S: ArcSink>(
        &mut self,
        event: &Event,
        syms: &SymMap,
        way: Way,
        total: &Cost,
        sink: &mut S,
    )
        requires place { way.place ≡ place_of syms.now event.now.done.pc }
        requires func { way.next_func ≡ next_func syms.now event.now }
        requires room { 1 ≤ self.old.arena.now.spare }
        requires live { 0 < self.old.head.now.depth }
        requires starts { StartWithin total.now (frames self.old.arena.now.slots self.old.head.now) }
        requires tellings { S.can_take sink.old
            (tellings syms.now total.now (frames self.old.arena.now.slots self.old.head.now) event.now) }
        ensures frames { frames self.new.arena.now.slots self.new.head.now
            ≡ frames_after syms.now total.now (frames self.old.arena.now.slots self.old.head.now) event.now }
        ensures stack { stack_at self.new.arena.now.slots self.new.head.now
            ≡ after syms.now (stack_at self.old.arena.now.slots self.old.head.now) event.now }
        ensures starts { StartWithin total.now (frames self.new.arena.now.slots self.new.head.now) }
        ensures told { TakesAll S.takes sink.old
            (tellings syms.now total.now (frames self.old.arena.now.slots self.old.head.now) event.now) sink.new }
        ensures chain { ChangesChainOnly self.old.arena.now.slots self.old.head.now
            self.new.arena.now.slots self.new.head.now }
        ensures others { LeavesOthers self.old.arena.now.slots self.old.head.now
            self.new.arena.now.slots self.new.head.now }
        // Room falls by one where a frame comes, and rises by one for each that goes.
        ensures room { self.new.arena.now.spare
            + count_pushed (pushed_activation syms.now event.now (frames self.old.arena.now.slots self.old.head.now))
            ≡ self.old.arena.now.spare + drop_count syms.now event.now (stack_at self.old.arena.now.slots self.old.head.now) }
        // The root goes with the thread's end alone, and then all goes.
        ensures root { event.now.ends ≡ false → is_rooted (stack_at self.new.arena.now.slots self.new.head.now) ≡ true }
        ensures end { event.now.ends ≡ true → frames self.new.arena.now.slots self.new.head.now ≡ [] }
        // A stack that stands for events stands for one more.
        ensures stands { (first : Stack) (events : List EventValue)
            → stack_at self.old.arena.now.slots self.old.head.now ≡ stack_after syms.now first events
            → stack_at self.new.arena.now.slots self.new.head.now
            ≡ stack_after syms.now first (events ++ event.now ∷ []) }
        ensures loan { SameLoan self.old self.new }
    {
        let head = change(self.arena, *self.head, event, syms, way, total, sink);
        *self.head = head;
    }

    /// Tells of each frame, from the top down, with what it has cost at the thread's total, which is its start from now
    /// on. Nothing else changes. It takes no memory.
    pub fn restart<S: ArcSink>(&mut self, total: &Cost, sink: &mut S)
        requires starts { StartWithin total.now (frames self.old.arena.now.slots self.old.head.now) }
        requires tellings { S.can_take sink.old
            (closings total.now (frames self.old.arena.now.slots self.old.head.now)) }
        ensures frames { frames self.new.arena.now.slots self.new.head.now
            ≡ restarted_frames total.now (frames self.old.arena.now.slots self.old.head.now) }
        ensures stack { stack_at self.new.arena.now.slots self.new.head.now
            ≡ stack_at self.old.arena.now.slots self.old.head.now }
        ensures starts { StartWithin total.now (frames self.new.arena.now.slots self.new.head.now) }
        ensures told { TakesAll S.takes sink.old
            (closings total.now (frames self.old.arena.now.slots self.old.head.now)) sink.new }
        ensures head { self.new.head.now ≡ self.old.head.now }
        ensures chain { ChangesChainOnly self.old.arena.now.slots self.old.head.now
            self.new.arena.now.slots self.new.head.now }
        ensures others { LeavesOthers self.old.arena.now.slots self.old.head.now
            self.new.arena.now.slots self.new.head.now }
        ensures room { self.new.arena.now.spare ≡ self.old.arena.now.spare }
        ensures loan { SameLoan self.old self.new }
    {
        restart(self.arena, *self.head, total, sink);
    }

    /// The function of the top frame, nothing exactly after the thread's end.
    pub fn top(&self) -> Option<FuncId>
        ensures top { result ≡ top_of (stack_at self.now.arena.now.slots self.now.head.now) }
        ensures none { IsNone result ↔ (frames self.now.arena.now.slots self.now.head.now ≡ []) }
    {
        top_of(self.arena, *self.head)
    }

    /// How many frames there are.
    pub fn depth(&self) -> usize
        ensures { result ≡ length (frames self.now.arena.now.slots self.now.head.now) }
    {
        self.head.depth
    }

    /// The frame at this place, counted from the bottom: the root is at 0.
    pub fn frame(&self, i: usize) -> Frame
        requires { i < length (frames self.now.arena.now.slots self.now.head.now) }
        ensures { slice_get (reverse (frames self.now.arena.now.slots self.now.head.now)) i ≡ Some result }
    {
        frame_at(self.arena, *self.head, i)
    }
}

impl Arena {
    ghost use Rattle.std.specs.Prelude.{◌≡◌};

    /// Borrows a chain. Through it the chain's frames change and no others.
    pub fn lend<'a>(&'a mut self, head: &'a mut Head) -> Held<'a>
        requires { LiesIn self.old.slots head.old }
        ensures arena { result.arena.now ≡ self.old }
        ensures head { result.head.now ≡ head.old }
        ensures same_arena { result.arena.ghost_name ≡ self.entry.ghost_name }
        ensures same_head { result.head.ghost_name ≡ head.entry.ghost_name }
    {
        Held { arena: self, head }
    }
}
