//! What an event does to a chain.

ghost use Rattle.std.specs.Prelude.{◌≡◌, ℕ, ◌+◌, ◌<◌, ◌≤◌, ◌∷◌, Some, true};
ghost use Rattle.event_costs.specs.Arcs.{TakesAll};
ghost use Rattle.sym_map.specs.SymbolMap.{place_of, SymbolMap};
ghost use Rattle.shadow_stack.specs.Changes.{arc_from, change, change_to, activation_at};
ghost use Rattle.shadow_stack.specs.Changes.{drop_count, next_func, settle, no_change};
ghost use Rattle.shadow_stack.specs.Frames.{count_pushed, frame_of, frames_after, pushed_activation, pushing, stack};
ghost use Rattle.shadow_stack.specs.Frames.{StartWithin, tellings};
ghost use Rattle.shadow_stack.specs.Arenas.{frames, stack_at, LiesIn, ChangesChainOnly};
ghost use Rattle.shadow_stack.specs.Stacks.{Stack, top_of};
ghost use Rattle.shadow_stack.specs.Staying.{goes_on};

use crate::arena::{Arena, Head};
use crate::closing::close;
use crate::cutting::{cut, down_to};
use crate::frame::{Frame, Kind};
use event_costs::{ArcKey, ArcSink, Cost, Event, Flow, FuncId, Place};
use sym_map::{SymMap, Way};

/// What an event keeps of a chain, and the kind of the frame that it pushes.
#[derive(Clone, Copy)]
struct Plan {
    kept: Head,
    pushed: Option<Kind>,
}

/// The top becomes a frame of the function that the event leads to.
fn settle(arena: &Arena, head: Head, event: &Event, syms: &SymMap, func: FuncId) -> Plan
    requires lies { LiesIn arena.now.slots head }
    requires func { func ≡ next_func syms.now event.now }
    ensures change { change_to syms.now event.now (stack_at arena.now.slots result.kept) result.pushed
        ≡ settle syms.now event.now (stack_at arena.now.slots head) }
    ensures lies { LiesIn arena.now.slots result.kept }
{
    match down_to(arena, head, func) {
        Some(kept) => Plan { kept, pushed: None },
        None => Plan {
            kept: head,
            pushed: Some(Kind::Jump),
        },
    }
}

/// Whether the event goes on from its function to the same one, by no call and no jump, and its thread doesn't end. It
/// leaves a stack as it is whose top is of that function.
#[inline(always)]
pub fn goes_on(event: &Event, func: FuncId, next: FuncId) -> bool
    ensures exact { result ≡ goes_on event.now func next }
    ensures change { result ≡ true → (syms : SymbolMap) (s : Stack) → next ≡ next_func syms event.now
        → top_of s ≡ Some func → change syms event.now s ≡ no_change s }
{
    if event.ends {
        return false;
    }
    match event.done.flow {
        Flow::Plain => func == next,
        _ => false,
    }
}

fn plan_change(arena: &Arena, head: Head, event: &Event, syms: &SymMap, func: FuncId) -> Plan
    requires lies { LiesIn arena.now.slots head }
    requires some { 0 < head.depth }
    requires func { func ≡ next_func syms.now event.now }
    ensures change { change_to syms.now event.now (stack_at arena.now.slots result.kept) result.pushed
        ≡ change syms.now event.now (stack_at arena.now.slots head) }
    ensures lies { LiesIn arena.now.slots result.kept }
{
    if event.ends {
        return Plan {
            kept: Head::EMPTY,
            pushed: None,
        };
    }
    match event.done.flow {
        Flow::Plain => settle(arena, head, event, syms, func),
        Flow::Call => Plan {
            kept: head,
            pushed: Some(Kind::call_of(event)),
        },
        Flow::Jump => {
            let kept = cut(arena, head, event, syms, func);
            settle(arena, kept, event, syms, func)
        }
        Flow::Swap => {
            let kept = cut(arena, head, event, syms, func);
            Plan {
                kept,
                pushed: Some(Kind::call_of(event)),
            }
        }
    }
}

/// Puts a frame of this function on a chain, entered at this place, and tells of it.
fn enter<S: ArcSink>(
    arena: &mut Arena,
    head: Head,
    kind: Kind,
    func: FuncId,
    place: Place,
    total: &Cost,
    sink: &mut S,
) -> Head
    requires room { 1 ≤ arena.old.spare }
    requires lies { LiesIn arena.old.slots head }
    requires some { 0 < head.depth }
    requires tellings { S.can_take sink.old
        (pushing (Some (activation_at place func kind (stack_at arena.old.slots head)))) }
    ensures lies { LiesIn arena.new.slots result }
    ensures frames { frames arena.new.slots result
        ≡ frame_of total.now (activation_at place func kind (stack_at arena.old.slots head))
        ∷ frames arena.old.slots head }
    ensures told { TakesAll S.takes sink.old
        (pushing (Some (activation_at place func kind (stack_at arena.old.slots head)))) sink.new }
    ensures chain { ChangesChainOnly arena.old.slots head arena.new.slots result }
    ensures room { arena.new.spare + 1 ≡ arena.old.spare }
{
    let caller = arena.top(head).frame.func;
    let arc = ArcKey {
        caller,
        file: place.file,
        line: place.line,
        callee: func,
    };
    sink.pushed(&arc);
    let frame = Frame {
        func,
        from: Some(arc),
        kind,
        start: *total,
    };
    arena.push(head, frame)
}

/// Changes a chain as an event says, and tells of the frames that go and come. The chain after it. The event's place
/// and the function that it leads to are known.
pub fn change<S: ArcSink>(
    arena: &mut Arena,
    head: Head,
    event: &Event,
    syms: &SymMap,
    way: Way,
    total: &Cost,
    sink: &mut S,
) -> Head
    requires place { way.place ≡ place_of syms.now event.now.done.pc }
    requires func { way.next_func ≡ next_func syms.now event.now }
    requires room { 1 ≤ arena.old.spare }
    requires lies { LiesIn arena.old.slots head }
    requires some { 0 < head.depth }
    requires starts { StartWithin total.now (frames arena.old.slots head) }
    requires tellings { S.can_take sink.old (tellings syms.now total.now (frames arena.old.slots head) event.now) }
    ensures lies { LiesIn arena.new.slots result }
    ensures frames { frames arena.new.slots result
        ≡ frames_after syms.now total.now (frames arena.old.slots head) event.now }
    ensures told { TakesAll S.takes sink.old
        (tellings syms.now total.now (frames arena.old.slots head) event.now) sink.new }
    ensures chain { ChangesChainOnly arena.old.slots head arena.new.slots result }
    ensures room { arena.new.spare + count_pushed (pushed_activation syms.now event.now (frames arena.old.slots head))
        ≡ arena.old.spare + drop_count syms.now event.now (stack_at arena.old.slots head) }
{
    let func = way.next_func;
    if goes_on(event, arena.top(head).frame.func, func) {
        return head;
    }
    let plan = plan_change(arena, head, event, syms, func);
    let kept = close(arena, head, plan.kept.depth, total, sink);
    match plan.pushed {
        Some(kind) => enter(arena, kept, kind, func, way.place, total, sink),
        None => kept,
    }
}
