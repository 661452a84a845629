//! Frames that go from a chain, and those that are told at a cut.

ghost use Rattle.std.specs.Prelude.{◌≡◌, ℕ, ◌+◌, ◌-◌, ◌≤◌, take, drop};
ghost use Rattle.std.specs.List.{AllZip};
ghost use Rattle.event_costs.specs.Arcs.{TakesAll};
ghost use Rattle.shadow_stack.specs.Frames.{closing, closings, StartWithin, restarted_frames};
ghost use Rattle.shadow_stack.specs.Arenas.{frames, LiesIn, ChangesChainOnly, LeavesOthers};

use crate::arena::{Arena, Head};
use crate::frame::Frame;
use event_costs::{ArcSink, Cost};

/// Tells the sink of a frame with what it cost, if it has an arc.
fn tell<S: ArcSink>(frame: &Frame, total: &Cost, sink: &mut S)
    requires within { AllZip (λ t s. s ≤ t) total.now frame.now.start }
    requires tellings { S.can_take sink.old (closing total.now frame.now) }
    ensures { TakesAll S.takes sink.old (closing total.now frame.now) sink.new }
{
    if let Some(arc) = frame.from {
        sink.closed(&arc, &total.minus(&frame.start));
    }
}

/// Takes the frames above this depth off a chain, and tells of each from the top down. What is left.
pub fn close<S: ArcSink>(
    arena: &mut Arena,
    head: Head,
    depth: usize,
    total: &Cost,
    sink: &mut S,
) -> Head
    requires lies { LiesIn arena.old.slots head }
    requires below { depth ≤ head.depth }
    requires starts { StartWithin total.now (frames arena.old.slots head) }
    requires tellings { S.can_take sink.old
        (closings total.now (take (head.depth - depth) (frames arena.old.slots head))) }
    ensures lies { LiesIn arena.new.slots result }
    ensures depth { result.depth ≡ depth }
    ensures frames { frames arena.new.slots result ≡ drop (head.depth - depth) (frames arena.old.slots head) }
    ensures told { TakesAll S.takes sink.old
        (closings total.now (take (head.depth - depth) (frames arena.old.slots head))) sink.new }
    ensures chain { ChangesChainOnly arena.old.slots head arena.new.slots result }
    ensures room { arena.new.spare + depth ≡ arena.old.spare + head.depth }
{
    let mut at = head;
    'closed: while at.depth > depth {
        let frame = arena.top(at).frame;
        tell(&frame, total, sink);
        at = arena.pop(at);
    }
    at
}

/// Tells of each frame of a chain from the top down, and gives it the total as its start.
pub fn restart<S: ArcSink>(arena: &mut Arena, head: Head, total: &Cost, sink: &mut S)
    requires lies { LiesIn arena.old.slots head }
    requires starts { StartWithin total.now (frames arena.old.slots head) }
    requires tellings { S.can_take sink.old (closings total.now (frames arena.old.slots head)) }
    ensures lies { LiesIn arena.new.slots head }
    ensures frames { frames arena.new.slots head ≡ restarted_frames total.now (frames arena.old.slots head) }
    ensures told { TakesAll S.takes sink.old (closings total.now (frames arena.old.slots head)) sink.new }
    ensures chain { ChangesChainOnly arena.old.slots head arena.new.slots head }
    ensures room { arena.new.spare ≡ arena.old.spare }
{
    let mut at = head;
    'restarted: while at.depth > 0 {
        let node = arena.top(at);
        let frame = node.frame;
        let beneath = at.beneath(node);
        tell(&frame, total, sink);
        arena.restart_top(at, total);
        at = beneath;
    }
}

/// Tells of each frame of a chain from the top down, which stays as it is.
pub fn tell_all<S: ArcSink>(arena: &Arena, head: Head, total: &Cost, sink: &mut S)
    requires lies { LiesIn arena.now.slots head }
    requires starts { StartWithin total.now (frames arena.now.slots head) }
    requires tellings { S.can_take sink.old (closings total.now (frames arena.now.slots head)) }
    ensures { TakesAll S.takes sink.old (closings total.now (frames arena.now.slots head)) sink.new }
{
    let mut at = head;
    'told: while at.depth > 0 {
        let node = arena.top(at);
        let frame = node.frame;
        let beneath = at.beneath(node);
        tell(&frame, total, sink);
        at = beneath;
    }
}
