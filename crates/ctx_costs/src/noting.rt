//! What a step does to a thread.

ghost use Rattle.std.specs.Prelude.{◌≡◌, ℕ, ◌<◌, ◌≤◌, List, length, true};
ghost use Rattle.sym_map.specs.SymbolMap.{place_of};
ghost use Rattle.shadow_stack.specs.Changes.{change, no_change};
ghost use Rattle.shadow_stack.specs.Frames.{stack};
ghost use Rattle.arc_costs.specs.Lines.{has_line};
ghost use Rattle.contexts.specs.Contexts.{Context};
ghost use Rattle.ctx_rows.specs.Telling.{CanCount};
ghost use Rattle.ctx_rows.specs.States.{contexts_after, track_after_event};
ghost use Rattle.ctx_costs.specs.inner.Frames.{first_number};
ghost use Rattle.ctx_costs.specs.inner.Tracks.{IsKept, IsRoomy, numbers_of, track_of};

use crate::track::Track;
use arc_costs::NearRows;
use contexts::Contexts;
use event_costs::{Cost, Event, Ones};
use sym_map::SymMap;

/// Counts an event at the line of its pc in the context of the top frame, and then changes the stack: frames that go
/// give their arcs what they have cost, and one that comes counts as a call. It takes no memory.
#[cold]
#[inline(never)]
pub(crate) fn note(
    track: &mut Track,
    near: &mut NearRows,
    contexts: &mut Contexts,
    callers: u32,
    event: &Event,
    cost: &Cost,
    syms: &SymMap,
)
    requires few { callers ≤ 16 }
    requires kept { IsKept callers contexts.old.contexts track.old }
    requires room { IsRoomy track.old }
    requires context_room { 1 ≤ contexts.old.room }
    requires live { 0 < length track.old.stack.frames }
    requires sums { CanCount (track_of track.old) cost.now }
    ensures track { track_of track.new
        ≡ track_after_event callers contexts.old.contexts syms.now event.now cost.now (track_of track.old) }
    ensures contexts { contexts.new.contexts ≡ contexts_after callers contexts.old.contexts
        (change syms.now event.now (stack track.old.stack.frames)) }
    ensures kept { IsKept callers contexts.new.contexts track.new }
{
    let context = track.top().low();
    let looked = near.of(event, context);
    let row = track.count(looked, syms.place(event.done.pc), cost);
    near.remember(event, context, looked, row);
    track.change(event, syms, contexts, callers);
}

/// Whether it is seen at once that an event only adds to a row, which stands at this index, and to the total of its
/// thread.
#[inline(always)]
pub(crate) fn is_plain(track: &Track, looked: usize, event: &Event, syms: &SymMap) -> bool
    requires live { 0 < length track.now.numbers.items }
    ensures stays { result ≡ true → change syms.now event.now (stack track.now.stack.frames)
        ≡ no_change (stack track.now.stack.frames) }
    ensures there { result ≡ true → has_line (record {
      func = first_number (numbers_of track.now);
      file = (place_of syms.now event.now.done.pc).file;
      line = (place_of syms.now event.now.done.pc).line;
    }) track.now.rows.lines ≡ true }
{
    if !track.stays(event, syms) {
        return false;
    }
    let Some(at) = syms.indexed_place(event.done.pc) else {
        return false;
    };
    track.has_row_at(looked, at)
}

/// What `note` does with a plain event: it adds to its row, which is looked for at this index first, and to the total.
/// It uses no room.
#[inline(always)]
pub(crate) fn note_plain(
    track: &mut Track,
    looked: usize,
    event: &Event,
    ones: &Ones,
    syms: &SymMap,
)
    requires room { IsRoomy track.old }
    requires live { 0 < length track.old.stack.frames }
    requires numbers { 0 < length track.old.numbers.items }
    requires sums { CanCount (track_of track.old) ones.now }
    requires stays { change syms.now event.now (stack track.old.stack.frames)
        ≡ no_change (stack track.old.stack.frames) }
    requires there { has_line (record {
      func = first_number (numbers_of track.old);
      file = (place_of syms.now event.now.done.pc).file;
      line = (place_of syms.now event.now.done.pc).line;
    }) track.old.rows.lines ≡ true }
    ensures track { (callers : ℕ) (contexts : List Context) → IsKept callers contexts track.old
        → track_of track.new
        ≡ track_after_event callers contexts syms.now event.now ones.now (track_of track.old) }
    ensures contexts { (callers : ℕ) (contexts : List Context) → contexts
        ≡ contexts_after callers contexts (change syms.now event.now (stack track.old.stack.frames)) }
    ensures kept { (callers : ℕ) (contexts : List Context) → IsKept callers contexts track.old
        → IsKept callers contexts track.new }
    ensures room { IsRoomy track.new }
{
    track.count(looked, syms.place(event.done.pc), ones);
}
