//! What a chain is asked.

ghost use Rattle.std.specs.Prelude.{◌≡◌, ◌<◌, Some, length, reverse, slice_get};
ghost use Rattle.shadow_stack.specs.Stacks.{top_of};
ghost use Rattle.shadow_stack.specs.Arenas.{frames, stack_at, LiesIn};

use crate::arena::{Arena, Head};
use crate::frame::Frame;
use event_costs::FuncId;

/// The function of the top frame.
pub fn top_of(arena: &Arena, head: Head) -> Option<FuncId>
    requires { LiesIn arena.now.slots head }
    ensures { result ≡ top_of (stack_at arena.now.slots head) }
{
    if head.depth == 0 {
        return None;
    }
    Some(arena.top(head).frame.func)
}

/// The frame at this place, counted from the bottom.
pub fn frame_at(arena: &Arena, head: Head, place: usize) -> Frame
    requires lies { LiesIn arena.now.slots head }
    requires within { place < head.depth }
    ensures { slice_get (reverse (frames arena.now.slots head)) place ≡ Some result }
{
    let mut at = head;
    'sought: while at.depth - 1 > place {
        at = at.beneath(arena.top(at));
    }
    arena.top(at).frame
}
