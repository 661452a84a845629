//! The events of a recursion.

use crate::map::BASE;
use event_costs::{Branch, Done, Event, Flow, ThreadNo, Touch};

/// A function that calls itself at its second instruction, is returned to at its third and ends with its fourth.
pub const FUNCTION: u32 = BASE;

pub const AGAIN: u32 = BASE + 4;

pub const RETURNED: u32 = BASE + 8;

pub const LAST: u32 = BASE + 12;

/// The stack pointer of the first call.
const STACK_TOP: u32 = 0x7ff0_0000;

/// A step of the thread.
pub fn event(thread: u32, flow: Flow, pc: u32, next: u32, sp: u32) -> Event {
    let done = Done {
        pc,
        next,
        sp,
        flow,
        touch: Touch::Nothing,
        branch: Branch::Nothing,
    };
    Event {
        thread: ThreadNo(thread),
        done,
        ends: false,
    }
}

/// A call by the function of itself.
pub fn call(thread: u32, sp: u32) -> Event {
    event(thread, Flow::Call, AGAIN, FUNCTION, sp)
}

/// The stack pointer of the call at this depth, where each takes so many bytes of the stack.
pub fn pointer_at(depth: u32, bytes: u32) -> u32 {
    STACK_TOP.wrapping_sub(depth.wrapping_mul(bytes))
}
