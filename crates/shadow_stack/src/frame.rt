//! A frame of a call stack.

ghost use Rattle.std.specs.Prelude.{◌≡◌};

use event_costs::{ArcKey, Cost, Event, FuncId};

/// What a frame came from.
#[derive(Clone, Copy, Debug, PartialEq, Eq)]
pub enum Kind {
    /// The thread began with it.
    Root,
    /// A call: the address that it returns to, and the stack pointer after it.
    Call(u32, u32),
    /// A jump from one function to another.
    Jump,
}

impl Kind {
    ghost use Rattle.shadow_stack.specs.Arenas.{greatest_with, least_with};
    ghost use Rattle.shadow_stack.specs.Kinds.{call_of, is_jump, is_left_by, returns_by, is_below, is_level};

    /// The call that an event makes. It returns to the instruction after it.
    pub(crate) fn call_of(event: &Event) -> Kind
        ensures { result ≡ call_of event.now }
    {
        Kind::Call(event.done.pc.wrapping_add(4), event.done.sp)
    }

    pub(crate) fn is_jump(self) -> bool
        ensures { result ≡ is_jump self }
    {
        matches!(self, Kind::Jump)
    }

    /// Whether it is a call that returns to the event's next pc with its stack pointer.
    pub(crate) fn is_left_by(self, event: &Event) -> bool
        ensures { result ≡ is_left_by event.now self }
    {
        match self {
            Kind::Call(ret, sp) => ret == event.done.next && sp == event.done.sp,
            _ => false,
        }
    }

    /// Whether it is a call that returns to the event's next pc.
    pub(crate) fn returns_by(self, event: &Event) -> bool
        ensures { result ≡ returns_by event.now self }
    {
        match self {
            Kind::Call(ret, _) => ret == event.done.next,
            _ => false,
        }
    }

    /// Whether it is a call whose stack pointer is below that of the event.
    pub(crate) fn is_below(self, event: &Event) -> bool
        ensures { result ≡ is_below event.now self }
    {
        match self {
            Kind::Call(_, sp) => sp < event.done.sp,
            _ => false,
        }
    }

    /// Whether it is a call whose stack pointer is that of the event.
    pub(crate) fn is_level(self, event: &Event) -> bool
        ensures { result ≡ is_level event.now self }
    {
        match self {
            Kind::Call(_, sp) => sp == event.done.sp,
            _ => false,
        }
    }

    /// The least stack pointer of the calls, with this frame on top of those that have that least one.
    pub(crate) fn least_with(self, beneath: u32) -> u32
        ensures { result ≡ least_with self beneath }
    {
        match self {
            Kind::Call(_, sp) => sp.min(beneath),
            _ => beneath,
        }
    }

    /// The greatest one likewise.
    pub(crate) fn greatest_with(self, beneath: u32) -> u32
        ensures { result ≡ greatest_with self beneath }
    {
        match self {
            Kind::Call(_, sp) => sp.max(beneath),
            _ => beneath,
        }
    }
}

/// A function that was entered and hasn't been left.
#[derive(Clone, Copy, Debug)]
pub struct Frame {
    pub func: FuncId,
    /// The arc that entered it, nothing for a root.
    pub from: Option<ArcKey>,
    pub kind: Kind,
    /// What the thread had cost when this frame was entered, or at the last restart.
    pub start: Cost,
}
