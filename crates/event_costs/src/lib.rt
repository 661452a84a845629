//! Events of a run, what they cost, and the numbers that name threads, functions and files.
#![tactic(auto)]

mod arcs;
mod cost;
mod event;
mod func_set;
mod keys;
mod kind;
mod numbers;
mod ones;
mod outcome;

pub use arcs::ArcSink;
pub use cost::{Cost, EVENT_NAMES, EVENTS, event_names_shown};
pub use event::{
    ADDRESSES, Branch, Done, Event, Flow, INSTRUCTION_BYTES, Regs, STACK_POINTER, Touch,
};
pub use func_set::FuncSet;
pub use keys::{ArcKey, Place};
pub use kind::Kind;
pub use numbers::{ContextNo, FileId, FuncId, Number, ThreadNo};
pub use ones::{Ones, ones_of};
pub use outcome::{End, Noted};
