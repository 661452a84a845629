//! How threads take turns, and what a step of the machine answers.

use byte_text::Text;
use event_costs::{End, Event};

/// How threads take turns.
#[derive(Clone, Copy, Debug, PartialEq, Eq)]
pub struct Turns {
    /// The steps of a turn, at least 1; with a seed, the most steps of a turn.
    pub quantum: u32,
    /// What the turns are drawn from. Without it the threads take turns in order, each for the quantum.
    pub seed: Option<u64>,
}

/// What a step of the machine did.
#[derive(Debug, Drop)]
pub enum Turn {
    /// An instruction retired.
    Retired(Event),
    /// A system call retired that outputs bytes to a descriptor, 1 or 2.
    RetiredOutput(Event, u32, Text),
    /// The run is over, and nothing changed.
    Ended(End),
}

/// Why the running thread's instruction doesn't retire.
#[derive(Clone, Copy, Debug, PartialEq, Eq)]
pub enum Halt {
    /// It is a system call.
    Ecall,
    /// It traps with this signal.
    Trap(u32),
    /// The word at the pc, this one, is no instruction.
    Unknown(u32),
}

/// What becomes of the running thread after a step.
#[derive(Clone, Copy, Debug, PartialEq, Eq)]
pub enum Fate {
    /// It runs on as far as its turn goes.
    Runs,
    /// It gives way.
    Yields,
    /// It waits or has ended.
    Leaves,
}
