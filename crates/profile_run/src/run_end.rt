//! How a run ended.

use event_costs::{End, ThreadNo};
use std::marker::Model;

/// A part that was put: its number, its thread, and the length of its file in bytes.
#[derive(Clone, Copy, Debug, PartialEq, Eq)]
pub struct PartFile {
    pub part: u32,
    pub thread: ThreadNo,
    pub len: u64,
}

/// A run that came to its end.
#[derive(Debug, Drop)]
pub struct RunEnd {
    pub end: End,
    /// How many steps it made.
    pub steps: u64,
    /// How many threads were made, the first among them.
    pub threads: u32,
    /// The parts, in the order in which they were put.
    pub parts: Vec<PartFile>,
}

impl Model for RunEnd {
    ghost use Rattle.profile_run.specs.Runs.{RunEnd};

    ghost Value = { RunEnd };

    ghost view = { λ r. record { end = r.end; steps = r.steps; threads = r.threads; parts = r.parts.items } };
}
