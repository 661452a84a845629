//! A sink that takes few bytes at a time.

ghost use Rattle.std.specs.Prelude.{◌≡◌, ◌<◌, None, Some, []};

use prof_base::{OutOfMemory, Sink, WriteError};
use std::alloc::Global;
use std::marker::Model;

/// Takes at most `most` bytes with one write, and fails once it has taken `room` bytes.
#[derive(Drop)]
pub struct Drip {
    pub bytes: Vec<u8>,
    most: usize,
    room: usize,
    faults: u64,
}

impl Model for Drip {
    ghost use Rattle.cases_parts.specs.DripState.{DripState};

    ghost Value = { DripState };

    ghost view = { λ s. record { taken = s.bytes.items; faults = s.faults } };
}

impl Drip {
    /// An empty sink.
    pub fn new(alloc: Global, most: usize, room: usize) -> Drip {
        Drip {
            bytes: Vec::new(alloc),
            most,
            room,
            faults: 0,
        }
    }
}

impl Sink for Drip {
    ghost taken = { λ s. Some s.taken };

    ghost writes = { λ _. None };

    ghost faults = { λ s. s.faults };

    fn write(&mut self, bytes: &[u8]) -> Result<usize, WriteError> {
        if bytes.is_empty() {
            return Ok(0);
        }
        let left = self.room.saturating_sub(self.bytes.len());
        if left == 0 {
            self.faults = self.faults.saturating_add(1);
            return Err(WriteError::Failed);
        }
        let count = bytes.len().min(self.most.max(1)).min(left);
        match self.bytes.extend_from_slice(&bytes[..count]) {
            Ok(()) => Ok(count),
            Err(refused) => Err(WriteError::OutOfMemory(OutOfMemory::from(refused))),
        }
    }
}
