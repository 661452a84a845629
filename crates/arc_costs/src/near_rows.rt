//! Where line rows were found last.

use byte_text::OutOfMemory;
use event_costs::{Event, INSTRUCTION_BYTES};
use std::alloc::Global;

/// How many rows are remembered.
const REMEMBERED: usize = 65536;

/// How far the numbers of two threads' instructions are apart: threads mostly run the same code, each with rows of its
/// own.
const THREADS_APART: usize = 8191;

/// How far those of one instruction in two contexts are apart.
const CONTEXTS_APART: usize = 509;

/// For some instructions of some threads the index of the row that they counted in last, by a context where an
/// instruction has several rows. What is remembered may be of another instruction, thread or context: it only says
/// where to look first.
#[derive(Drop)]
pub struct NearRows {
    rows: Vec<u32>,
}

impl NearRows {
    /// Nothing is remembered, and each row is searched. It takes no memory.
    pub fn new(alloc: Global) -> NearRows {
        NearRows {
            rows: Vec::new(alloc),
        }
    }

    /// Takes the memory to remember with, if it has none.
    pub fn prepare(&mut self) -> Result<(), OutOfMemory> {
        if self.rows.len() == 0 {
            self.rows.resize(REMEMBERED, 0)?;
        }
        Ok(())
    }

    /// Where the row of an event in this context is to be looked for first.
    #[inline(always)]
    pub fn of(&self, event: &Event, context: u32) -> usize {
        match self.rows.get(number_of(event, context)) {
            Some(row) => *row as usize,
            None => usize::MAX,
        }
    }

    /// Remembers the row of an event in this context, which was looked for here first.
    #[inline(always)]
    pub fn remember(&mut self, event: &Event, context: u32, looked: usize, row: usize) {
        if row == looked {
            return;
        }
        let number = number_of(event, context);
        if let Some(place) = self.rows.get_mut(number) {
            *place = u32::try_from(row).unwrap_or(0);
        }
    }
}

/// The number under which the row of an event is remembered.
#[inline(always)]
fn number_of(event: &Event, context: u32) -> usize {
    let apart = event.thread.0 as usize * THREADS_APART + context as usize * CONTEXTS_APART;
    ((event.done.pc / INSTRUCTION_BYTES) as usize + apart) % REMEMBERED
}
