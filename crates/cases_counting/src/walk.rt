//! A stack with the total of its thread.

ghost use Rattle.std.specs.Prelude.{◌≤◌};
ghost use Rattle.std.specs.List.{AllZip};

use crate::log::Log;
use prof_base::{Cost, Event, FuncId, OutOfMemory};
use shadow_stack::ShadowStack;
use std::alloc::Global;
use std::marker::Model;
use sym_map::SymMap;

/// A stack whose events cost one instruction each, and what it told.
#[derive(Drop)]
pub struct Walk {
    stack: ShadowStack,
    total: Cost,
    log: Log,
}

impl Model for Walk {
    ghost use Rattle.shadow_stack.specs.Frames.{Frames, StartWithin};

    ghost Value = { Frames };

    ghost view = { λ w. w.stack };

    ghost invariant = { λ w. StartWithin w.total w.stack.frames };
}

/// The total after one instruction more.
pub fn raise(total: &Cost) -> Cost
    ensures { AllZip (λ t s. s ≤ t) result total.now }
{
    let mut more = *total;
    let instructions = more.n[0];
    if instructions == u64::MAX {
        return more;
    }
    more.n[0] = instructions + 1;
    more
}

impl Walk {
    /// The stack of a thread that begins in this function.
    pub fn new(alloc: Global, root: u32) -> Result<Walk, OutOfMemory> {
        let total = Cost::ZERO;
        let stack = ShadowStack::new(alloc, FuncId(root), &total)?;
        Ok(Walk {
            stack,
            total,
            log: Log::new(alloc),
        })
    }

    /// One event more. A stack whose thread has ended stays as it is.
    pub fn step(&mut self, event: &Event, syms: &SymMap) -> Result<(), OutOfMemory> {
        self.stack.reserve()?;
        if self.stack.depth() == 0 {
            return Ok(());
        }
        let total = raise(&self.total);
        self.stack.after(event, syms, &total, &mut self.log);
        self.total = total;
        Ok(())
    }

    pub fn restart(&mut self) {
        self.stack.restart(&self.total, &mut self.log);
    }

    pub fn stack(&self) -> &ShadowStack {
        &self.stack
    }

    pub fn log(&self) -> &Log {
        &self.log
    }
}
