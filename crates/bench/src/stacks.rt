//! Follows the events of a recursion with a call stack.

ghost use Rattle.std.specs.Prelude.{◌≤◌};
ghost use Rattle.std.specs.List.{AllZip};

use crate::map::map_of;
use crate::recursion::{AGAIN, LAST, RETURNED, call, event, pointer_at};
use byte_text::OutOfMemory;
use event_costs::{ArcKey, ArcSink, Cost, Event, Flow, FuncId};
use shadow_stack::ShadowStack;
use std::alloc::Global;
use std::marker::Model;
use sym_map::SymMap;

/// How often arcs were told, and the instructions of those that were closed.
#[derive(Clone, Copy)]
struct ArcCounts {
    pushed: u64,
    closed: u64,
    instructions: u64,
}

impl ArcSink for ArcCounts {
    ghost use Rattle.std.specs.Prelude.{⊤};

    ghost can_take = { λ _ _. ⊤ };

    ghost takes = { λ _ _ _. ⊤ };

    fn pushed(&mut self, _arc: &ArcKey) {
        self.pushed = self.pushed.wrapping_add(1);
    }

    fn closed(&mut self, _arc: &ArcKey, cost: &Cost) {
        self.closed = self.closed.wrapping_add(1);
        self.instructions = self.instructions.wrapping_add(cost.n[0]);
    }

    ghost takes_front = { λ _ _ _ _. tt };

    ghost takes_rest = { λ _ _ _ _ _ _. tt };
}

/// A stack whose events cost one instruction each.
#[derive(Drop)]
struct Walk {
    stack: ShadowStack,
    total: Cost,
    told: ArcCounts,
}

impl Model for Walk {
    ghost use Rattle.shadow_stack.specs.Frames.{Frames, StartWithin};

    ghost Value = { Frames };

    ghost view = { λ w. w.stack };

    ghost invariant = { λ w. StartWithin w.total w.stack.frames };
}

/// The total after one instruction more.
fn raised(total: &Cost) -> Cost
    ensures { AllZip (λ t s. s ≤ t) result total.now }
{
    let mut more = *total;
    let instructions = more.n[0];
    if instructions == u64::MAX {
        return more;
    }
    more.n[0] = instructions + 1;
    more
}

impl Walk {
    /// The stack of a thread that begins in the function.
    fn new(alloc: Global) -> Result<Walk, OutOfMemory> {
        let total = Cost::ZERO;
        Ok(Walk {
            stack: ShadowStack::new(alloc, FuncId(1), &total)?,
            total,
            told: ArcCounts {
                pushed: 0,
                closed: 0,
                instructions: 0,
            },
        })
    }

    /// One event more. A stack whose thread has ended stays as it is.
    fn step(&mut self, event: &Event, syms: &SymMap) -> Result<(), OutOfMemory> {
        self.stack.reserve()?;
        if self.stack.depth() == 0 {
            return Ok(());
        }
        let total = raised(&self.total);
        self.stack.after(event, syms, &total, &mut self.told);
        self.total = total;
        Ok(())
    }

    /// A number of all that was told, and of what is left.
    fn sum(&self) -> u64 {
        let told = self.told;
        (self.stack.depth() as u64)
            .wrapping_add(told.pushed)
            .wrapping_add(told.closed)
            .wrapping_add(told.instructions)
    }
}

/// The two events that are repeated within a call with this stack pointer, which takes so many bytes of the stack.
fn repeated(form: &str, sp: u32, bytes: u32) -> Option<[Event; 2]> {
    let below = sp.wrapping_sub(bytes);
    match form {
        "calls" => Some([call(1, below), event(1, Flow::Jump, LAST, RETURNED, below)]),
        "jumps" => Some([event(1, Flow::Jump, LAST, AGAIN, below); 2]),
        "level" => Some([event(1, Flow::Jump, LAST, AGAIN, sp); 2]),
        "plain" => Some([event(1, Flow::Plain, AGAIN, RETURNED, below); 2]),
        _ => None,
    }
}

/// The stack of a recursion of this depth, each of whose calls takes so many bytes of the stack.
fn recursion(alloc: Global, syms: &SymMap, depth: u32, bytes: u32) -> Result<Walk, OutOfMemory> {
    let mut walk = Walk::new(alloc)?;
    for k in 0..depth {
        walk.step(&call(1, pointer_at(k, bytes)), syms)?;
    }
    Ok(walk)
}

/// Takes so many events, of which two are repeated.
fn repeat(
    walk: &mut Walk,
    syms: &SymMap,
    events: &[Event; 2],
    count: u32,
) -> Result<(), OutOfMemory> {
    for turn in 0..count {
        walk.step(&events[(turn % 2) as usize], syms)?;
    }
    Ok(())
}

/// `@FILE FORM BYTES DEPTH EVENTS`: over the map of the program of the file, in a recursion of this depth, each of whose calls takes so many bytes of the stack, so
/// many events: `calls` (calls and their returns in turn), `jumps` (back, below the call's stack pointer), `level`
/// (back, at the call's stack pointer) or `plain`.
pub fn stacks(alloc: Global, file: &[u8], form: &str, numbers: &[u32]) -> Option<u64> {
    let &[bytes, depth, count] = numbers else {
        return None;
    };
    let sp = pointer_at(depth.wrapping_sub(1), bytes);
    let events = repeated(form, sp, bytes)?;
    let syms = map_of(alloc, file)?;
    let mut walk = recursion(alloc, &syms, depth, bytes).ok()?;
    repeat(&mut walk, &syms, &events, count).ok()?;
    Some(walk.sum())
}
