//! Who is told of the frames of a thread.

ghost use Rattle.std.specs.Prelude.{◌≡◌, reverse};
ghost use Rattle.ctx_costs.specs.inner.Frames.{top_arc};

use arc_costs::Tables;
use byte_text::OutOfMemory;
use event_costs::{ArcKey, ArcSink, ContextNo, Cost, FileId, FuncId};

/// The arc between the contexts of the two top frames of these numbers, the root's first. The lowest has none.
fn top_arc(arc: &ArcKey, numbers: &[ContextNo]) -> Option<ArcKey<ContextNo>>
    ensures { result ≡ top_arc arc.now (reverse numbers.now) }
{
    let left = numbers.len();
    if left < 2 {
        return None;
    }
    Some(ArcKey {
        caller: numbers[left - 2],
        file: arc.file,
        line: arc.line,
        callee: numbers[left - 1],
    })
}

/// Where a frame was entered, and its function.
#[derive(Clone, Copy)]
pub struct Entry {
    pub file: FileId,
    pub line: u32,
    pub func: FuncId,
}

/// Counts the frames that are closed at the arcs between their contexts, and keeps how the one was entered that is pushed.
#[derive(Drop)]
pub(crate) struct Closing<'a> {
    pub(crate) rows: &'a mut Tables<ContextNo>,
    /// The numbers of the contexts of the frames that are still there.
    pub(crate) numbers: &'a [ContextNo],
    pub(crate) pushed: Option<Entry>,
}

impl ArcSink for Closing<'_> {
    ghost use Rattle.ctx_costs.specs.inner.Tellings.{CanTake, Tells, takes_front, takes_rest};

    ghost can_take = { CanTake };

    ghost takes = { Tells };

    fn pushed(&mut self, arc: &ArcKey) {
        self.pushed = Some(Entry {
            file: arc.file,
            line: arc.line,
            func: arc.callee,
        });
    }

    fn closed(&mut self, arc: &ArcKey, cost: &Cost) {
        if let Some(between) = top_arc(arc, self.numbers) {
            self.rows.add_arc(&between, cost);
            self.numbers = &self.numbers[..self.numbers.len() - 1];
        }
    }

    ghost takes_front = { takes_front };

    ghost takes_rest = { takes_rest };
}

/// Adds what open frames have cost to rows beside their thread's, as long as there is memory.
#[derive(Drop)]
pub(crate) struct Opening<'a> {
    pub(crate) rows: &'a mut Tables<ContextNo>,
    /// The numbers of the contexts of the frames that are still to be told.
    pub(crate) numbers: &'a [ContextNo],
    pub(crate) memory: Result<(), OutOfMemory>,
}

impl ArcSink for Opening<'_> {
    ghost use Rattle.ctx_costs.specs.inner.Tellings.{CanOpen, Opens, opens_front, opens_rest};

    ghost can_take = { CanOpen };

    ghost takes = { Opens };

    fn pushed(&mut self, _arc: &ArcKey) {}

    fn closed(&mut self, arc: &ArcKey, cost: &Cost) {
        if self.memory.is_err() {
            return;
        }
        if let Some(between) = top_arc(arc, self.numbers) {
            self.numbers = &self.numbers[..self.numbers.len() - 1];
            match self.rows.reserve() {
                Ok(()) => self.rows.add_arc(&between, cost),
                Err(lack) => self.memory = Err(lack),
            }
        }
    }

    ghost takes_front = { opens_front };

    ghost takes_rest = { opens_rest };
}

/// Hears nothing: where all rows begin again, what frames have cost until then counts no more.
#[derive(Drop)]
pub(crate) struct Unheard;

impl ArcSink for Unheard {
    ghost can_take = { λ s ts. Unit {0} };

    ghost takes = { λ old t new. Unit {0} };

    fn pushed(&mut self, _arc: &ArcKey) {}

    fn closed(&mut self, _arc: &ArcKey, _cost: &Cost) {}

    ghost takes_front = { λ sink front rest can. tt };

    ghost takes_rest = { λ old new telling rest can told. tt };
}
