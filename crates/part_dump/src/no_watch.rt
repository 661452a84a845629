//! The watch of a run that nobody watches.

ghost use Rattle.std.specs.Prelude.{◌≡◌};
ghost use Rattle.cg_format.specs.Part.{AreKnown};
ghost use Rattle.part_dump.specs.Plain.{plain, stateless};
ghost use Rattle.part_dump.specs.inner.PlainLaw.{plain_keeps_room, plain_lasts};

use crate::watch::Watch;
use arc_costs::TableRows;
use byte_text::{OutOfMemory, Text};
use cg_format::{PartHead, write_part};
use event_costs::{Cost, Event, ThreadNo};
use std::alloc::Global;
use std::marker::Model;
use sym_map::SymMap;

/// Nobody watches: it has no state, and the text of a part is that of its rows.
#[derive(Drop)]
pub struct NoWatch {
    alloc: Global,
}

impl Model for NoWatch {
    ghost use Rattle.part_dump.specs.Plain.{Stateless, stateless};

    ghost Value = { Stateless };

    ghost view = { λ w. stateless };
}

impl NoWatch {
    /// A watch before any call.
    pub fn new(alloc: Global) -> NoWatch
        ensures { result ≡ stateless }
    {
        NoWatch { alloc }
    }
}

impl Watch for NoWatch {
    ghost meaning = { plain };

    ghost fresh = { λ w syms. Unit {0} };

    ghost has_room = { λ w thread. Unit {0} };

    ghost can_see = { λ w event cost wait woken syms. Unit {0} };

    ghost can_write = { λ w head rows syms. AreKnown syms rows };

    ghost keeps_room = { plain_keeps_room };

    ghost lasts = { plain_lasts };

    fn ready(&mut self, _thread: ThreadNo, _pc: u32, _syms: &SymMap) -> Result<(), OutOfMemory> {
        Ok(())
    }

    fn seen(
        &mut self,
        _event: &Event,
        _cost: &Cost,
        _wait: Option<u32>,
        _woken: &[ThreadNo],
        _syms: &SymMap,
    ) {}

    fn part(
        &mut self,
        head: &PartHead,
        rows: &TableRows,
        syms: &SymMap,
    ) -> Result<Text, OutOfMemory> {
        write_part(self.alloc, head, rows, syms)
    }
}
