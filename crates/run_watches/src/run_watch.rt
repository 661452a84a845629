//! One of the watches.

ghost use Rattle.run_watches.specs.Watching.{CanSee, CanWrite, HasRoom, IsFresh, watching};
ghost use Rattle.run_watches.specs.inner.Law.{watching_keeps_room, watching_lasts};

use addr_costs::AddrTexts;
use arc_costs::TableRows;
use byte_text::{OutOfMemory, Text};
use cg_format::PartHead;
use ctx_costs::CtxCosts;
use event_costs::{Cost, Event, ThreadNo};
use part_dump::{NoWatch, Watch};
use sym_map::SymMap;
use wait_report::Waits;

/// Who watches a run. It is told what a watch of its kind is told, and answers what that answers.
#[derive(Drop)]
pub enum RunWatch {
    Nobody(NoWatch),
    Addresses(AddrTexts),
    Waits(Waits),
    Contexts(CtxCosts),
}

impl Watch for RunWatch {
    ghost meaning = { watching };

    ghost fresh = { IsFresh };

    ghost has_room = { HasRoom };

    ghost can_see = { CanSee };

    ghost can_write = { CanWrite };

    ghost keeps_room = { watching_keeps_room };

    ghost lasts = { watching_lasts };

    #[inline(always)]
    fn ready(&mut self, thread: ThreadNo, pc: u32, syms: &SymMap) -> Result<(), OutOfMemory> {
        match self {
            RunWatch::Nobody(_) | RunWatch::Addresses(_) => Ok(()),
            RunWatch::Waits(watch) => watch.ready(thread, pc, syms),
            RunWatch::Contexts(watch) => watch.ready(thread, pc, syms),
        }
    }

    #[inline(always)]
    fn seen(
        &mut self,
        event: &Event,
        cost: &Cost,
        wait: Option<u32>,
        woken: &[ThreadNo],
        syms: &SymMap,
    ) {
        match self {
            RunWatch::Nobody(_) | RunWatch::Addresses(_) => {}
            RunWatch::Waits(watch) => watch.seen(event, cost, wait, woken, syms),
            RunWatch::Contexts(watch) => watch.seen(event, cost, wait, woken, syms),
        }
    }

    fn part(
        &mut self,
        head: &PartHead,
        rows: &TableRows,
        syms: &SymMap,
    ) -> Result<Text, OutOfMemory> {
        match self {
            RunWatch::Nobody(watch) => watch.part(head, rows, syms),
            RunWatch::Waits(watch) => watch.part(head, rows, syms),
            RunWatch::Contexts(watch) => watch.part(head, rows, syms),
            RunWatch::Addresses(watch) => watch.part(head, rows, syms),
        }
    }
}
