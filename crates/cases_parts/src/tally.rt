//! A watch that counts its calls and sees them in order.

ghost use Rattle.std.specs.Prelude.{◌≡◌, fold};
ghost use Rattle.cases_parts.specs.TallyState.{mix_number, mix_thread, tally};
ghost use Rattle.cases_parts.specs.inner.TallyLaw.{tally_keeps_room, tally_lasts};

use arc_costs::TableRows;
use cg_format::PartHead;
use part_dump::Watch;
use prof_base::{Cost, Event, OutOfMemory, Text, ThreadNo};
use std::alloc::Global;
use std::marker::Model;
use sym_map::SymMap;

/// Mixes the numbers of its calls one after another: 1, a thread and its pc where one is ready; 2, a thread, its pc,
/// the address at which it waits (0 for none), its cost and the threads that it woke where one was seen; and 3, the
/// number and the thread of a part. A part's text says how many calls there were before.
#[derive(Drop)]
pub struct Tally {
    alloc: Global,
    pub calls: u64,
    pub order: u64,
}

impl Model for Tally {
    ghost use Rattle.cases_parts.specs.TallyState.{TallyState};

    ghost Value = { TallyState };

    ghost view = { λ w. record { calls = w.calls; order = w.order } };
}

/// Mixes one more number.
pub fn mix(order: u64, number: u64) -> u64
    ensures { result ≡ mix_number order number }
{
    order.wrapping_mul(31).wrapping_add(number)
}

/// Mixes numbers one after another.
pub fn mix_all(order: u64, numbers: &[u64]) -> u64
    ensures { result ≡ fold mix_number order numbers.now }
{
    let mut after = order;
    'numbers: for number in numbers {
        after = mix(after, *number);
    }
    after
}

/// Mixes the numbers of threads one after another.
fn mix_threads(order: u64, threads: &[ThreadNo]) -> u64
    ensures { result ≡ fold mix_thread order threads.now }
{
    let mut after = order;
    'threads: for thread in threads {
        after = mix(after, u64::from(thread.0));
    }
    after
}

impl Tally {
    /// Before any call.
    pub fn new(alloc: Global) -> Tally {
        Tally {
            alloc,
            calls: 0,
            order: 0,
        }
    }
}

impl Watch for Tally {
    ghost meaning = { tally };

    ghost fresh = { λ w syms. Unit {0} };

    ghost has_room = { λ w thread. Unit {0} };

    ghost can_see = { λ w event cost wait woken syms. Unit {0} };

    ghost can_write = { λ w head rows syms. Unit {0} };

    ghost keeps_room = { tally_keeps_room };

    ghost lasts = { tally_lasts };

    fn ready(&mut self, thread: ThreadNo, pc: u32, _syms: &SymMap) -> Result<(), OutOfMemory> {
        self.calls = self.calls.saturating_add(1);
        self.order = mix_all(self.order, &[1, u64::from(thread.0), u64::from(pc)]);
        Ok(())
    }

    fn seen(
        &mut self,
        event: &Event,
        cost: &Cost,
        wait: Option<u32>,
        woken: &[ThreadNo],
        _syms: &SymMap,
    ) {
        let address = u64::from(wait.unwrap_or(0));
        let step = [
            2,
            u64::from(event.thread.0),
            u64::from(event.done.pc),
            address,
        ];
        self.calls = self.calls.saturating_add(1);
        let order = mix_all(mix_all(self.order, &step), cost.numbers());
        self.order = mix_threads(order, woken);
    }

    fn part(
        &mut self,
        head: &PartHead,
        _rows: &TableRows,
        _syms: &SymMap,
    ) -> Result<Text, OutOfMemory> {
        let mut text = Text::from_bytes(self.alloc, b"after ")?;
        text.push_number(self.calls)?;
        self.calls = self.calls.saturating_add(1);
        let numbers = [3, u64::from(head.part), u64::from(head.thread.0)];
        self.order = mix_all(self.order, &numbers);
        Ok(text)
    }
}
