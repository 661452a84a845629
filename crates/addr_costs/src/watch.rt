//! The watch that counts by address.

ghost use Rattle.std.specs.Prelude.{◌≡◌, IfOk, IfSome, None, OnErr, OnOk, Some};
ghost use Rattle.addr_rows.specs.States.{after_ready};
ghost use Rattle.addr_rows.specs.Telling.{CanSee, CanWrite, HasRoom, IsThere, thread_rows};
ghost use Rattle.addr_rows.specs.Watching.{IsFresh, by_address};
ghost use Rattle.addr_costs.specs.inner.WatchLaw.{address_watch_keeps_room, address_watch_lasts};

use crate::placing::located_rows;
use addr_rows::{AddrRows, write_addr};
use arc_costs::TableRows;
use byte_text::{OutOfMemory, Text};
use cg_format::PartHead;
use ctx_costs::CtxCosts;
use ctx_rows::plain_rows;
use event_costs::{Cost, Event, ThreadNo};
use part_dump::Watch;
use std::alloc::Global;
use std::marker::Model;
use sym_map::{SymMap, maps_are_sound};

/// By contexts of no callers a context is a function.
const NO_CALLERS: u32 = 0;

/// Counts what each thread costs by instruction address: by context over the map that tells code by its addresses.
/// Contracts see that watch, and the map that the first thread was made ready with.
#[derive(Drop)]
pub struct AddrCosts {
    alloc: Global,
    first_syms: Option<Maps>,
    costs: CtxCosts,
}

/// The map that the first thread was made ready with, and the one that tells its code by its addresses.
#[derive(Drop)]
struct Maps {
    places: SymMap,
    by_address: SymMap,
}

impl Model for AddrCosts {
    ghost use Rattle.std.specs.Prelude.{◌≡◌, IfSome};
    ghost use Rattle.std.specs.Option.{option_map};
    ghost use Rattle.addr_rows.specs.States.{AddrState};
    ghost use Rattle.sym_map.specs.AddressMap.{address_map};

    ghost Value = { AddrState };

    ghost view = { λ w. record { first_syms = option_map (λ o. o.places) w.first_syms; watched = w.costs } };

    ghost invariant = { λ w. IfSome w.first_syms (λ o. o.by_address ≡ address_map o.places) };
}

impl AddrCosts {
    /// A watch before any call.
    pub fn new(alloc: Global) -> AddrCosts
        ensures { IsFresh result }
    {
        AddrCosts {
            alloc,
            first_syms: None,
            costs: CtxCosts::new(alloc, NO_CALLERS),
        }
    }

    /// The rows of a thread since its last cut, what its open frames have cost counted in: lines by function and
    /// address, arcs by caller, address and callee. Files and lines are those of the addresses in the map that the
    /// first thread was made ready with. The thread was made ready once.
    pub fn rows(&self, thread: ThreadNo) -> Result<AddrRows, OutOfMemory>
        requires known { IsThere (thread_rows self.now thread) }
        ensures { IfOk result (λ rows. IfSome (thread_rows self.now thread) (λ listed.
            rows ≡ record { thread = thread; rows = listed })) }
    {
        let Some(maps) = &self.first_syms else {
            unreachable!()
        };
        let rows = self.costs.rows(thread)?;
        let rows = plain_rows(self.alloc, &rows)?;
        located_rows(self.alloc, thread, &rows, &maps.places)
    }

    /// What `ready` does before there is a map. After a refusal all is as before.
    #[cold]
    #[inline(never)]
    fn begin(&mut self, thread: ThreadNo, pc: u32, syms: &SymMap) -> Result<(), OutOfMemory>
        requires none { self.old.first_syms ≡ None }
        ensures ok { OnOk result (self.new ≡ after_ready self.old thread pc syms.now) }
        ensures err { OnErr result (self.new ≡ self.old) }
    {
        let places = syms.try_clone(self.alloc)?;
        let by_address = syms.try_clone(self.alloc)?.by_address();
        self.costs.ready(thread, pc, &by_address)?;
        self.first_syms = Some(Maps { places, by_address });
        Ok(())
    }
}

impl Watch for AddrCosts {
    ghost meaning = { by_address };

    ghost fresh = { λ w syms. IsFresh w };

    ghost has_room = { HasRoom };

    ghost can_see = { λ w event cost wait woken syms. CanSee w event cost };

    ghost can_write = { λ w head rows syms. CanWrite syms (thread_rows w head.thread) };

    ghost keeps_room = { address_watch_keeps_room };

    ghost lasts = { address_watch_lasts };

    fn ready(&mut self, thread: ThreadNo, pc: u32, syms: &SymMap) -> Result<(), OutOfMemory> {
        match &self.first_syms {
            Some(maps) => self.costs.ready(thread, pc, &maps.by_address),
            None => self.begin(thread, pc, syms),
        }
    }

    fn seen(
        &mut self,
        event: &Event,
        cost: &Cost,
        wait: Option<u32>,
        woken: &[ThreadNo],
        _syms: &SymMap,
    ) {
        match &self.first_syms {
            Some(maps) => self.costs.seen(event, cost, wait, woken, &maps.by_address),
            None => unreachable!(),
        }
    }

    fn part(
        &mut self,
        head: &PartHead,
        _rows: &TableRows,
        syms: &SymMap,
    ) -> Result<Text, OutOfMemory> {
        maps_are_sound(syms);
        let rows = self.rows(head.thread)?;
        let text = write_addr(self.alloc, head, &rows, syms)?;
        self.costs.cut(head.thread);
        Ok(text)
    }
}
