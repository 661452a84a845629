//! The texts of the parts of a run over the map that tells code by its addresses.

ghost use Rattle.std.specs.Prelude.{IfOk, ◌≡◌};
ghost use Rattle.addr_rows.specs.Translated.{CanTranslate, IsAddressMapOf, translation};
ghost use Rattle.addr_costs.specs.inner.TextsLaw.{texts_keep_room, texts_last};

use addr_rows::write_located;
use arc_costs::TableRows;
use byte_text::{OutOfMemory, Text};
use cg_format::PartHead;
use event_costs::{Cost, Event, ThreadNo};
use part_dump::Watch;
use std::alloc::Global;
use std::marker::Model;
use sym_map::{SymMap, maps_are_sound};

/// Gives the addresses of a run over the map of `SymMap::by_address` the places of the map that it was made of: a part has
/// the text of its rows by address. It has no state besides that map.
#[derive(Drop)]
pub struct AddrTexts {
    alloc: Global,
    syms: SymMap,
}

impl Model for AddrTexts {
    ghost use Rattle.sym_map.specs.SymbolMap.{SymbolMap};

    ghost Value = { SymbolMap };

    ghost view = { λ w. w.syms };
}

impl AddrTexts {
    /// With the map that is to give the places.
    pub fn new(alloc: Global, syms: SymMap) -> Result<AddrTexts, OutOfMemory>
        ensures { IfOk result (λ w. w ≡ syms) }
    {
        Ok(AddrTexts { alloc, syms })
    }
}

impl Watch for AddrTexts {
    ghost meaning = { translation };

    ghost fresh = { IsAddressMapOf };

    ghost has_room = { λ w thread. Unit {0} };

    ghost can_see = { λ w event cost wait woken syms. Unit {0} };

    ghost can_write = { λ w head rows syms. CanTranslate w rows syms };

    ghost keeps_room = { texts_keep_room };

    ghost lasts = { texts_last };

    fn ready(&mut self, _thread: ThreadNo, _pc: u32, _syms: &SymMap) -> Result<(), OutOfMemory> {
        Ok(())
    }

    fn seen(
        &mut self,
        _event: &Event,
        _cost: &Cost,
        _wait: Option<u32>,
        _woken: &[ThreadNo],
        _syms: &SymMap,
    ) {}

    fn part(
        &mut self,
        head: &PartHead,
        rows: &TableRows,
        _syms: &SymMap,
    ) -> Result<Text, OutOfMemory> {
        maps_are_sound(&self.syms);
        write_located(self.alloc, head, rows, &self.syms)
    }
}
