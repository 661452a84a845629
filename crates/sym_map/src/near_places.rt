//! Places of addresses that were looked up before.

ghost use Rattle.std.specs.Prelude.{◌≡◌, ◌<◌, length};
ghost use Rattle.sym_map.specs.inner.Ranges.{here_at};
ghost use Rattle.sym_map.specs.inner.Rising.{AllRise};
ghost use Rattle.sym_map.specs.SymbolMap.{IsFile, IsFunc, place_of};
ghost use Rattle.sym_map.specs.inner.Nearby.{here_by};

use crate::known_ranges::{Near, Ranges};
use crate::symbol_map::{SymMap, Way, place_in};
use byte_text::OutOfMemory;
use event_costs::{INSTRUCTION_BYTES, Place};
use std::alloc::Global;

/// How many numbers are remembered.
const REMEMBERED: usize = 4096;

/// Where to look first for an address that nothing is remembered of.
const NOWHERE: Near = Near { symbol: 0, line: 0 };

/// For some addresses the numbers of the ranges that they were found in. What is remembered may be of another address, or
/// of another map: it only says where to look first.
#[derive(Drop)]
pub struct NearPlaces {
    numbers: Vec<Near>,
}

impl NearPlaces {
    /// Nothing is remembered, and each address is searched. It takes no memory.
    pub fn new(alloc: Global) -> NearPlaces {
        NearPlaces {
            numbers: Vec::new(alloc),
        }
    }

    /// Takes the memory to remember with, if it has none.
    pub fn prepare(&mut self) -> Result<(), OutOfMemory> {
        if self.numbers.len() == 0 {
            self.numbers.resize(REMEMBERED, NOWHERE)?;
        }
        Ok(())
    }

    /// The place of an address, which is as `SymMap::place` says. It takes no memory.
    #[inline(always)]
    pub fn place(&mut self, syms: &SymMap, pc: u32) -> Place
        ensures place { result ≡ place_of syms.now pc }
        ensures func_known { IsFunc syms.now result.func }
        ensures file_known { IsFile syms.now result.file }
    {
        if let Some(place) = syms.index.place(pc) {
            return place;
        }
        let number = self.number(&syms.ranges, pc);
        place_in(syms.unknown, syms.ranges.here_by(number, pc))
    }

    /// What `SymMap::way` answers. It takes no memory.
    #[inline(always)]
    pub fn way(&mut self, syms: &SymMap, pc: u32, next: u32) -> Way
        ensures place { result.place ≡ place_of syms.now pc }
        ensures next_func { result.next_func ≡ (place_of syms.now next).func }
    {
        if let Some(way) = syms.way_within(pc, next) {
            return way;
        }
        let place = self.place(syms, pc);
        let next_func = self.place(syms, next).func;
        Way { place, next_func }
    }

    /// The numbers of the ranges that an address lies in, which are remembered.
    #[cold]
    #[inline(never)]
    fn number(&mut self, ranges: &Ranges, address: u32) -> Near
        requires { AllRise ranges.now }
        ensures { here_by ranges.now result address ≡ here_at ranges.now address }
    {
        let slot = (address / INSTRUCTION_BYTES) as usize % REMEMBERED;
        let near = match self.numbers.get(slot) {
            Some(number) => *number,
            None => return ranges.near(NOWHERE, address),
        };
        let number = ranges.near(near, address);
        if number != near {
            self.numbers[slot] = number;
        }
        number
    }
}
