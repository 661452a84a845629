//! The places of a program's code, word by word.

ghost use Rattle.std.specs.Prelude.{◌≡◌, ◌<◌, ◌≤◌, ◌+◌, ◌*◌, ◌^◌, ℕ, IfOk, IfSome, List, length};
ghost use Rattle.event_costs.specs.Keys.{Place as PlaceValue};
ghost use Rattle.sym_map.specs.inner.Ranges.{AddressRanges, here_at};
ghost use Rattle.sym_map.specs.inner.Rising.{AllRise};
ghost use Rattle.sym_map.specs.inner.Ranges.{place_in};
ghost use Rattle.sym_map.specs.inner.Ranges.{lines_by_address};
ghost use Rattle.sym_map.specs.inner.Indexed.{AreAlike, AreIndexed, IsSpot};

use crate::known_ranges::{Near, Ranges};
use crate::range::Range;
use crate::symbol_map::place_in;
use byte_text::OutOfMemory;
use elf_read::Elf;
use elf_read::standard::PF_X;
use event_costs::{FileId, INSTRUCTION_BYTES, Place};
use std::alloc::Global;

/// So many instructions are indexed besides those that the file holds: the memory stays in proportion to the file.
const FEW: usize = 65_536;

/// Up to where code without a symbol and a line is indexed. Programs mostly begin at 65,536.
const CODE_WITHOUT_RANGES: u32 = 262_144;

/// The place of an instruction, and the stretch of instructions around it that are of the same function: the address of
/// the first one, and how many there are.
#[derive(Clone, Copy, Debug)]
pub(crate) struct Spot {
    pub(crate) place: Place,
    pub(crate) start: u32,
    pub(crate) count: u32,
}

impl Spot {
    /// The same spot once more.
    fn copy(&self) -> Spot
        ensures { result ≡ self.now }
    {
        Spot {
            place: self.place,
            start: self.start,
            count: self.count,
        }
    }
}

/// The spots of the instructions of a stretch of code, from its first address on.
#[derive(Drop)]
pub(crate) struct PlaceIndex {
    pub(crate) first: u32,
    pub(crate) spots: Vec<Spot>,
}

impl PlaceIndex {
    /// Indexes the code from the first range up to the last one, or nothing where that is longer than the file's code, or
    /// where memory is refused: speed alone goes by it.
    #[tactic(auto, using(crate::proofs::Spots::no_spots))]
    pub(crate) fn new(alloc: Global, elf: &Elf<'_>, ranges: &Ranges, unknown: Place) -> PlaceIndex
        requires { AllRise ranges.now }
        ensures { AreIndexed ranges.now unknown result.first result.spots.items }
    {
        let first = first_start(ranges);
        let last = last_start(ranges);
        let words = last.saturating_sub(first) / INSTRUCTION_BYTES;
        let most = instruction_count(elf).saturating_add(FEW);
        let count = if words as usize <= most { words } else { 0 };
        match spots_from(alloc, ranges, unknown, first, count) {
            Ok(spots) => PlaceIndex { first, spots },
            Err(_) => PlaceIndex {
                first,
                spots: Vec::new(alloc),
            },
        }
    }

    /// The same index once more.
    pub(crate) fn try_clone(&self, alloc: Global) -> Result<PlaceIndex, OutOfMemory>
        ensures first { IfOk result (λ index. index.first ≡ self.now.first) }
        ensures spots { IfOk result (λ index. index.spots.items ≡ self.now.spots.items) }
    {
        let mut spots = Vec::new(alloc);
        spots.extend_from_slice(&self.spots)?;
        Ok(PlaceIndex {
            first: self.first,
            spots,
        })
    }

    /// Has each address be a line of its own, in the first file.
    pub(crate) fn tell_addresses(&mut self)
        ensures { (ranges : AddressRanges) (unknown : PlaceValue)
            → AreIndexed ranges unknown self.old.first self.old.spots.items
            → AreIndexed (lines_by_address ranges) unknown self.new.first self.new.spots.items }
    {
        tell_each(&mut self.spots, self.first);
    }

    /// The place of an address, if it is indexed.
    #[inline(always)]
    pub(crate) fn place(&self, pc: u32) -> Option<Place>
        ensures { (ranges : AddressRanges) (unknown : PlaceValue)
            → AreIndexed ranges unknown self.now.first self.now.spots.items
            → IfSome result (λ place. place ≡ place_in unknown (here_at ranges pc)) }
    {
        let number = number_from(self.first, pc) as usize;
        if number >= self.spots.len() {
            return None;
        }
        Some(self.spots[number].place)
    }

    /// The place of an address, if it is indexed, and the next address is seen to be of the same function.
    #[inline(always)]
    pub(crate) fn place_within(&self, pc: u32, next: u32) -> Option<Place>
        ensures place { (ranges : AddressRanges) (unknown : PlaceValue)
            → AreIndexed ranges unknown self.now.first self.now.spots.items
            → IfSome result (λ place. place ≡ place_in unknown (here_at ranges pc)) }
        ensures next { (ranges : AddressRanges) (unknown : PlaceValue)
            → AreIndexed ranges unknown self.now.first self.now.spots.items
            → IfSome result (λ place. (place_in unknown (here_at ranges next)).func ≡ place.func) }
    {
        let number = number_from(self.first, pc) as usize;
        if number >= self.spots.len() {
            return None;
        }
        let spot = self.spots[number];
        if number_from(spot.start, next) >= spot.count {
            return None;
        }
        Some(spot.place)
    }
}

/// The number of the instruction at an address among those from `first` on. An address before the first, or within an
/// instruction, turns into a number beyond all.
#[inline(always)]
fn number_from(first: u32, address: u32) -> u32
    ensures { (count : ℕ) → first + 4 * count < 2 ^ 32 → result < count → address ≡ first + 4 * result }
{
    address.wrapping_sub(first).rotate_right(2)
}

/// How many instructions the file holds at most. Executable segments may share its bytes.
fn instruction_count(elf: &Elf<'_>) -> usize {
    let mut bytes: usize = 0;
    'segments: for i in 0..elf.segment_count() {
        let segment = elf.segment(i);
        if segment.flags & PF_X != 0 {
            bytes = bytes.saturating_add(segment.file_len as usize);
        }
    }
    bytes.min(elf.file().len()) / INSTRUCTION_BYTES as usize
}

/// Where a range begins.
fn start_of(range: Option<&Range>) -> Option<u32> {
    match range {
        Some(range) => Some(range.start),
        None => None,
    }
}

/// Where the first range begins.
fn first_start(ranges: &Ranges) -> u32 {
    match (
        start_of(ranges.symbols.first()),
        start_of(ranges.lines.first()),
    ) {
        (Some(symbol), Some(line)) => symbol.min(line),
        (Some(start), None) | (None, Some(start)) => start,
        (None, None) => 0,
    }
}

/// Where the last range begins. Without one, code is looked for at low addresses.
fn last_start(ranges: &Ranges) -> u32 {
    match (
        start_of(ranges.symbols.last()),
        start_of(ranges.lines.last()),
    ) {
        (Some(symbol), Some(line)) => symbol.max(line),
        (Some(start), None) | (None, Some(start)) => start,
        (None, None) => CODE_WITHOUT_RANGES,
    }
}

/// The number of the last range from this number on that begins no higher than an address.
fn last_begun(ranges: &[Range], number: usize, address: u32) -> usize
    requires { number ≤ length ranges.now }
    ensures { result ≤ length ranges.now }
{
    let mut number = number;
    'ranges: while number + 1 < ranges.len() && ranges[number + 1].start <= address {
        number += 1;
    }
    number
}

/// The spots of so many instructions from an address on. The stretch of each goes up to the next function, or to the end.
fn spots_from(
    alloc: Global,
    ranges: &Ranges,
    unknown: Place,
    first: u32,
    count: u32,
) -> Result<Vec<Spot>, OutOfMemory>
    requires rise { AllRise ranges.now }
    requires within { first + 4 * count < 2 ^ 32 }
    ensures { IfOk result (λ spots. AreIndexed ranges.now unknown first spots.items) }
{
    let mut spots = Vec::with_capacity(alloc, count as usize)?;
    let mut near = Near { symbol: 0, line: 0 };
    let mut last = Spot {
        place: unknown,
        start: first,
        count: 0,
    };
    'words: for word in 0..count {
        let address = first + INSTRUCTION_BYTES * word;
        let begun = Near {
            symbol: last_begun(&ranges.symbols, near.symbol, address),
            line: last_begun(&ranges.lines, near.line, address),
        };
        near = ranges.near(begun, address);
        last = spot_behind(
            &last,
            place_in(unknown, ranges.here_by(near, address)),
            address,
        );
        spots.push(last.copy())?;
    }
    widen(&mut spots);
    Ok(spots)
}

/// The spot of the instruction that stands behind a stretch. It goes on where it is of the same function.
fn spot_behind(last: &Spot, place: Place, address: u32) -> Spot
    requires behind { last.now.start + 4 * last.now.count ≡ address }
    requires within { address + 4 < 2 ^ 32 }
    ensures spot { (ranges : AddressRanges) (unknown : PlaceValue) → AreAlike ranges unknown last.now
        → place ≡ place_in unknown (here_at ranges address) → IsSpot ranges unknown address result }
    ensures end { result.start + 4 * result.count ≡ address + 4 }
{
    if place.func == last.place.func {
        return Spot {
            place,
            start: last.start,
            count: last.count + 1,
        };
    }
    Spot {
        place,
        start: address,
        count: 1,
    }
}

/// Has the stretch of each spot go on as far as that of the next one, where both are of the same function.
fn widen(spots: &mut [Spot])
    ensures { (ranges : AddressRanges) (unknown : PlaceValue) (first : ℕ)
        → AreIndexed ranges unknown first spots.old → AreIndexed ranges unknown first spots.new }
{
    'spots: for i in (1..spots.len()).rev() {
        spots[i - 1] = widen_spot(spots[i - 1], spots[i]);
    }
}

/// The spot with the next one's stretch, where both are of the same function.
fn widen_spot(spot: Spot, next: Spot) -> Spot
    ensures { (ranges : AddressRanges) (unknown : PlaceValue) (address other : ℕ) → IsSpot ranges unknown address spot
        → IsSpot ranges unknown other next → IsSpot ranges unknown address result }
{
    if spot.place.func == next.place.func {
        return Spot {
            place: spot.place,
            start: next.start,
            count: next.count,
        };
    }
    spot
}

/// Has the address of each spot be a line of its own.
fn tell_each(spots: &mut [Spot], first: u32)
    ensures { (ranges : AddressRanges) (unknown : PlaceValue) → AreIndexed ranges unknown first spots.old
        → AreIndexed (lines_by_address ranges) unknown first spots.new }
{
    let mut address = first;
    'spots: for i in 0..spots.len() {
        spots[i] = spot_by_address(spots[i], address);
        address = address.wrapping_add(INSTRUCTION_BYTES);
    }
}

/// The spot with its address as its line.
fn spot_by_address(spot: Spot, address: u32) -> Spot
    ensures { (ranges : AddressRanges) (unknown : PlaceValue) → IsSpot ranges unknown address spot
        → IsSpot (lines_by_address ranges) unknown address result }
{
    Spot {
        place: Place {
            func: spot.place.func,
            file: FileId(0),
            line: address,
        },
        start: spot.start,
        count: spot.count,
    }
}
