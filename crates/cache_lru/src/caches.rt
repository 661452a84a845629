//! The three caches of a run, and the cost of an event.

ghost use Rattle.std.specs.Prelude.{◌≡◌, ℕ, ◌+◌, ◌^◌, ◌<◌, ◌≤◌, List, [], ◌∷◌, ◌++◌};
ghost use Rattle.std.specs.Prelude.{◌&&◌, if◌then◌else◌, All, IfOk, false, true};
ghost use Rattle.std.specs.List.{list_any};
ghost use Rattle.event_costs.specs.declared.event.Event.{Event};
ghost use Rattle.cache_lru.specs.Shape.{Shape};
ghost use Rattle.cache_lru.specs.History.{Access, history_of, access_misses};
ghost use Rattle.cache_lru.specs.Lines.{StandsFor};
ghost use Rattle.event_costs.specs.Kinds.{cost_by};
ghost use Rattle.cache_lru.specs.Costs.{Shapes, StandForEvents, CanRefer, access_of, cost_after, counts_by, misses_after};
ghost use Rattle.cache_lru.specs.Costs.{no_kind, onward_of};
ghost use Rattle.cache_lru.specs.inner.Missing.{in_first, in_last, misses_of, no_miss};

use crate::cache::Cache;
use crate::geometry::Geometry;
use byte_text::OutOfMemory;
use event_costs::{Cost, Event, INSTRUCTION_BYTES, Kind, Ones, Touch};
use std::alloc::Global;
use std::marker::Model;

/// The first-level cache of instructions I1, that of data D1, and the last level LL, which takes what misses in those.
/// All threads share them.
#[derive(Drop)]
pub struct Caches {
    i1: Cache,
    d1: Cache,
    ll: Cache,
}

impl Model for Caches {
    ghost use Rattle.cache_lru.specs.Costs.{Caches};

    ghost Value = { Caches };

    ghost view = { λ c. record { i1 = c.i1; d1 = c.d1; ll = c.ll } };
}

impl Caches {
    /// Three empty caches. They take all their memory here.
    pub fn new(
        alloc: Global,
        i1: Geometry,
        d1: Geometry,
        ll: Geometry,
    ) -> Result<Caches, OutOfMemory>
        ensures { IfOk result (λ caches. StandForEvents (record { i1 = i1; d1 = d1; ll = ll }) caches []) }
    {
        Ok(Caches {
            i1: Cache::new(alloc, i1)?,
            d1: Cache::new(alloc, d1)?,
            ll: Cache::new(alloc, ll)?,
        })
    }

    /// The cost of the event, by its fetch and then its data reference, and each of them goes on to LL where it misses
    /// in I1 or D1. A write that misses brings its blocks in like a read. Branches cost nothing here.
    pub fn cost(&mut self, event: &Event) -> Cost
        requires fetch { event.now.done.pc + 4 ≤ 2 ^ 32 }
        requires data { CanRefer event.now.done.touch }
        ensures cost { (shapes : Shapes) (events : List Event) → StandForEvents shapes self.old events
            → result ≡ cost_after shapes events event.now }
        ensures stands { (shapes : Shapes) (events : List Event) → StandForEvents shapes self.old events
            → StandForEvents shapes self.new (events ++ event.now ∷ []) }
        ensures ones { All (λ n. n ≤ 1) result }
    {
        let missed = self.refer(event);
        ones_of(event.done.touch, missed).cost()
    }

    /// Whether the event only refers to blocks that stand first in their sets: then nothing misses and nothing changes.
    #[inline(always)]
    pub(crate) fn are_first(&mut self, event: &Event) -> bool
        requires fetch { event.now.done.pc + 4 ≤ 2 ^ 32 }
        requires data { CanRefer event.now.done.touch }
        ensures same { self.new ≡ self.old }
        ensures misses { result ≡ true → (shapes : Shapes) (events : List Event)
            → StandForEvents shapes self.old events
            → misses_of no_miss ≡ misses_after shapes events event.now }
        ensures stands { result ≡ true → (shapes : Shapes) (events : List Event)
            → StandForEvents shapes self.old events
            → StandForEvents shapes self.old (events ++ event.now ∷ []) }
    {
        if !self.i1.is_first(event.done.pc, INSTRUCTION_BYTES) {
            return false;
        }
        is_data_first(&mut self.d1, event.done.touch)
    }

    /// What `refer` does, quicker where nothing misses and nothing changes.
    #[inline(always)]
    pub(crate) fn missed(&mut self, event: &Event) -> Missed
        requires fetch { event.now.done.pc + 4 ≤ 2 ^ 32 }
        requires data { CanRefer event.now.done.touch }
        ensures misses { (shapes : Shapes) (events : List Event) → StandForEvents shapes self.old events
            → misses_of result ≡ misses_after shapes events event.now }
        ensures stands { (shapes : Shapes) (events : List Event) → StandForEvents shapes self.old events
            → StandForEvents shapes self.new (events ++ event.now ∷ []) }
    {
        if self.are_first(event) {
            return NO_MISS;
        }
        self.refer(event)
    }

    /// Refers to the event's fetch and then to its data reference. The answer says which of them miss.
    #[inline(always)]
    pub(crate) fn refer(&mut self, event: &Event) -> Missed
        requires fetch { event.now.done.pc + 4 ≤ 2 ^ 32 }
        requires data { CanRefer event.now.done.touch }
        ensures misses { (shapes : Shapes) (events : List Event) → StandForEvents shapes self.old events
            → misses_of result ≡ misses_after shapes events event.now }
        ensures stands { (shapes : Shapes) (events : List Event) → StandForEvents shapes self.old events
            → StandForEvents shapes self.new (events ++ event.now ∷ []) }
    {
        let fetch = refer_through(&mut self.i1, &mut self.ll, event.done.pc, INSTRUCTION_BYTES);
        let reference = refer_data(&mut self.d1, &mut self.ll, event.done.touch);
        Missed { fetch, reference }
    }
}

/// Where an access misses. The compiler keeps an enum without payload in a register.
#[derive(Clone, Copy)]
pub(crate) enum Misses {
    Nowhere,
    /// In its first level alone.
    First,
    /// In its first level and in the last one.
    Both,
}

impl Misses {
    /// Whether the access misses in its first level.
    #[inline(always)]
    fn first(self) -> bool
        ensures { result ≡ in_first self }
    {
        match self {
            Misses::Nowhere => false,
            Misses::First | Misses::Both => true,
        }
    }

    /// Whether it misses in the last level too.
    #[inline(always)]
    fn last(self) -> bool
        ensures { result ≡ in_last self }
    {
        match self {
            Misses::Nowhere | Misses::First => false,
            Misses::Both => true,
        }
    }
}

/// What the fetch of an event misses, and its data reference.
#[derive(Clone, Copy)]
pub(crate) struct Missed {
    pub fetch: Misses,
    pub reference: Misses,
}

/// Nothing misses.
pub(crate) const NO_MISS: Missed = Missed {
    fetch: Misses::Nowhere,
    reference: Misses::Nowhere,
};

/// The cost of an event with this data reference, from what its fetch and that miss, its branch aside. Mostly nothing
/// misses, and then most kinds are known.
#[inline(always)]
pub(crate) fn ones_of(touch: Touch, missed: Missed) -> Ones
    ensures { result ≡ cost_by (counts_by touch (misses_of missed) no_kind) }
{
    match (missed.fetch, missed.reference) {
        (Misses::Nowhere, Misses::Nowhere) => ones_by(touch, NO_MISS),
        (fetch, reference) => ones_by(touch, Missed { fetch, reference }),
    }
}

/// What `ones_of` does, kind by kind.
#[inline(always)]
fn ones_by(touch: Touch, missed: Missed) -> Ones
    ensures { result ≡ cost_by (counts_by touch (misses_of missed) no_kind) }
{
    let Missed { fetch, reference } = missed;
    let fetched = Ones::none()
        .with(Kind::Ir)
        .with_if(Kind::I1mr, fetch.first())
        .with_if(Kind::ILmr, fetch.last());
    match touch {
        Touch::Nothing => fetched,
        Touch::Read(..) => fetched
            .with(Kind::Dr)
            .with_if(Kind::D1mr, reference.first())
            .with_if(Kind::DLmr, reference.last()),
        Touch::Write(..) => fetched
            .with(Kind::Dw)
            .with_if(Kind::D1mw, reference.first())
            .with_if(Kind::DLmw, reference.last()),
    }
}

/// Whether the data reference, if there is one, is to one block that stands first in its set.
#[inline(always)]
fn is_data_first(cache: &mut Cache, touch: Touch) -> bool
    requires { CanRefer touch }
    ensures same { cache.new ≡ cache.old }
    ensures hit { result ≡ true → (shape : Shape) (earlier : List Access)
        → StandsFor shape cache.old (history_of shape earlier)
        → list_any (access_misses shape earlier) (access_of touch) ≡ false }
    ensures stands { result ≡ true → (shape : Shape) (earlier : List Access)
        → StandsFor shape cache.old (history_of shape earlier)
        → StandsFor shape cache.old (history_of shape (earlier ++ access_of touch)) }
{
    match touch {
        Touch::Nothing => true,
        Touch::Read(addr, len) | Touch::Write(addr, len) => cache.is_first(addr, u32::from(len)),
    }
}

/// Refers to the bytes of the data reference, if there is one, in the first level, and where that misses in the last
/// level too.
#[inline(always)]
fn refer_data(first: &mut Cache, last: &mut Cache, touch: Touch) -> Misses
    requires { CanRefer touch }
    ensures first_misses { (shape : Shape) (earlier : List Access)
        → StandsFor shape first.old (history_of shape earlier)
        → in_first result ≡ list_any (access_misses shape earlier) (access_of touch) }
    ensures first_stands { (shape : Shape) (earlier : List Access)
        → StandsFor shape first.old (history_of shape earlier)
        → StandsFor shape first.new (history_of shape (earlier ++ access_of touch)) }
    ensures last_misses { (shape last_shape : Shape) (earlier last_earlier : List Access)
        → StandsFor shape first.old (history_of shape earlier)
        → StandsFor last_shape last.old (history_of last_shape last_earlier)
        → in_last result ≡ list_any (access_misses last_shape last_earlier)
        (onward_of shape earlier (access_of touch)) }
    ensures last_stands { (shape last_shape : Shape) (earlier last_earlier : List Access)
        → StandsFor shape first.old (history_of shape earlier)
        → StandsFor last_shape last.old (history_of last_shape last_earlier)
        → StandsFor last_shape last.new (history_of last_shape
        (last_earlier ++ onward_of shape earlier (access_of touch))) }
{
    match touch {
        Touch::Nothing => Misses::Nowhere,
        Touch::Read(addr, len) | Touch::Write(addr, len) => {
            refer_through(first, last, addr, u32::from(len))
        }
    }
}

/// Refers to the bytes in the first level, and where that misses in the last level too. It is called, so that the loops
/// over the lines of a set stand here once.
#[inline(never)]
fn refer_through(first: &mut Cache, last: &mut Cache, addr: u32, len: u32) -> Misses
    requires some { 1 ≤ len }
    requires few { len ≤ 4 }
    requires within { addr + len ≤ 2 ^ 32 }
    ensures first_misses { (shape : Shape) (earlier : List Access)
        → StandsFor shape first.old (history_of shape earlier)
        → in_first result ≡ access_misses shape earlier (record { addr = addr; len = len }) }
    ensures first_stands { (shape : Shape) (earlier : List Access)
        → StandsFor shape first.old (history_of shape earlier)
        → StandsFor shape first.new (history_of shape (earlier ++ record { addr = addr; len = len } ∷ [])) }
    ensures last_misses { (shape last_shape : Shape) (earlier last_earlier : List Access)
        → StandsFor shape first.old (history_of shape earlier)
        → StandsFor last_shape last.old (history_of last_shape last_earlier)
        → let access : Access = record { addr = addr; len = len } in
        in_last result ≡ (access_misses shape earlier access && access_misses last_shape last_earlier access) }
    ensures last_stands { (shape last_shape : Shape) (earlier last_earlier : List Access)
        → StandsFor shape first.old (history_of shape earlier)
        → StandsFor last_shape last.old (history_of last_shape last_earlier)
        → let access : Access = record { addr = addr; len = len } in
        let onward : List Access = if access_misses shape earlier access then access ∷ [] else [] in
        StandsFor last_shape last.new (history_of last_shape (last_earlier ++ onward)) }
{
    if !first.refer(addr, len) {
        return Misses::Nowhere;
    }
    if last.refer(addr, len) {
        Misses::Both
    } else {
        Misses::First
    }
}
