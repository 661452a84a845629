//! What one event costs, as a set of kinds of event.

ghost use Rattle.std.specs.Prelude.{◌≡◌, ℕ, ◌+◌, ◌<◌, ◌≤◌, ◌^◌, All, IfSome, if◌then◌else◌, get_or, length, map, false};
ghost use Rattle.std.specs.Prelude.{slice_set};
ghost use Rattle.std.specs.Int.{bit_at};
ghost use Rattle.event_costs.specs.Costs.{event_kinds, IsWhole, no_cost, sum_of_costs};
ghost use Rattle.event_costs.specs.Kinds.{number};

use crate::cost::{Cost, EVENTS, EVENTS_WITHOUT_BRANCHES};
use crate::kind::Kind;
use std::marker::Model;

/// How many kinds an event counts as often: the fetch, and a data reference. The kinds behind them are those of
/// misses and branches.
const OFTEN: usize = 3;

/// The bits of an event that counts as a fetch and nothing else, as most do.
const FETCH_ALONE: u16 = 1;

/// The cost of one event: 1 for each kind of event that it counts as, else 0. Contracts see the list of these numbers,
/// as of a `Cost`.
#[derive(Debug, Drop)]
pub struct Ones {
    /// A bit for each kind, the first one lowest.
    bits: u16,
}

impl Model for Ones {
    ghost use Rattle.std.specs.Prelude.{List, ℕ};
    ghost use Rattle.event_costs.specs.inner.Bits.{ones_in};

    ghost Value = { List ℕ };

    ghost view = { λ o. ones_in o.bits };
}

impl Ones {
    /// What costs nothing, to be made what an event costs kind by kind.
    #[inline(always)]
    pub fn none() -> Ones
        ensures { result ≡ no_cost }
    {
        Ones { bits: 0 }
    }

    /// The same, but that the event counts as this kind.
    #[inline(always)]
    pub fn with(self, kind: Kind) -> Ones
        ensures { result ≡ slice_set self (number kind) 1 }
    {
        Ones {
            bits: self.bits | 1 << kind as u16,
        }
    }

    /// The same, but that the event counts as this kind, if so it does.
    #[inline(always)]
    pub fn with_if(self, kind: Kind, counts: bool) -> Ones
        ensures { result ≡ slice_set self (number kind) (if counts then 1 else get_or self (number kind) 0) }
    {
        if counts { self.with(kind) } else { self }
    }

    /// The same cost, number by number.
    #[inline(always)]
    pub fn cost(&self) -> Cost
        ensures cost { result ≡ self.now }
        ensures ones { All (λ n. n ≤ 1) self.now }
    {
        let mut cost = Cost::ZERO;
        add_bits(&mut cost.n, self.bits, 0, EVENTS);
        cost
    }
}

impl Cost {
    /// Adds the cost of one event. Only the numbers of the kinds that it counts as change, so it is quicker than
    /// `add`.
    #[inline(always)]
    pub fn add_ones(&mut self, ones: &Ones)
        requires { All (λ n. n < 2 ^ 64) (sum_of_costs self.old ones.now) }
        ensures sum { self.new ≡ sum_of_costs self.old ones.now }
        ensures whole { IsWhole ones.now }
    {
        if ones.bits == FETCH_ALONE {
            self.n[0] += 1;
            return;
        }
        add_bits(&mut self.n, ones.bits, 0, OFTEN);
        if ones.bits >> OFTEN != 0 {
            add_seldom(&mut self.n, ones.bits);
        }
    }
}

/// A cost as the kinds of event that it counts as, if it counts once as each of them, as that of every step does. Where
/// it was made of kinds, the compiler sees that they are these.
#[inline(always)]
pub fn ones_of(cost: &Cost) -> Option<Ones>
    ensures { IfSome result (λ ones. ones ≡ cost.now) }
{
    let numbers = cost.numbers();
    let mut kinds = [false; EVENTS];
    'kinds: for kind in 0..EVENTS {
        if numbers[kind] > 1 {
            return None;
        }
        kinds[kind] = numbers[kind] == 1;
    }
    Some(of_kinds(kinds))
}

/// The cost of an event from whether it counts as each kind.
#[inline(always)]
fn of_kinds(kinds: [bool; EVENTS]) -> Ones
    ensures { result ≡ map (λ counts. if counts then 1 else 0) kinds }
{
    Ones {
        bits: bits_of(&kinds),
    }
}

/// The number with a bit for each kind, the first one lowest.
#[inline(always)]
fn bits_of(kinds: &[bool; EVENTS]) -> u16
    ensures { (kind : ℕ) → kind < event_kinds
        → bit_at result kind ≡ (if get_or kinds.now kind false then 1 else 0) }
{
    let mut bits = 0;
    'kinds: for i in 0..EVENTS {
        bits = bits * 2 + u16::from(kinds[EVENTS - 1 - i]);
    }
    bits
}

/// Adds the bits of the kinds from `from` up to `end` to the numbers at their places.
#[inline(always)]
fn add_bits(sums: &mut [u64], bits: u16, from: usize, end: usize)
    requires range { from ≤ end }
    requires within { end ≤ length sums.old }
    requires few { length sums.old ≡ event_kinds }
    requires fits { (kind : ℕ) → from ≤ kind → kind < end → get_or sums.old kind 0 + bit_at bits kind < 2 ^ 64 }
    ensures added { (kind : ℕ) → from ≤ kind → kind < end
        → get_or sums.new kind 0 ≡ get_or sums.old kind 0 + bit_at bits kind }
    ensures below { (kind : ℕ) → kind < from → get_or sums.new kind 0 ≡ get_or sums.old kind 0 }
    ensures above { (kind : ℕ) → end ≤ kind → get_or sums.new kind 0 ≡ get_or sums.old kind 0 }
    ensures same_length { length sums.new ≡ length sums.old }
{
    'kinds: for kind in from..end {
        sums[kind] += u64::from((bits >> kind) % 2);
    }
}

/// Adds the bits of the kinds that an event seldom counts as: those of branches, and those of misses if there are any.
#[cold]
#[inline(never)]
fn add_seldom(sums: &mut [u64], bits: u16)
    requires whole { length sums.old ≡ event_kinds }
    requires fits { (kind : ℕ) → 3 ≤ kind → kind < event_kinds → get_or sums.old kind 0 + bit_at bits kind < 2 ^ 64 }
    ensures added { (kind : ℕ) → 3 ≤ kind → kind < event_kinds
        → get_or sums.new kind 0 ≡ get_or sums.old kind 0 + bit_at bits kind }
    ensures below { (kind : ℕ) → kind < 3 → get_or sums.new kind 0 ≡ get_or sums.old kind 0 }
    ensures same_length { length sums.new ≡ length sums.old }
{
    add_bits(sums, bits, EVENTS_WITHOUT_BRANCHES, EVENTS);
    if bits % (1 << EVENTS_WITHOUT_BRANCHES) >= 1 << OFTEN {
        add_bits(sums, bits, OFTEN, EVENTS_WITHOUT_BRANCHES);
    }
}
