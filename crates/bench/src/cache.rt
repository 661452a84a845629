//! Refers to many addresses and counts how many of the references miss, and makes many branches and counts how many of
//! their predictions fail.

use crate::pattern::{Addresses, Pattern};
use cache_lru::{Cache, Geometry, Predictors};
use event_costs::{Branch, Done, Event, Flow, ThreadNo, Touch};
use std::alloc::Global;

/// How many of so many references miss.
fn misses(cache: &mut Cache, pattern: Pattern, references: u64) -> u64 {
    let mut addresses = Addresses::new(pattern);
    let mut missed = 0u64;
    for _ in 0..references {
        if cache.refer(addresses.next(), 4) {
            missed = missed.wrapping_add(1);
        }
    }
    missed
}

/// `SIZE ASSOC LINE PATTERN REFERENCES`: PATTERN is `sequential`, `random` or `straddling`.
pub fn references(alloc: Global, word: &str, numbers: &[u32]) -> Option<u64> {
    let &[size, assoc, line, count] = numbers else {
        return None;
    };
    let pattern = Pattern::of_name(word)?;
    let shape = Geometry::new(size, assoc, line)?;
    let Ok(mut cache) = Cache::new(alloc, shape) else {
        return None;
    };
    Some(misses(&mut cache, pattern, u64::from(count)))
}

/// The events whose branches are predicted.
#[derive(Clone, Copy)]
enum Kind {
    /// Conditional branches, three of four taken.
    Conditional,
    /// Jumps to one of two addresses.
    Indirect,
}

impl Kind {
    fn of_name(name: &str) -> Option<Kind> {
        match name {
            "conditional" => Some(Kind::Conditional),
            "indirect" => Some(Kind::Indirect),
            _ => None,
        }
    }

    /// The event that a random word gives.
    fn event(self, word: u32) -> Event {
        let branch = match self {
            Kind::Conditional => Branch::Cond(word / 0x400 % 4 != 0),
            Kind::Indirect => Branch::Indirect,
        };
        Event {
            thread: ThreadNo(1),
            done: Done {
                pc: word / 0x1000 % 0x10000 * 4,
                next: word / 0x800 % 2 * 4,
                sp: 0,
                flow: Flow::Plain,
                touch: Touch::Nothing,
                branch,
            },
            ends: false,
        }
    }
}

/// How many predictions of so many events fail.
fn failures(predictors: &mut Predictors, kind: Kind, events: u64) -> u64 {
    let mut word = 0u32;
    let mut failed = 0u64;
    for _ in 0..events {
        word = word.wrapping_mul(1_664_525).wrapping_add(1_013_904_223);
        let cost = predictors.cost(&kind.event(word));
        failed = failed.wrapping_add(cost.n[10]).wrapping_add(cost.n[12]);
    }
    failed
}

/// `KIND EVENTS`: KIND is `conditional` or `indirect`.
pub fn branches(alloc: Global, word: &str, numbers: &[u32]) -> Option<u64> {
    let &[count] = numbers else {
        return None;
    };
    let kind = Kind::of_name(word)?;
    let Ok(mut predictors) = Predictors::new(alloc) else {
        return None;
    };
    Some(failures(&mut predictors, kind, u64::from(count)))
}
