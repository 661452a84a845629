//! The sums over a profile's rows.

ghost use Rattle.std.specs.Prelude.{◌≡◌, ◌<◌, ◌≤◌, ◌+◌, [], length, replicate, IfOk};
ghost use Rattle.cg_read.specs.Profiles.{most_events};
ghost use Rattle.cycles.specs.inner.Counting.{lists, list_at, AddsToTotals, AddsToGroup, AddsToPair, AddsCalls};

use crate::cost_sums::{add_cost, add_cost_at};
use byte_text::OutOfMemory;
use std::alloc::Global;

/// Sums over the rows that were counted. An event's position is its place, and the calls' is after all events. The
/// positions below the limit have their sums, and a sum at the limit passes 2^64 - 1, unless that is past all
/// positions.
#[derive(Drop)]
pub(crate) struct Sums {
    /// For each event.
    pub(crate) totals: Vec<u64>,
    /// For each group and each event.
    pub(crate) groups: Vec<Vec<u64>>,
    /// For each pair of caller and callee and each event.
    pub(crate) pairs: Vec<Vec<u64>>,
    /// For each pair.
    pub(crate) calls: Vec<u64>,
    pub(crate) limit: usize,
}

/// So many lists of a 0 for each event.
fn zeros(alloc: Global, count: usize, events: usize) -> Result<Vec<Vec<u64>>, OutOfMemory>
    ensures { IfOk result (λ table. lists table.items ≡ replicate count (replicate events 0)) }
{
    let mut table = Vec::with_capacity(alloc, count)?;
    'places: for _place in 0..count {
        table.push(vec![in alloc; 0; events]?)?;
    }
    Ok(table)
}

impl Sums {
    /// Sums over no rows.
    pub(crate) fn new(
        alloc: Global,
        events: usize,
        groups: usize,
        pairs: usize,
    ) -> Result<Sums, OutOfMemory>
        requires { events ≤ most_events }
        ensures totals { IfOk result (λ sums. sums.totals.items ≡ replicate events 0) }
        ensures groups { IfOk result (λ sums. lists sums.groups.items ≡ replicate groups (replicate events 0)) }
        ensures pairs { IfOk result (λ sums. lists sums.pairs.items ≡ replicate pairs (replicate events 0)) }
        ensures calls { IfOk result (λ sums. sums.calls.items ≡ replicate pairs 0) }
        ensures limit { IfOk result (λ sums. sums.limit ≡ events + 1) }
    {
        Ok(Sums {
            totals: vec![in alloc; 0; events]?,
            groups: zeros(alloc, groups, events)?,
            pairs: zeros(alloc, pairs, events)?,
            calls: vec![in alloc; 0; pairs]?,
            limit: events + 1,
        })
    }

    /// Adds a cost to the totals.
    pub(crate) fn add_to_totals(&mut self, cost: &[u64])
        requires { length self.old.totals.items ≡ length cost.now }
        ensures { AddsToTotals self.old cost.now self.new }
    {
        self.limit = add_cost(&mut self.totals, cost, self.limit);
    }

    /// Adds a cost to a group's.
    pub(crate) fn add_to_group(&mut self, group: usize, cost: &[u64])
        requires group { group < length self.old.groups.items }
        requires width { length (list_at self.old.groups.items group) ≡ length cost.now }
        ensures { AddsToGroup self.old group cost.now self.new }
    {
        self.limit = add_cost_at(&mut self.groups, group, cost, self.limit);
    }

    /// Adds a cost to a pair's.
    pub(crate) fn add_to_pair(&mut self, pair: usize, cost: &[u64])
        requires pair { pair < length self.old.pairs.items }
        requires width { length (list_at self.old.pairs.items pair) ≡ length cost.now }
        ensures { AddsToPair self.old pair cost.now self.new }
    {
        self.limit = add_cost_at(&mut self.pairs, pair, cost, self.limit);
    }

    /// Adds calls to a pair's.
    pub(crate) fn add_calls(&mut self, pair: usize, calls: u64)
        requires { pair < length self.old.calls.items }
        ensures { AddsCalls self.old pair calls self.new }
    {
        let events = self.totals.len();
        if self.limit <= events {
            return;
        }
        match self.calls[pair].checked_add(calls) {
            Some(sum) => self.calls[pair] = sum,
            None => self.limit = events,
        }
    }
}
