//! Sums over entries.

ghost use Rattle.std.specs.Prelude.{◌≡◌, ◌+◌, ◌^◌, ◌<◌, ℕ, IfOk, length, slice_index};
ghost use Rattle.report_rows.specs.Entries.{AreWithin, calls_of, costs_of, entry_values};

use crate::entries::Entry;
use byte_text::OutOfMemory;
use std::alloc::Global;

/// The sums of entries.
#[derive(Debug, Drop)]
pub struct Sum {
    pub calls: u64,
    /// A number for each event.
    pub cost: Vec<u64>,
}

/// Adds each number of a cost.
fn add_cost(sums: &mut [u64], cost: &[u64])
    requires alike { length sums.old ≡ length cost.now }
    requires fits { (k : ℕ) → k < length sums.old → slice_index sums.old k + slice_index cost.now k < 2 ^ 64 }
    ensures size { length sums.new ≡ length sums.old }
    ensures sums { (k : ℕ) → k < length sums.old
        → slice_index sums.new k ≡ slice_index sums.old k + slice_index cost.now k }
{
    'events: for event in 0..cost.len() {
        sums[event] += cost[event];
    }
}

/// The sums of these entries, for so many events.
pub fn sum_of(alloc: Global, events: usize, entries: &[Entry<'_>]) -> Result<Sum, OutOfMemory>
    requires { AreWithin events (entry_values entries.now) }
    ensures calls { IfOk result (λ sum. sum.calls ≡ calls_of (entry_values entries.now)) }
    ensures cost { IfOk result (λ sum. sum.cost.items ≡ costs_of events (entry_values entries.now)) }
{
    let mut calls = 0;
    let mut cost = vec![in alloc; 0; events]?;
    'entries: for entry in entries {
        let numbers = entry.cost;
        calls += entry.calls;
        add_cost(&mut cost, &numbers.items);
    }
    Ok(Sum { calls, cost })
}
