//! Sums that may pass 2^64 - 1.

ghost use Rattle.std.specs.Prelude.{◌≡◌, ◌<◌, length};
ghost use Rattle.cycles.specs.inner.Counting.{IsAdded, IsAddedAt, list_at};

/// Adds each number of a cost to the sum at its place, for the first so many places, up to the first whose sum passes
/// 2^64 - 1. Gives how many places have their sums then.
pub(crate) fn add_cost(sums: &mut [u64], cost: &[u64], limit: usize) -> usize
    requires { length sums.old ≡ length cost.now }
    ensures { IsAdded sums.old cost.now limit sums.new result }
{
    'places: for place in 0..limit.min(cost.len()) {
        let Some(sum) = sums[place].checked_add(cost[place]) else {
            return place;
        };
        sums[place] = sum;
    }
    limit
}

/// The same for the sums at a place of a table.
pub(crate) fn add_cost_at(table: &mut [Vec<u64>], place: usize, cost: &[u64], limit: usize) -> usize
    requires place { place < length table.old }
    requires width { length (list_at table.old place) ≡ length cost.now }
    ensures { IsAddedAt table.old place cost.now limit table.new result }
{
    add_cost(&mut table[place], cost, limit)
}
