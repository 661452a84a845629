//! Inclusive costs.

ghost use Rattle.std.specs.Prelude.{◌≡◌, ◌≢◌, ◌<◌, ℕ, List, [], IfOk, OnOk, IsErrOf, length};
ghost use Rattle.call_graph.specs.declared.arc.CallArc.{CallArc};
ghost use Rattle.cycles.specs.Costs.{IsGroupsOf, IsInclusive, group_at};
ghost use Rattle.cycles.specs.Limits.{AreAllWithin, IsFirstOver};
ghost use Rattle.cycles.specs.inner.Counting.{AddsToGroup, Counts, HasShapeFor, HasWidth, lists};
ghost use Rattle.cycles.specs.inner.Pairs.{IsPairs};

use crate::error::InclError;
use crate::pairs::{Pairs, pairs_of};
use crate::sums::Sums;
use byte_text::OutOfMemory;
use call_graph::Groups;
use cg_read::{CallRow, CostList, Profile};
use std::alloc::Global;

/// Counts the self rows of a profile: for the totals, and for the function's group.
fn count_self_rows(sums: &mut Sums, profile: &Profile, groups: &Groups)
    requires groups { IsGroupsOf profile.now groups.now }
    requires shape { HasShapeFor profile.now groups.now sums.old }
    ensures { (arcs : List CallArc) → Counts profile.now groups.now arcs [] [] sums.old
        → Counts profile.now groups.now arcs profile.now.self_rows [] sums.new }
{
    'rows: for row in &profile.self_rows {
        let cost = row.cost.items.as_slice();
        sums.add_to_totals(cost);
        sums.add_to_group(groups.group_of(row.func), cost);
    }
}

/// Counts a call row for the caller's group, where the callee is outside it.
fn count_leaving(sums: &mut Sums, row: &CallRow, groups: &Groups)
    requires caller { row.now.caller < length groups.now.number }
    requires callee { row.now.callee < length groups.now.number }
    requires group { group_at groups.now row.now.caller < length sums.old.groups.items }
    requires width { HasWidth (length row.now.cost) sums.old.groups.items }
    ensures leaving { group_at groups.now row.now.callee ≢ group_at groups.now row.now.caller
        → AddsToGroup sums.old (group_at groups.now row.now.caller) row.now.cost sums.new }
    ensures staying { group_at groups.now row.now.callee ≡ group_at groups.now row.now.caller → sums.new ≡ sums.old }
{
    let group = groups.group_of(row.caller);
    if groups.group_of(row.callee) != group {
        sums.add_to_group(group, &row.cost.items);
    }
}

/// Counts the call rows of a profile: for the pairs, and for the groups that are left.
fn count_call_rows(sums: &mut Sums, profile: &Profile, groups: &Groups, pairs: &Pairs)
    requires groups { IsGroupsOf profile.now groups.now }
    requires pairs { IsPairs profile.now.call_rows pairs.now.arcs.items pairs.now.numbers.items }
    requires counts { Counts profile.now groups.now pairs.now.arcs.items profile.now.self_rows [] sums.old }
    ensures { Counts profile.now groups.now pairs.now.arcs.items profile.now.self_rows profile.now.call_rows sums.new }
{
    'rows: for (i, row) in profile.call_rows.iter().enumerate() {
        let pair = pairs.numbers[i];
        sums.add_to_pair(pair, &row.cost.items);
        sums.add_calls(pair, row.calls);
        count_leaving(sums, row, groups);
    }
}

/// Lists of numbers as costs.
fn cost_lists(alloc: Global, table: Vec<Vec<u64>>) -> Result<Vec<CostList>, OutOfMemory>
    ensures { IfOk result (λ costs. costs.items ≡ lists table.items) }
{
    let mut costs = Vec::with_capacity(alloc, table.len())?;
    'lists: for items in table {
        costs.push(CostList { items })?;
    }
    Ok(costs)
}

/// The inclusive cost of each group: what was counted in its functions, and under their calls of functions outside it.
/// `SumLimit` names the first position with a sum above 2^64 - 1.
pub fn inclusive(
    alloc: Global,
    profile: &Profile,
    groups: &Groups,
) -> Result<Vec<CostList>, InclError>
    requires { IsGroupsOf profile.now groups.now }
    ensures costs { IfOk result (λ costs. IsInclusive profile.now groups.now costs.items) }
    // Where there are inclusive costs, no sum passes the limit.
    ensures within { OnOk result (AreAllWithin profile.now) }
    ensures limit { (position : ℕ) → IsErrOf result (InclError.SumLimit position) → IsFirstOver profile.now position }
{
    let events = profile.events.len();
    let pairs = pairs_of(alloc, &profile.call_rows)?;
    let mut sums = Sums::new(alloc, events, groups.count(), pairs.arcs.len())?;
    count_self_rows(&mut sums, profile, groups);
    count_call_rows(&mut sums, profile, groups, &pairs);
    if sums.limit <= events {
        return Err(InclError::SumLimit(sums.limit as u32));
    }
    Ok(cost_lists(alloc, sums.groups)?)
}
