//! The totals of a profile.

ghost use Rattle.std.specs.Prelude.{◌≡◌, ◌<◌, ◌≤◌, ◌^◌, ℕ, All, IfOk, OnOk, IsErrOf, EachIndex, length, slice_index};
ghost use Rattle.cg_lines.specs.Numbers.{in_range};
ghost use Rattle.cg_read.specs.Profiles.{most_events};
ghost use Rattle.cg_read.specs.Totals.{column_sum, total, IsFirstOver};

use crate::error::SumError;
use crate::profile::Profile;
use crate::rows::{CostList, SelfRow};
use std::alloc::Global;

/// The sum of the costs at a place, if it is at most 2^64 - 1.
fn column_total(rows: &[SelfRow], place: usize) -> Option<u64>
    requires { All (λ row. place < length row.cost) rows.now }
    ensures { result ≡ in_range (column_sum rows.now place) }
{
    let mut total: u64 = 0;
    'rows: for row in rows {
        let Some(sum) = total.checked_add(row.cost.at(place)) else {
            return None;
        };
        total = sum;
    }
    Some(total)
}

/// The sums at the first places, in order, up to this many.
fn column_totals(alloc: Global, rows: &[SelfRow], places: usize) -> Result<CostList, SumError>
    requires limit { places ≤ most_events }
    requires width { All (λ row. length row.cost ≡ places) rows.now }
    ensures length { IfOk result (λ totals. length totals ≡ places) }
    ensures totals { IfOk result (λ totals.
        EachIndex totals (λ place. slice_index totals place ≡ column_sum rows.now place)) }
    ensures within { OnOk result ((place : ℕ) → place < places → column_sum rows.now place < 2 ^ 64) }
    ensures limit { (place : ℕ) → IsErrOf result (SumError.SumLimit place) → IsFirstOver rows.now places place }
{
    let mut items = Vec::with_capacity(alloc, places)?;
    'places: for place in 0..places {
        let Some(total) = column_total(rows, place) else {
            return Err(SumError::SumLimit(place as u32));
        };
        items.push(total)?;
    }
    Ok(CostList { items })
}

impl Profile {
    /// The sum of the self rows for each event. `SumLimit` names the first event whose sum is above 2^64 - 1.
    pub fn totals(&self) -> Result<CostList, SumError>
        ensures length { IfOk result (λ totals. length totals ≡ length self.now.events) }
        ensures totals { IfOk result (λ totals.
            EachIndex totals (λ event. slice_index totals event ≡ total self.now event)) }
        // Where there are totals, none passes the limit.
        ensures within { OnOk result ((event : ℕ) → event < length self.now.events → total self.now event < 2 ^ 64) }
        ensures limit { (event : ℕ) → IsErrOf result (SumError.SumLimit event)
            → IsFirstOver self.now.self_rows (length self.now.events) event }
    {
        let alloc = *self.self_rows.allocator();
        column_totals(alloc, &self.self_rows, self.events.len())
    }
}
