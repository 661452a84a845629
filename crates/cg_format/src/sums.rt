//! The sums of line rows.

ghost use Rattle.std.specs.Prelude.{◌≡◌, ℕ, ◌+◌, ◌*◌, ◌^◌, ◌<◌, ◌≤◌, All, length};
ghost use Rattle.event_costs.specs.Costs.{IsWhole, events_shown, sum_of_costs};
ghost use Rattle.cg_format.specs.Sums.{sum_of_lines};

use arc_costs::LineRow;
use event_costs::{EVENTS, Number, event_names_shown};

/// The sum of the costs of line rows, a number for each kind of event. The numbers of rows have 64 bits,
/// and their sums 128.
pub fn sum_of_lines<N: Number>(lines: &[LineRow<N>]) -> [u128; EVENTS]
    ensures { result ≡ sum_of_lines lines.now }
{
    let mut sum = [0; EVENTS];
    'lines: for row in lines {
        add_numbers(&mut sum, row.cost.numbers());
    }
    sum
}

/// Adds each number to the one at its place.
fn add_numbers(sums: &mut [u128], numbers: &[u64])
    requires alike { length sums.old ≡ length numbers.now }
    requires small { All (λ n. n + 2 ^ 64 < 2 ^ 128) sums.old }
    ensures sums { sums.new ≡ sum_of_costs sums.old numbers.now }
    ensures bound { (limit : ℕ) → All (λ n. n ≤ limit) sums.old → All (λ n. n ≤ limit + 2 ^ 64) sums.new }
{
    'places: for i in 0..numbers.len() {
        sums[i] += u128::from(numbers[i]);
    }
}

/// The numbers of the events shown.
pub(crate) fn shown_sums(branches: bool, sums: &[u128]) -> &[u128]
    requires { IsWhole sums.now }
    ensures { result.now ≡ events_shown branches sums.now }
{
    &sums[..event_names_shown(branches).len()]
}
