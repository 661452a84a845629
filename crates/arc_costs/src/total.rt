//! What is summed up for an arc.

ghost use Rattle.std.specs.Prelude.{◌≡◌};

use event_costs::Cost;

/// The calls and the cost of an arc.
#[derive(Clone, Copy, Debug)]
pub struct Total {
    pub calls: u64,
    pub cost: Cost,
}

impl Total {
    ghost use Rattle.arc_costs.specs.Totals.{of_cost};

    /// The total of nothing.
    pub const ZERO: Total = Total {
        calls: 0,
        cost: Cost::ZERO,
    };

    /// The total of one call.
    pub const ONE_CALL: Total = Total {
        calls: 1,
        cost: Cost::ZERO,
    };

    /// A cost without calls.
    pub fn of_cost(cost: &Cost) -> Total
        ensures { result ≡ of_cost cost.now }
    {
        Total {
            calls: 0,
            cost: *cost,
        }
    }
}
