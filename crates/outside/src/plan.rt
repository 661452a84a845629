//! Which calls of a folder or a sink in memory are to fail.

ghost use Rattle.std.specs.Prelude.{◌≡◌, ℕ, List};
ghost use Rattle.outside.specs.Plan.{one_more, next_fails, after_call, count_after};

use std::marker::Model;

/// The numbers of the calls that fail, counted from 1, and how many calls there were.
#[derive(Debug, Drop)]
pub struct Plan {
    fails: Vec<u64>,
    calls: u64,
}

impl Model for Plan {
    ghost use Rattle.outside.specs.Plan as seen;

    ghost Value = { seen.Plan };

    ghost view = { λ p. record { fails = p.fails.items; calls = p.calls } };
}

impl Plan {
    pub fn new(fails: Vec<u64>) -> Plan
        ensures { result ≡ record { fails = fails.items; calls = 0 } }
    {
        Plan { fails, calls: 0 }
    }

    /// Counts one more call, and says whether it is to fail.
    pub fn call(&mut self) -> bool
        ensures fails { result ≡ next_fails self.old }
        ensures counted { self.new ≡ after_call self.old }
    {
        self.calls = self.calls.saturating_add(1);
        let number = self.calls;
        self.fails.iter().any(|n| *n == number)
    }
}

/// The count of faults after a call that fails or not. A count at 2^64 - 1 stays there.
pub fn count_after(fails: bool, count: u64) -> u64
    ensures { result ≡ count_after fails count }
{
    if fails {
        count.saturating_add(1)
    } else {
        count
    }
}
