//! The cost of an event: one number for each kind of event that is counted.

ghost use Rattle.std.specs.Prelude.{◌≡◌, ◌<◌, ◌≤◌, ◌^◌, All, length, map};
ghost use Rattle.std.specs.List.{AllZip};
ghost use Rattle.event_costs.specs.Costs.{difference_of_costs, event_kinds, event_names};
ghost use Rattle.event_costs.specs.Costs.{events_shown, IsWhole, sum_of_costs};

use std::marker::Model;

/// How many kinds of event are counted.
pub const EVENTS: usize = 13;

/// How many of them are shown where branches aren't asked for: those before the first kind of branches.
pub(crate) const EVENTS_WITHOUT_BRANCHES: usize = 9;

/// The names of the kinds of event, in the order of their numbers.
pub const EVENT_NAMES: [&str; EVENTS] = [
    "Ir", "Dr", "Dw", "I1mr", "D1mr", "D1mw", "ILmr", "DLmr", "DLmw", "Bc", "Bcm", "Bi", "Bim",
];

/// The names of the events shown: all of them where branches are asked for, else those that aren't of branches.
pub fn event_names_shown(branches: bool) -> &'static [&'static str]
    ensures { map (λ name. name.now) result.now ≡ events_shown branches event_names }
{
    shown_part(branches, &EVENT_NAMES)
}

/// Of a list with an element for each kind of event, those of the events shown.
fn shown_part<T>(branches: bool, all: &[T]) -> &[T]
    requires { length all.now ≡ event_kinds }
    ensures { result.now ≡ events_shown branches all.now }
{
    if branches {
        all
    } else {
        &all[..EVENTS_WITHOUT_BRANCHES]
    }
}

/// The cost of one event or of many: a number for each kind. Contracts see the list of its numbers.
#[derive(Clone, Copy, Debug)]
pub struct Cost {
    pub n: [u64; EVENTS],
}

impl Model for Cost {
    ghost use Rattle.std.specs.Prelude.{List, ℕ};
    ghost use Rattle.event_costs.specs.Costs.{IsWhole};

    ghost Value = { List ℕ };

    ghost view = { λ c. c.n };

    ghost invariant = { λ c. IsWhole c.n };

    ghost inverse = { λ n. record { n = n } };
}

impl Cost {
    /// The cost of nothing.
    pub const ZERO: Cost = Cost { n: [0; EVENTS] };

    /// A number for each kind of event.
    pub fn numbers(&self) -> &[u64]
        ensures numbers { result.now ≡ self.now }
        ensures whole { IsWhole self.now }
    {
        &self.n
    }

    /// The numbers of the events shown: all of them where branches are asked for, else those that aren't of branches.
    pub fn shown_numbers(&self, branches: bool) -> &[u64]
        ensures { result.now ≡ events_shown branches self.now }
    {
        shown_part(branches, &self.n)
    }

    /// Adds each number of the other cost.
    pub fn add(&mut self, other: &Cost)
        requires { All (λ n. n < 2 ^ 64) (sum_of_costs self.old other.now) }
        ensures sum { self.new ≡ sum_of_costs self.old other.now }
        ensures whole { IsWhole other.now }
    {
        add_numbers(&mut self.n, &other.n);
    }

    /// Each number less that of the other cost.
    pub fn minus(&self, other: &Cost) -> Cost
        requires { AllZip (λ x y. y ≤ x) self.now other.now }
        ensures { result ≡ difference_of_costs self.now other.now }
    {
        let mut rest = *self;
        subtract_numbers(&mut rest.n, &other.n);
        rest
    }
}

/// Adds each number to the one at its place.
fn add_numbers(sums: &mut [u64], numbers: &[u64])
    requires alike { length sums.old ≡ length numbers.now }
    requires fits { All (λ n. n < 2 ^ 64) (sum_of_costs sums.old numbers.now) }
    ensures { sums.new ≡ sum_of_costs sums.old numbers.now }
{
    'places: for i in 0..numbers.len() {
        sums[i] += numbers[i];
    }
}

/// Takes each number from the one at its place.
fn subtract_numbers(rests: &mut [u64], numbers: &[u64])
    requires alike { length rests.old ≡ length numbers.now }
    requires covered { AllZip (λ x y. y ≤ x) rests.old numbers.now }
    ensures { rests.new ≡ difference_of_costs rests.old numbers.now }
{
    'places: for i in 0..numbers.len() {
        rests[i] -= numbers[i];
    }
}
