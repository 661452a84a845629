//! What a table sums up.

ghost use Rattle.std.specs.Prelude.{◌≡◌, Bool, false, refl, true};
ghost use Rattle.arc_costs.specs.Totals.{Fits, is_some_cost, is_some_total, nothing as no_total, sum_of_totals};
ghost use Rattle.arc_costs.specs.inner.Sums.{CanAddCost, CanAddTotal, IsWholeTotal};
ghost use Rattle.arc_costs.specs.inner.Ties.{no_cost_plus, no_numbers, no_total_numbers, nothing_plus as no_total_plus};
ghost use Rattle.arc_costs.specs.inner.Ties.{some_sum, some_total, whole_sum};
ghost use Rattle.event_costs.specs.Costs.{IsWhole, no_cost, sum_of_costs};

use crate::total::Total;
use event_costs::{Cost, Ones};

/// An amount that is summed up number by number.
pub trait Amount: Copy {
    ghost nothing: { Self };

    ghost plus: { Self → Self → Self };

    ghost is_some: { Self → Bool };

    ghost can_add: { Self → Self → Type 0 };

    ghost is_whole: { Self → Type 0 };

    /// The amount of nothing.
    fn zero() -> Self
        ensures { result ≡ nothing };

    /// Adds each number of the other amount.
    fn add(&mut self, other: &Self)
        requires { can_add self.old other.now }
        ensures sum { self.new ≡ plus self.old other.now }
        ensures whole { is_whole other.now };

    /// Whether a number isn't 0.
    fn is_some(&self) -> bool
        ensures { result ≡ is_some self.now };

    /// Whether the number that nearly every addition raises isn't 0.
    fn is_begun(&self) -> bool
        ensures { result ≡ true → is_some self.now ≡ true };

    ghost nothing_is_none: { is_some nothing ≡ false };

    ghost none_is_nothing: { (a : Self) → is_whole a → is_some a ≡ false → a ≡ nothing };

    ghost plus_is_some: { (a b : Self) → is_whole a → is_whole b → is_some a ≡ true → is_some (plus a b) ≡ true };

    ghost nothing_whole: { is_whole nothing };

    ghost plus_whole: { (a b : Self) → is_whole a → is_whole b → is_whole (plus a b) };

    ghost nothing_plus: { (a : Self) → is_whole a → plus nothing a ≡ a };
}

/// What is added to an amount: another one, or what stands for one and is quicker to add.
pub trait Part<A: Amount> {
    ghost amount: { Self → A };

    /// Adds each number of the amount that it stands for.
    fn add_to(&self, sum: &mut A)
        requires { A.can_add sum.old (amount self.now) }
        ensures sum { sum.new ≡ A.plus sum.old (amount self.now) }
        ensures whole { A.is_whole (amount self.now) };
}

impl Part<Cost> for Cost {
    ghost amount = { λ cost. cost };

    #[inline(always)]
    fn add_to(&self, sum: &mut Cost) {
        Amount::add(sum, self);
    }
}

impl Part<Cost> for Ones {
    ghost amount = { λ ones. ones };

    #[inline(always)]
    fn add_to(&self, sum: &mut Cost) {
        numbers_fit(sum.numbers());
        sum.add_ones(self);
    }
}

impl Part<Total> for Total {
    ghost amount = { λ total. total };

    #[inline(always)]
    fn add_to(&self, sum: &mut Total) {
        Amount::add(sum, self);
    }
}

/// What is held is of 64 bits. Nothing happens.
fn numbers_fit(numbers: &[u64])
    ensures { Fits numbers.now }
{}

impl Amount for Cost {
    ghost nothing = { no_cost };

    ghost plus = { sum_of_costs };

    ghost is_some = { is_some_cost };

    ghost can_add = { CanAddCost };

    ghost is_whole = { IsWhole };

    ghost nothing_is_none = { refl };

    ghost none_is_nothing = { no_numbers };

    ghost plus_is_some = { some_sum };

    ghost nothing_whole = { refl };

    ghost plus_whole = { whole_sum };

    ghost nothing_plus = { no_cost_plus };

    fn zero() -> Cost {
        Cost::ZERO
    }

    #[inline(always)]
    fn add(&mut self, other: &Cost) {
        numbers_fit(self.numbers());
        Cost::add(self, other);
    }

    fn is_some(&self) -> bool {
        self.numbers().iter().any(|n| *n != 0)
    }

    #[inline(always)]
    fn is_begun(&self) -> bool {
        self.n[0] != 0
    }
}

impl Amount for Total {
    ghost nothing = { no_total };

    ghost plus = { sum_of_totals };

    ghost is_some = { is_some_total };

    ghost can_add = { CanAddTotal };

    ghost is_whole = { IsWholeTotal };

    ghost nothing_is_none = { refl };

    ghost none_is_nothing = { no_total_numbers };

    ghost plus_is_some = { some_total };

    ghost nothing_whole = { refl };

    ghost plus_whole = { λ a b. whole_sum a.cost b.cost };

    ghost nothing_plus = { no_total_plus };

    fn zero() -> Total {
        Total::ZERO
    }

    #[inline(always)]
    fn add(&mut self, other: &Total) {
        self.calls += other.calls;
        Amount::add(&mut self.cost, &other.cost);
    }

    fn is_some(&self) -> bool {
        self.calls != 0 || self.cost.is_some()
    }

    #[inline(always)]
    fn is_begun(&self) -> bool {
        self.calls != 0 || self.cost.is_begun()
    }
}
