//! The digits by which keys are found.

ghost use Rattle.std.specs.Prelude.{◌≡◌, ◌<◌, ◌+◌, ◌*◌, ◌/◌, ◌^◌, ◌%◌, ℕ, Bool, true};
ghost use Rattle.arc_costs.specs.Digits.{arc_digit, digit_of, place_number, spread};
ghost use Rattle.arc_costs.specs.inner.Exact.{few_arc_digits, few_digits, same_arcs, same_number, same_places};

use event_costs::{ArcKey, Number, Place};

/// An odd number whose bits are as good as drawn: 2^128 over the golden ratio.
const SPREAD: u128 = 0x9e37_79b9_7f4a_7c15_f39c_c060_5ced_c835;

/// The last place that a number of 128 bits has a digit at.
const LAST: usize = 63;

/// A key with digits of its own: keys that differ have other digits at one of their first places.
pub trait Digits: Eq + Copy {
    ghost digit: { Self → ℕ → ℕ };

    /// The digit at a place.
    fn digit(&self, place: usize) -> usize
        ensures { result ≡ digit self.now place };

    /// Whether the other one is the same key, as `==` says.
    #[inline(always)]
    fn is(&self, other: &Self) -> bool
        ensures { result ≡ Self.eq self.now other.now }
    {
        *self == *other
    }

    ghost few: { (key : Self) (place : ℕ) → digit key place < 4 };

    ghost exact: { (x y : Self) → Self.eq x y ≡ true → x ≡ y };
}

/// The digit of a number at a place, from the highest on.
#[inline(always)]
pub fn digit_of(number: u128, place: usize) -> usize
    ensures { result ≡ digit_of number place }
{
    let below = 2 * (LAST - place.min(LAST));
    ((number >> below) % 4) as usize
}

/// A number for each number, whose high digits depend on all bits.
#[inline(always)]
#[tactic(auto, unfolding(crate::specs::Digits::spread))]
pub fn spread(number: u128) -> u128
    ensures { result ≡ spread number }
{
    number.wrapping_mul(SPREAD)
}

impl Digits for u64 {
    ghost digit = { λ number n. digit_of (spread number) n };

    ghost few = { λ number n. few_digits (spread number) n };

    ghost exact = { same_number };

    #[inline(always)]
    fn digit(&self, place: usize) -> usize {
        digit_of(spread(u128::from(*self)), place)
    }
}

/// The file and the line of a place as one number.
#[inline(always)]
fn source_of<N: Number>(place: &Place<N>) -> u64
    ensures both { result ≡ place.now.file.0 + place.now.line * 2 ^ 32 }
    ensures file { result % 2 ^ 32 ≡ place.now.file.0 }
    ensures line { result / 2 ^ 32 ≡ place.now.line }
{
    u64::from(place.file.0) + (u64::from(place.line) << 32)
}

impl<N: Number> Digits for Place<N> {
    ghost digit = { λ place n. digit_of (spread (place_number place)) n };

    ghost few = { λ place n. few_digits (spread (place_number place)) n };

    ghost exact = { same_places };

    #[inline(always)]
    fn digit(&self, place: usize) -> usize {
        let number = u128::from(self.func.wide().0) + (u128::from(source_of(self)) << 64);
        digit_of(spread(number), place)
    }

    /// The file and the line are compared as one number.
    #[inline(always)]
    fn is(&self, other: &Self) -> bool {
        self.func.wide().0 == other.func.wide().0 && source_of(self) == source_of(other)
    }
}

impl<N: Number> Digits for ArcKey<N> {
    ghost digit = { arc_digit };

    ghost few = { few_arc_digits };

    ghost exact = { same_arcs };

    #[inline(always)]
    fn digit(&self, place: usize) -> usize {
        let caller = u128::from(self.caller.wide().0);
        let callee = u128::from(self.callee.wide().0);
        if place > LAST {
            return digit_of(caller + (callee << 64), place - LAST - 1);
        }
        let source = u64::from(self.file.0) + (u64::from(self.line) << 32);
        let number = (caller + (callee << 32)).wrapping_add(u128::from(source) << 64);
        digit_of(spread(number), place)
    }
}
