//! Orders in which only equal values tie.

ghost use Rattle.std.specs.Prelude.{◌≡◌, true};
ghost use Rattle.std.specs.Ordering.{is_eq};
ghost use Rattle.byte_text.specs.Ties.{same_numbers};

/// An order in which only equal values tie, so that a sorted list of values, each once, is determined by
/// which they are.
pub trait ExactOrder: Ord {
    ghost exact: { (x y : Self) → is_eq (Self.cmp x y) ≡ true → x ≡ y };
}

impl ExactOrder for u32 {
    ghost exact = { same_numbers };
}
