//! Positions: the line number that a row or a call stands at.

ghost use Rattle.std.specs.Prelude.{◌≡◌};
ghost use Rattle.cg_lines.specs.Shapes.{sub_position_of};
ghost use Rattle.cg_lines.specs.Positions.{position_at};

use crate::number::{Number, number_of};

/// A position as it is written.
#[derive(Clone, Copy, Debug)]
pub enum SubPosition {
    /// A number.
    At(Number),
    /// `+` and a number: so much after the last cost line's position.
    Ahead(Number),
    /// `-` and a number: so much before it.
    Back(Number),
    /// `*`: the last cost line's position itself.
    Same,
}

/// The position that a word writes, if it is one.
pub(crate) fn sub_position_of(word: &[u8]) -> Option<SubPosition>
    ensures { result ≡ sub_position_of word.now }
{
    match word {
        [] => None,
        [b'*'] => Some(SubPosition::Same),
        [b'*', ..] => None,
        [b'+', number @ ..] => number_of(number).map(SubPosition::Ahead),
        [b'-', number @ ..] => number_of(number).map(SubPosition::Back),
        _ => number_of(word).map(SubPosition::At),
    }
}

/// The position that is meant, where relative ones count from this base. There is none below 0 or above 2^64 - 1.
pub fn position_at(base: u64, place: SubPosition) -> Option<u64>
    ensures { result ≡ position_at base place }
{
    match place {
        SubPosition::At(Number::Fits(number)) => Some(number),
        SubPosition::Ahead(Number::Fits(number)) => base.checked_add(number),
        SubPosition::Back(Number::Fits(number)) => base.checked_sub(number),
        SubPosition::Same => Some(base),
        SubPosition::At(Number::TooLarge)
        | SubPosition::Ahead(Number::TooLarge)
        | SubPosition::Back(Number::TooLarge) => None,
    }
}
