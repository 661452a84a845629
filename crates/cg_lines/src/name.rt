//! Names of objects, files and functions: a text, an id that stands for one, or both.

ghost use Rattle.std.specs.Prelude.{◌≡◌};
ghost use Rattle.cg_lines.specs.Shapes.{name_of};

use crate::front::{leading_digits, leading_spaces, leading_zeros};
use byte_text::TextRef;

/// A name as it is written. An id is its digits without leading zeros.
#[derive(Debug, Drop)]
pub enum Name<'a> {
    /// A text.
    Plain(TextRef<'a>),
    /// `(ID)`: the text that the id stands for.
    Id(TextRef<'a>),
    /// `(ID) TEXT`: the text, for which the id stands from here on.
    Named(TextRef<'a>, TextRef<'a>),
}

/// The name that a value writes.
pub(crate) fn name_of(value: &[u8]) -> Name<'_>
    ensures { result ≡ name_of value.now }
{
    let [b'(', inner @ ..] = value else {
        return Name::Plain(TextRef::new(value));
    };
    let (digits, after) = inner.split_at(leading_digits(inner));
    let [b')', text @ ..] = after else {
        return Name::Plain(TextRef::new(value));
    };
    if digits.is_empty() {
        return Name::Plain(TextRef::new(value));
    }
    let (_, id) = digits.split_at(leading_zeros(digits));
    let (_, text) = text.split_at(leading_spaces(text));
    if text.is_empty() {
        Name::Id(TextRef::new(id))
    } else {
        Name::Named(TextRef::new(id), TextRef::new(text))
    }
}
