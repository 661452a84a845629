//! Where texts stand.

ghost use Rattle.std.specs.Prelude.{◌≡◌};
ghost use Rattle.name_numbers.specs.inner.Places.{behind};
ghost use Rattle.name_numbers.specs.inner.Ties.{same_places};

use byte_text::ExactOrder;

/// Where a text stands in bytes: from `start` up to, and without, `end`.
#[derive(Clone, Copy, Debug, PartialEq, Eq, PartialOrd, Ord)]
pub struct TextPlace {
    pub start: usize,
    pub end: usize,
}

impl TextPlace {
    /// No bytes.
    pub(crate) const NOWHERE: TextPlace = TextPlace { start: 0, end: 0 };

    /// The same without so many bytes at the front, or without all if there are fewer.
    pub(crate) fn behind(self, skip: usize) -> TextPlace
        ensures { result ≡ behind skip self }
    {
        let len = self.end.saturating_sub(self.start);
        TextPlace {
            start: self.start + skip.min(len),
            end: self.end,
        }
    }
}

impl ExactOrder for TextPlace {
    ghost exact = { same_places };
}
