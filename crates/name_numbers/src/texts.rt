//! Bytes in which texts stand, and the order of these texts.

ghost use Rattle.std.specs.Prelude.{◌≡◌, IfOk, All};
ghost use Rattle.std.specs.Cmp.Lexicographic.{slice_cmp};
ghost use Rattle.std.specs.Ordering.{nat_cmp};
ghost use Rattle.name_numbers.specs.Texts.{text_at, IsInFile};

use crate::tails::Tails;
use crate::text_place::TextPlace;
use byte_text::OutOfMemory;
use std::alloc::Global;
use std::cmp::Ordering;
use std::marker::Model;

/// Bytes in which texts stand, and where texts are tails of one another, ranks of tails.
#[derive(Drop)]
pub(crate) struct Texts<'a> {
    bytes: &'a [u8],
    tails: Option<Tails>,
}

impl<'a> Model for Texts<'a> {
    ghost use Rattle.std.specs.Prelude.{List, ℕ, IfSome};
    ghost use Rattle.name_numbers.specs.inner.Tails.{AreTails};

    ghost Value = { List ℕ };

    ghost view = { λ t. t.bytes.now };

    ghost invariant = { λ t. IfSome t.tails (λ tails. AreTails t.bytes.now tails.tails.items) };
}

/// Whether the texts at these places have so few bytes together that they are compared as they stand: not many times as
/// many as there are. Those that have more are tails of one another.
fn are_short(bytes: &[u8], places: &[TextPlace]) -> bool {
    let mut room = bytes.len().saturating_mul(8);
    'places: for place in places {
        let len = place.end.saturating_sub(place.start);
        match room.checked_sub(len) {
            Some(rest) => room = rest,
            None => return false,
        }
    }
    true
}

impl<'a> Texts<'a> {
    /// Texts that are compared as they stand.
    pub(crate) fn new(bytes: &'a [u8]) -> Texts<'a>
        ensures { result ≡ bytes.now }
    {
        Texts { bytes, tails: None }
    }

    /// Texts at these places.
    pub(crate) fn at(
        alloc: Global,
        bytes: &'a [u8],
        places: &[TextPlace],
    ) -> Result<Texts<'a>, OutOfMemory>
        requires { All (IsInFile bytes.now) places.now }
        ensures { IfOk result (λ texts. texts ≡ bytes.now) }
    {
        if are_short(bytes, places) {
            return Ok(Texts::new(bytes));
        }
        let tails = Tails::new(alloc, bytes, places)?;
        Ok(Texts {
            bytes,
            tails: Some(tails),
        })
    }

    /// Whether texts are compared as they stand.
    pub(crate) fn are_short(&self) -> bool {
        self.tails.is_none()
    }

    /// What stands at a place.
    pub(crate) fn text_at(&self, place: TextPlace) -> &'a [u8]
        requires { IsInFile self.now place }
        ensures { result.now ≡ text_at self.now place }
    {
        &self.bytes[place.start..place.end]
    }

    /// The order of the texts at two places.
    pub(crate) fn compare(&self, x: TextPlace, y: TextPlace) -> Ordering
        requires first { IsInFile self.now x }
        requires second { IsInFile self.now y }
        ensures { result ≡ slice_cmp nat_cmp (text_at self.now x) (text_at self.now y) }
    {
        match &self.tails {
            Some(tails) => tails.compare(self.bytes, x, y),
            None => self.text_at(x).cmp(&self.text_at(y)),
        }
    }
}
