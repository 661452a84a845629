//! Texts that are part of other bytes, so that nothing is copied to compare them or to look them up.

ghost use Rattle.std.specs.Prelude.{◌≡◌, ◌∷◌, [], Some, IfOk};
ghost use Rattle.std.proofs.Common.{refl, rules};
ghost use Rattle.std.proofs.lemmas.Slice.Eq.{bytes_eq-Decides};
ghost use Rattle.std.specs.Str.{bytes_eq};
ghost use Rattle.std.specs.Ordering.{nat_cmp};
ghost use Rattle.std.specs.Cmp as cmp;
ghost use Rattle.std.specs.Cmp.Lexicographic.{slice_cmp, nat_list_eq_equiv, nat_list_cmp_total, texts_po, texts_ties};
ghost use Rattle.byte_text.specs.Ties.{same_texts};

use crate::exact_order::ExactOrder;
use crate::memory::OutOfMemory;
use crate::text::Text;
use std::alloc::Global;
use std::cmp::Ordering;
use std::marker::Model;

/// A borrowed text. Contracts see the list of its bytes, as of a `Text`, and its order is the same.
#[derive(Debug, Drop)]
pub struct TextRef<'a> {
    bytes: &'a [u8],
}

impl<'a> Model for TextRef<'a> {
    ghost use Rattle.std.specs.Prelude.{List, ℕ};

    ghost Value = { List ℕ };

    ghost view = { λ t. t.bytes.now };
}

impl<'a> TextRef<'a> {
    pub fn new(bytes: &'a [u8]) -> TextRef<'a>
        ensures { result ≡ bytes.now }
    {
        TextRef { bytes }
    }

    pub fn as_bytes(&self) -> &'a [u8]
        ensures { result.now ≡ self.now }
    {
        self.bytes
    }

    /// The same text, borrowed once more.
    pub fn again(&self) -> TextRef<'a>
        ensures { result ≡ self.now }
    {
        TextRef { bytes: self.bytes }
    }

    /// A text of its own with these bytes.
    pub fn to_text(&self, alloc: Global) -> Result<Text, OutOfMemory>
        ensures { IfOk result (λ text. text ≡ self.now) }
    {
        Text::from_bytes(alloc, self.bytes)
    }
}

impl PartialEq for TextRef<'_> {
    ghost eq = { bytes_eq };

    ghost laws = { cmp.partial_equiv_from_equiv nat_list_eq_equiv };

    fn eq(&self, other: &Self) -> bool {
        self.as_bytes() == other.as_bytes()
    }
}

impl Eq for TextRef<'_> {
    ghost laws = { nat_list_eq_equiv };
}

impl PartialOrd for TextRef<'_> {
    ghost partial_cmp = { λ x y. Some (slice_cmp nat_cmp x y) };

    ghost laws = { texts_po };

    fn partial_cmp(&self, other: &Self) -> Option<Ordering> {
        Some(self.cmp(other))
    }
}

/// Texts are in the order of their bytes, and one that another begins with comes before it.
impl Ord for TextRef<'_> {
    ghost cmp = { slice_cmp nat_cmp };

    ghost total = { nat_list_cmp_total };

    ghost matches_partial_cmp = { λ x y. refl };

    ghost matches_eq = { λ x y. texts_ties x y };

    fn cmp(&self, other: &Self) -> Ordering {
        self.as_bytes().cmp(&other.as_bytes())
    }
}

impl ExactOrder for TextRef<'_> {
    ghost exact = { same_texts };
}
