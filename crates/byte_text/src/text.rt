//! Byte texts, which contracts see as their list of bytes.

ghost use Rattle.std.specs.Prelude.{◌≡◌, ◌++◌, ◌%◌, List, [], Some, IfOk, OnOk, OnErr, decimal, length, IsTrue, ◌↔◌};
ghost use Rattle.std.proofs.Common.{refl};
ghost use Rattle.std.specs.Str.{bytes_eq};
ghost use Rattle.std.specs.Ordering.{nat_cmp};
ghost use Rattle.std.specs.Cmp as cmp;
ghost use Rattle.std.specs.Cmp.Lexicographic.{slice_cmp, nat_list_eq_equiv, nat_list_cmp_total, texts_po, texts_ties};
ghost use Rattle.byte_text.specs.Hex.{hex, hex_digit};
ghost use Rattle.byte_text.specs.Ties.{same_texts};

use crate::exact_order::ExactOrder;
use crate::memory::OutOfMemory;
use crate::text_ref::TextRef;
use itoa::Buffer;
use std::alloc::Global;
use std::cmp::Ordering;
use std::marker::Model;

/// A text as its bytes, which need not be UTF-8.
#[derive(Debug, Drop)]
pub struct Text {
    pub bytes: Vec<u8>,
}

impl Model for Text {
    ghost use Rattle.std.specs.Prelude.{List, ℕ};

    ghost Value = { List ℕ };

    ghost view = { λ t. t.bytes.items };
}

impl Text {
    /// The empty text.
    pub fn new(alloc: Global) -> Text
        ensures { result ≡ [] }
    {
        Text {
            bytes: Vec::new(alloc),
        }
    }

    /// A copy of these bytes.
    pub fn from_bytes(alloc: Global, bytes: &[u8]) -> Result<Text, OutOfMemory>
        ensures { IfOk result (λ t. t ≡ bytes.now) }
    {
        let bytes = Vec::from_slice(alloc, bytes)?;
        Ok(Text { bytes })
    }

    pub fn as_bytes(&self) -> &[u8]
        ensures { result.now ≡ self.now }
    {
        self.bytes.as_slice()
    }

    /// The text, borrowed.
    pub fn as_ref(&self) -> TextRef<'_>
        ensures { result ≡ self.now }
    {
        TextRef::new(self.as_bytes())
    }

    /// The same text once more.
    pub fn try_clone(&self, alloc: Global) -> Result<Text, OutOfMemory>
        ensures { IfOk result (λ text. text ≡ self.now) }
    {
        Text::from_bytes(alloc, self.as_bytes())
    }

    pub fn len(&self) -> usize
        ensures { result ≡ length self.now }
    {
        self.bytes.len()
    }

    pub fn is_empty(&self) -> bool
        ensures { IsTrue result ↔ (self.now ≡ []) }
    {
        self.bytes.is_empty()
    }

    /// Appends these bytes. After a refusal the text is as before.
    pub fn push(&mut self, bytes: &[u8]) -> Result<(), OutOfMemory>
        ensures ok { OnOk result (self.new ≡ self.old ++ bytes.now) }
        ensures err { OnErr result (self.new ≡ self.old) }
    {
        self.bytes.extend_from_slice(bytes)?;
        Ok(())
    }

    /// Appends the decimal digits of a number. After a refusal the text is as before.
    pub fn push_number(&mut self, number: u64) -> Result<(), OutOfMemory>
        ensures ok { OnOk result (self.new ≡ self.old ++ decimal number) }
        ensures err { OnErr result (self.new ≡ self.old) }
    {
        let mut digits = Buffer::new();
        self.push(digits.format(number).as_bytes())
    }

    /// Appends a word of memory as `0x` and eight hexadecimal digits. After a refusal the text is as before.
    #[tactic(auto, unfolding(crate::specs::Hex::hex))]
    pub fn push_hex(&mut self, word: u32) -> Result<(), OutOfMemory>
        ensures ok { OnOk result (self.new ≡ self.old ++ hex word) }
        ensures err { OnErr result (self.new ≡ self.old) }
    {
        self.push(&[
            b'0',
            b'x',
            hex_digit(word >> 28),
            hex_digit(word >> 24),
            hex_digit(word >> 20),
            hex_digit(word >> 16),
            hex_digit(word >> 12),
            hex_digit(word >> 8),
            hex_digit(word >> 4),
            hex_digit(word),
        ])
    }
}

/// The hexadecimal digit of the low four bits.
fn hex_digit(bits: u32) -> u8
    ensures { result ≡ hex_digit (bits % 16) }
{
    let digit = (bits % 16) as u8;
    if digit < 10 {
        b'0' + digit
    } else {
        b'a' - 10 + digit
    }
}

impl PartialEq for Text {
    ghost eq = { bytes_eq };

    ghost laws = { cmp.partial_equiv_from_equiv nat_list_eq_equiv };

    fn eq(&self, other: &Self) -> bool {
        self.as_bytes() == other.as_bytes()
    }
}

impl Eq for Text {
    ghost laws = { nat_list_eq_equiv };
}

impl PartialOrd for Text {
    ghost partial_cmp = { λ x y. Some (slice_cmp nat_cmp x y) };

    ghost laws = { texts_po };

    fn partial_cmp(&self, other: &Self) -> Option<Ordering> {
        Some(self.cmp(other))
    }
}

/// Texts are in the order of their bytes, and one that another begins with comes before it.
impl Ord for Text {
    ghost cmp = { slice_cmp nat_cmp };

    ghost total = { nat_list_cmp_total };

    ghost matches_partial_cmp = { λ x y. refl };

    ghost matches_eq = { λ x y. texts_ties x y };

    fn cmp(&self, other: &Self) -> Ordering {
        self.as_bytes().cmp(&other.as_bytes())
    }
}

impl ExactOrder for Text {
    ghost exact = { same_texts };
}
