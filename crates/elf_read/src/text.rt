//! Parts of the file, and the strings of a string table.

ghost use Rattle.std.specs.Prelude.{◌≡◌, ◌≤◌, ◌<◌, ◌+◌, ◌^◌, length, IfOk};
ghost use Rattle.elf_read.specs.inner.Fronts.{front_of};
ghost use Rattle.elf_read.specs.Strings.{IsPart, string_len, string_at};

use std::alloc::{AllocError, Global};
use std::marker::Model;
use text_ends::{Texts, first_zero};

/// A part of the file's bytes, from `start` up to, and without, `end`.
#[derive(Clone, Copy, Debug, PartialEq, Eq)]
pub struct Range {
    pub start: usize,
    pub end: usize,
}

impl Range {
    /// No bytes.
    pub(crate) const NOTHING: Range = Range { start: 0, end: 0 };
}

/// How many bytes stand before the first zero byte, or before the end where there is none.
fn string_len(bytes: &[u8]) -> usize
    ensures length { result ≡ string_len bytes.now }
    ensures within { result ≤ length bytes.now }
{
    first_zero(bytes).unwrap_or(bytes.len())
}

/// At most the first `most` bytes of the string at a place of a table of strings. It looks at no
/// byte beyond them.
#[tactic(auto, unfolding(crate::specs::Strings::string_at))]
pub fn string_front(bytes: &[u8], strings: Range, place: u32, most: usize) -> Range
    requires { strings.end ≤ length bytes.now }
    ensures front { result ≡ front_of most (string_at bytes.now strings place) }
    ensures part { IsPart bytes.now result }
{
    if strings.end <= strings.start || strings.end - strings.start <= place as usize {
        return Range::NOTHING;
    }
    let start = strings.start + place as usize;
    let len = most.min(strings.end - start);
    let end = start + string_len(&bytes[start..start + len]);
    Range { start, end }
}

/// A table of strings in a file, of which each end is found without a walk.
#[derive(Drop)]
pub struct Strings<'a> {
    bytes: &'a [u8],
    range: Range,
    texts: Texts<'a>,
}

impl<'a> Model for Strings<'a> {
    ghost use Rattle.elf_read.specs.Strings.{part_of};
    ghost use Rattle.elf_read.specs.inner.Tables.{StringTable};
    ghost use Rattle.std.specs.Prelude.{◌≡◌, ◌≤◌, length};

    ghost Value = { StringTable };

    ghost view = { λ s. record { bytes = s.bytes.now; range = s.range } };

    ghost invariant = { λ s. (s.texts ≡ part_of s.bytes.now s.range) × (s.range.end ≤ length s.bytes.now) };
}

impl<'a> Strings<'a> {
    /// The strings that stand in this part of the file. There are none where its end isn't behind its start.
    pub fn new(alloc: Global, bytes: &'a [u8], range: Range) -> Result<Strings<'a>, AllocError>
        requires in_file { range.end ≤ length bytes.now }
        requires short { range.end < range.start + 2 ^ 32 }
        ensures { IfOk result (λ strings. strings ≡ record { bytes = bytes.now; range = range }) }
    {
        let part = if range.start < range.end {
            &bytes[range.start..range.end]
        } else {
            &[]
        };
        let texts = Texts::new(alloc, part)?;
        Ok(Strings {
            bytes,
            range,
            texts,
        })
    }

    /// The string at a place of the table, and nothing where the place isn't in the table.
    #[tactic(auto, unfolding(crate::specs::Strings::string_at))]
    pub fn string(&self, place: u32) -> Range
        ensures string { result ≡ string_at self.now.bytes self.now.range place }
        ensures part { IsPart self.now.bytes result }
    {
        let place = place as usize;
        if place >= self.texts.bytes().len() {
            return Range::NOTHING;
        }
        let start = self.range.start + place;
        Range {
            start,
            end: start + self.texts.len_at(place),
        }
    }

    /// The part of the file.
    pub fn range(&self) -> Range
        ensures { result ≡ self.now.range }
    {
        self.range
    }
}
