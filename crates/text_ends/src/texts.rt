//! Sections of texts, of which each end is found without a walk.

ghost use Rattle.std.specs.Prelude.{◌≡◌, ◌+◌, ◌*◌, ◌/◌, ◌≤◌, ◌<◌, ◌^◌, ◌==◌, drop, take, length, option_map, IfOk};
ghost use Rattle.std.specs.List.{position, position_or_len};
ghost use Rattle.text_ends.specs.inner.Ends.{AreEnds, IsEndFrom};

use std::alloc::{AllocError, Global};
use std::marker::Model;

/// How many bytes a block has. One end is kept for each block, so that no search for an end looks at more bytes.
const BLOCK: usize = 32;

/// The bytes of a section, with the first end from the start of each block on. Contracts see the bytes.
#[derive(Drop)]
pub struct Texts<'a> {
    bytes: &'a [u8],
    ends: Vec<u32>,
}

impl<'a> Model for Texts<'a> {
    ghost use Rattle.std.specs.Prelude.{List, ℕ};

    ghost Value = { List ℕ };

    ghost use Rattle.text_ends.specs.inner.Ends.{AreEnds};

    ghost view = { λ t. t.bytes.now };

    ghost invariant = { λ t. AreEnds t.bytes.now t.ends.items };
}

/// The place of the first zero byte.
pub fn first_zero(bytes: &[u8]) -> Option<usize>
    ensures { result ≡ position (λ byte. byte == 0) bytes.now }
{
    bytes.iter().position(|byte| *byte == 0)
}

/// The end of the text at a place: in the place's block, or else `behind`, the first one from the next block on.
fn end_from(bytes: &[u8], place: usize, behind: usize) -> usize
    requires within { place ≤ length bytes.now }
    requires behind { IsEndFrom bytes.now ((place / 32 + 1) * 32) behind }
    ensures { IsEndFrom bytes.now place result }
{
    let block_end = bytes.len().min((place / BLOCK + 1) * BLOCK);
    match first_zero(&bytes[place..block_end]) {
        Some(len) => place + len,
        None => behind,
    }
}

/// The first end from the start of each block on, the last block first, and behind them the end of the bytes.
fn ends_of(alloc: Global, bytes: &[u8]) -> Result<Vec<u32>, AllocError>
    requires { length bytes.now < 2 ^ 32 }
    ensures { IfOk result (λ ends. AreEnds bytes.now ends.items) }
{
    let count = bytes.len() / BLOCK + 1;
    let mut ends = vec![in alloc; bytes.len() as u32; count + 1]?;
    'back: for block in (0..count).rev() {
        let behind = ends[block + 1] as usize;
        ends[block] = end_from(bytes, block * BLOCK, behind) as u32;
    }
    Ok(ends)
}

impl<'a> Texts<'a> {
    /// Finds the ends of all texts of a section, in one walk.
    pub fn new(alloc: Global, bytes: &'a [u8]) -> Result<Texts<'a>, AllocError>
        requires { length bytes.now < 2 ^ 32 }
        ensures { IfOk result (λ texts. texts ≡ bytes.now) }
    {
        let ends = ends_of(alloc, bytes)?;
        Ok(Texts { bytes, ends })
    }

    pub fn bytes(&self) -> &'a [u8]
        ensures { result.now ≡ self.now }
    {
        self.bytes
    }

    /// How many bytes stand from a place on before the next zero byte, or before the end where there is none.
    pub fn len_at(&self, place: usize) -> usize
        requires { place ≤ length self.now }
        ensures { result ≡ position_or_len (λ byte. byte == 0) (drop place self.now) }
    {
        let block = place / BLOCK;
        let first = self.ends[block] as usize;
        let end = if place <= first {
            first
        } else {
            end_from(self.bytes, place, self.ends[block + 1] as usize)
        };
        end - place
    }

    /// The text at a place, without the zero byte at its end; nothing exactly where it has none.
    pub fn text_at(&self, place: usize) -> Option<&'a [u8]>
        requires { place ≤ length self.now }
        ensures { option_map (λ text. text.now) result ≡ option_map (λ len. take len (drop place self.now))
            (position (λ byte. byte == 0) (drop place self.now)) }
    {
        let rest = &self.bytes[place..];
        let len = self.len_at(place);
        if len < rest.len() {
            Some(&rest[..len])
        } else {
            None
        }
    }
}
