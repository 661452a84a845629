//! A place in bytes that are read from front to back.

ghost use Rattle.std.specs.Prelude.{◌≡◌, ◌+◌, ◌<◌, ◌≤◌, length, position, nat_lt, IsTrue, ◌↔◌, IfSome, OnSome};
ghost use Rattle.dwarf_line.specs.Bytes.{bytes_at, number_at, text_at};
ghost use Rattle.dwarf_line.specs.inner.Reads.{Reads, ReadsAs};
ghost use Rattle.dwarf_line.specs.Leb128.{groups_at, uleb128_at, sleb128_at};

use crate::leb128;
use byteorder::{ByteOrder, LittleEndian};
use std::marker::Model;
use text_ends::first_zero;

/// The place of a LEB128 number's last byte, which is the first one below 128.
fn last_group(bytes: &[u8]) -> Option<usize>
    ensures { result ≡ position (λ b. nat_lt b 128) bytes.now }
{
    bytes.iter().position(|byte| *byte < 128)
}

/// The bytes that are still to be read. A call that answers `None` met damage, and what it leaves is
/// not used again.
#[derive(Drop)]
pub struct Cursor<'a> {
    rest: &'a [u8],
}

impl<'a> Model for Cursor<'a> {
    ghost use Rattle.std.specs.Prelude.{List, ℕ};

    ghost Value = { List ℕ };

    ghost view = { λ c. c.rest.now };
}

impl<'a> Cursor<'a> {
    pub fn new(bytes: &'a [u8]) -> Cursor<'a>
        ensures { result ≡ bytes.now }
    {
        Cursor { rest: bytes }
    }

    pub fn len(&self) -> usize
        ensures { result ≡ length self.now }
    {
        self.rest.len()
    }

    pub fn is_empty(&self) -> bool
        ensures { IsTrue result ↔ (length self.now ≡ 0) }
    {
        self.rest.is_empty()
    }

    /// All bytes that are left.
    pub fn rest(&self) -> &'a [u8]
        ensures { result.now ≡ self.now }
    {
        self.rest
    }

    /// The next `count` bytes.
    #[tactic(auto, unfolding(crate::specs::Bytes::bytes_at))]
    pub fn bytes(&mut self, count: u64) -> Option<&'a [u8]>
        ensures read { ReadsAs (λ b. b.now) (bytes_at count) self.old result self.new }
        ensures len { IfSome result (λ b. length b.now ≡ count) }
        ensures shrinks { OnSome result (length self.new + count ≡ length self.old) }
    {
        if (self.rest.len() as u64) < count {
            return None;
        }
        let (front, rest) = self.rest.split_at(count as usize);
        self.rest = rest;
        Some(front)
    }

    #[tactic(auto, unfolding(crate::specs::Bytes::number_at))]
    pub fn u8(&mut self) -> Option<u8>
        ensures read { Reads (number_at 1) self.old result self.new }
        ensures shrinks { OnSome result (length self.new < length self.old) }
    {
        let (first, rest) = self.rest.split_first()?;
        self.rest = rest;
        Some(*first)
    }

    /// A number of two bytes, the lowest first.
    #[tactic(auto, unfolding(crate::specs::Bytes::number_at))]
    pub fn u16(&mut self) -> Option<u16>
        ensures read { Reads (number_at 2) self.old result self.new }
        ensures shrinks { OnSome result (length self.new < length self.old) }
    {
        if self.rest.len() < 2 {
            return None;
        }
        let number = LittleEndian::read_u16(self.rest);
        self.rest = &self.rest[2..];
        Some(number)
    }

    /// A number of four bytes, the lowest first.
    #[tactic(auto, unfolding(crate::specs::Bytes::number_at))]
    pub fn u32(&mut self) -> Option<u32>
        ensures read { Reads (number_at 4) self.old result self.new }
        ensures shrinks { OnSome result (length self.new + 4 ≤ length self.old) }
    {
        if self.rest.len() < 4 {
            return None;
        }
        let number = LittleEndian::read_u32(self.rest);
        self.rest = &self.rest[4..];
        Some(number)
    }

    /// A number of eight bytes, the lowest first.
    #[tactic(auto, unfolding(crate::specs::Bytes::number_at))]
    pub fn u64(&mut self) -> Option<u64>
        ensures read { Reads (number_at 8) self.old result self.new }
        ensures shrinks { OnSome result (length self.new < length self.old) }
    {
        if self.rest.len() < 8 {
            return None;
        }
        let number = LittleEndian::read_u64(self.rest);
        self.rest = &self.rest[8..];
        Some(number)
    }

    /// A text that ends with a zero byte, without that byte.
    #[tactic(auto, unfolding(crate::specs::Bytes::up_to))]
    pub fn text(&mut self) -> Option<&'a [u8]>
        ensures read { ReadsAs (λ b. b.now) text_at self.old result self.new }
        ensures shrinks { OnSome result (length self.new < length self.old) }
    {
        let end = first_zero(self.rest)?;
        let text = &self.rest[..end];
        self.rest = &self.rest[end + 1..];
        Some(text)
    }

    /// The bytes of a LEB128 number.
    #[tactic(auto, unfolding(crate::specs::Leb128::groups_at))]
    fn groups(&mut self) -> Option<&'a [u8]>
        ensures read { ReadsAs (λ b. b.now) groups_at self.old result self.new }
        ensures shrinks { OnSome result (length self.new < length self.old) }
    {
        let last = last_group(self.rest)?;
        let groups = &self.rest[..last + 1];
        self.rest = &self.rest[last + 1..];
        Some(groups)
    }

    /// An unsigned LEB128 number (DWARF 5, 7.6).
    #[tactic(auto, unfolding(crate::specs::Leb128::uleb128_at))]
    pub fn uleb128(&mut self) -> Option<u64>
        ensures read { Reads uleb128_at self.old result self.new }
        ensures shrinks { OnSome result (length self.new < length self.old) }
    {
        let groups = self.groups()?;
        leb128::unsigned(groups)
    }

    /// A signed LEB128 number (DWARF 5, 7.6).
    #[tactic(auto, unfolding(crate::specs::Leb128::sleb128_at))]
    pub fn sleb128(&mut self) -> Option<i64>
        ensures read { Reads sleb128_at self.old result self.new }
        ensures shrinks { OnSome result (length self.new < length self.old) }
    {
        let groups = self.groups()?;
        leb128::signed(groups)
    }
}
