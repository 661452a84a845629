//! Numbers in the file, the lowest byte first.

ghost use Rattle.std.specs.Prelude.{◌≡◌, ◌+◌, ◌≤◌, length};
ghost use Rattle.elf_read.specs.Numbers.{half_at, word_at};

use byteorder::{ByteOrder, LittleEndian};

/// The number of 2 bytes at a place.
#[tactic(auto, unfolding(crate::specs::Numbers::half_at))]
pub fn half(bytes: &[u8], place: usize) -> u16
    requires { place + 2 ≤ length bytes.now }
    ensures { result ≡ half_at bytes.now place }
{
    LittleEndian::read_u16(&bytes[place..])
}

/// The number of 4 bytes at a place.
#[tactic(auto, unfolding(crate::specs::Numbers::word_at))]
pub fn word(bytes: &[u8], place: usize) -> u32
    requires { place + 4 ≤ length bytes.now }
    ensures { result ≡ word_at bytes.now place }
{
    LittleEndian::read_u32(&bytes[place..])
}
