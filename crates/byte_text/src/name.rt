//! The cleaned form of names.

ghost use Rattle.std.specs.Prelude.{◌≡◌, ◌<◌, IfOk};
ghost use Rattle.byte_text.specs.Names.{clean_name, clean_byte};

use crate::memory::OutOfMemory;
use crate::text::Text;
use std::alloc::Global;

/// What stands for a name that isn't known.
pub const UNKNOWN: &[u8] = b"???";

/// The byte at a place of a name of this length, in the cleaned form.
fn clean_byte(len: usize, place: usize, byte: u8) -> u8
    requires { place < len }
    ensures { result ≡ clean_byte len place byte }
{
    let printable = matches!(byte, b' '..=b'~');
    let space_at_end = byte == b' ' && (place == 0 || place + 1 == len);
    if printable && !space_at_end {
        byte
    } else {
        b'?'
    }
}

/// The cleaned form of a name, in which it stands in files and messages: each byte outside 0x20 to 0x7e and a space in
/// the first or last place become `?`, and the empty name becomes `???`.
pub fn clean_name(alloc: Global, name: &[u8]) -> Result<Text, OutOfMemory>
    ensures { IfOk result (λ text. text ≡ clean_name name.now) }
{
    if name.is_empty() {
        return Text::from_bytes(alloc, UNKNOWN);
    }
    let mut bytes = Vec::with_capacity(alloc, name.len())?;
    'bytes: for (place, byte) in name.iter().enumerate() {
        bytes.push(clean_byte(name.len(), place, *byte))?;
    }
    Ok(Text { bytes })
}
