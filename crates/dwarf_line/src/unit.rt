//! The units of a section `.debug_line` (DWARF 5, 6.2.4).

ghost use Rattle.std.specs.Prelude.{◌≡◌, ◌+◌, ◌≤◌, length, IfSome};
ghost use Rattle.dwarf_line.specs.inner.Reads.{ReadsAs};
ghost use Rattle.dwarf_line.specs.Unit.{front_at};
ghost use Rattle.dwarf_line.specs.inner.Fronts.{front_of, unit_len};

use crate::cursor::Cursor;

/// A length that says that an 8-byte length follows (DWARF 5, 7.4).
const WIDE: u32 = 0xffff_ffff;

/// The first length that is reserved (DWARF 5, 7.2.2).
const FIRST_RESERVED: u32 = 0xffff_fff0;

/// A unit by its length.
#[derive(Drop)]
pub enum Unit<'a> {
    /// A unit of the 32-bit format, without its length.
    Body(&'a [u8]),
    /// A unit of the 64-bit format, which was passed over.
    Passed,
}

/// The next unit; `None` where reading stops.
#[tactic(auto, unfolding(crate::specs::Unit::front_at))]
pub fn next<'a>(cursor: &mut Cursor<'a>) -> Option<Unit<'a>>
    ensures read { ReadsAs front_of front_at cursor.old result cursor.new }
    ensures room { IfSome result (λ unit. length cursor.new + unit_len (front_of unit) + 4 ≤ length cursor.old) }
{
    let first = cursor.u32()?;
    if first < FIRST_RESERVED {
        return Some(Unit::Body(cursor.bytes(u64::from(first))?));
    }
    if first != WIDE {
        return None;
    }
    let count = cursor.u64()?;
    cursor.bytes(count)?;
    Some(Unit::Passed)
}
