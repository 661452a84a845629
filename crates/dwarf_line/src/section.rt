//! A section `.debug_line`, unit by unit (DWARF 5, 6.2).

ghost use Rattle.std.specs.Prelude.{◌≡◌, ◌<◌, ◌^◌, length, IfOk};
ghost use Rattle.dwarf_line.specs.Unit.{accepted_units, line_sequences};
ghost use Rattle.dwarf_line.specs.Rows.{sequences_of};

use crate::building::Builder;
use crate::cursor::Cursor;
use crate::entry::Strings;
use crate::line_table::Rows;
use crate::unit;
use byte_text::OutOfMemory;
use std::alloc::Global;

/// Reads all units of a section.
fn read_units<'a>(
    alloc: Global,
    section: &'a [u8],
    strings: &Strings<'a>,
) -> Result<Rows, OutOfMemory>
    requires { length section.now < 2 ^ 32 }
    ensures sequences { IfOk result (λ rows. sequences_of rows ≡ line_sequences strings.now section.now) }
    ensures units { IfOk result (λ rows. rows.unit_count ≡ length (accepted_units strings.now section.now)) }
{
    let mut builder = Builder::new(alloc)?;
    let mut cursor = Cursor::new(section);
    'units: while let Some(unit) = unit::next(&mut cursor) {
        builder.add(alloc, unit, strings)?;
    }
    Ok(Rows::from_builder(builder))
}

/// Reads a section `.debug_line`, whose texts stand in it, in `.debug_line_str` and in `.debug_str`.
/// Damaged units give no rows, and the next one is read; the only refusal is want of memory.
pub fn rows(alloc: Global, section: &[u8], line_str: &[u8], str: &[u8]) -> Result<Rows, OutOfMemory>
    requires section_len { length section.now < 2 ^ 32 }
    requires line_str_len { length line_str.now < 2 ^ 32 }
    requires str_len { length str.now < 2 ^ 32 }
    ensures sequences { IfOk result (λ rows. sequences_of rows
        ≡ line_sequences (record { line_str = line_str.now; strings = str.now }) section.now) }
    ensures units { IfOk result (λ rows. rows.unit_count
        ≡ length (accepted_units (record { line_str = line_str.now; strings = str.now }) section.now)) }
{
    let strings = Strings::new(alloc, line_str, str)?;
    read_units(alloc, section, &strings)
}
