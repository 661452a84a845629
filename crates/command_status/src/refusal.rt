//! Why a file is refused, in words.

ghost use Rattle.std.specs.Prelude.{◌≡◌, ◌++◌, OnOk, codes, decimal};
ghost use Rattle.command_status.specs.Lines.{at_line, elf_text, field_name, format_text};

use crate::named::{push_after, push_between};
use byte_text::{OutOfMemory, Text};
use cg_read::FormatError;
use elf_read::{ElfError, Field};

/// Appends why a program's file is refused.
#[tactic(auto, unfolding(crate::specs::Lines::elf_text))]
pub fn push_elf_error(text: &mut Text, error: ElfError) -> Result<(), OutOfMemory>
    ensures { OnOk result (text.new ≡ text.old ++ elf_text error) }
{
    match error {
        ElfError::Short(len) => push_between(text, b"short, ", len, b" bytes needed"),
        ElfError::NotElf => text.push(b"not elf"),
        ElfError::NotThisKind(field, value) => push_field(text, field, value),
        ElfError::Interp => text.push(b"interpreter"),
        ElfError::BadSegment(index) => push_after(text, b"bad segment ", u64::from(index)),
        ElfError::Overlap(low, high) => push_overlap(text, low, high),
        ElfError::NoEntry => text.push(b"no entry"),
        ElfError::Compressed(index) => push_after(text, b"compressed section ", u64::from(index)),
        ElfError::OutOfMemory(_) => text.push(b"out of memory"),
    }
}

/// Appends the name of a field of the ELF header.
#[tactic(auto, unfolding(crate::specs::Lines::field_name))]
fn push_field_name(text: &mut Text, field: Field) -> Result<(), OutOfMemory>
    ensures { OnOk result (text.new ≡ text.old ++ field_name field) }
{
    match field {
        Field::Class => text.push(b"class"),
        Field::ByteOrder => text.push(b"byte order"),
        Field::IdentVersion => text.push(b"ident version"),
        Field::Kind => text.push(b"kind"),
        Field::Machine => text.push(b"machine"),
        Field::Version => text.push(b"version"),
        Field::PhSize => text.push(b"program header size"),
        Field::ShSize => text.push(b"section header size"),
    }
}

/// Appends a field of the ELF header with the value that it has.
fn push_field(text: &mut Text, field: Field, value: u32) -> Result<(), OutOfMemory>
    ensures { OnOk result (text.new ≡ text.old ++ field_name field ++ codes " is " ++ decimal value) }
{
    push_field_name(text, field)?;
    push_after(text, b" is ", u64::from(value))
}

/// Appends which segments overlap.
fn push_overlap(text: &mut Text, low: u32, high: u32) -> Result<(), OutOfMemory>
    ensures { OnOk result
        (text.new ≡ text.old ++ codes "segments " ++ decimal low ++ codes " and " ++ decimal high ++ codes " overlap") }
{
    push_after(text, b"segments ", u64::from(low))?;
    push_between(text, b" and ", u64::from(high), b" overlap")
}

/// Appends what is wrong with a profile, after its name.
#[tactic(auto, unfolding(crate::specs::Lines::format_text))]
pub fn push_format_error(text: &mut Text, error: FormatError) -> Result<(), OutOfMemory>
    ensures { OnOk result (text.new ≡ text.old ++ format_text error) }
{
    match error {
        FormatError::BadLine(line) => push_at_line(text, line, b"bad line"),
        FormatError::NoEvents => text.push(b": no events"),
        FormatError::Jumps(line) => push_at_line(text, line, b"jumps"),
        FormatError::UnknownId(line) => push_at_line(text, line, b"unknown id"),
        FormatError::BadNumber(line) => push_at_line(text, line, b"bad number"),
        FormatError::Instr(line) => push_at_line(text, line, b"instr positions"),
        FormatError::OutOfMemory(_) => text.push(b": out of memory"),
    }
}

/// Appends the number of a line and what is wrong with it.
#[tactic(auto, unfolding(crate::specs::Lines::at_line))]
fn push_at_line(text: &mut Text, line: u64, fault: &[u8]) -> Result<(), OutOfMemory>
    ensures { OnOk result (text.new ≡ text.old ++ at_line line fault.now) }
{
    push_between(text, b" line ", line, b": ")?;
    text.push(fault)
}
