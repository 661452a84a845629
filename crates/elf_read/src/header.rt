//! The ELF header and the checks on it.

ghost use Rattle.std.specs.Prelude.{◌≡◌, ◌≤◌, length, IfOk};
ghost use Rattle.elf_read.specs.Checks.{first_fault, whole_fault};
ghost use Rattle.elf_read.specs.inner.Answers.{Says};
ghost use Rattle.elf_read.specs.Standard.{header_len};
ghost use Rattle.elf_read.specs.Header.{header_of, magic_fault, field_fault, program_size_fault};
ghost use Rattle.elf_read.specs.Header.{has_sections, section_size_fault, kind_fault};

use crate::error::{ElfError, Field};
use crate::number::{half, word};
use crate::standard::{
    ELFCLASS32, ELFDATA2LSB, ELFMAG, EM_RISCV, ET_EXEC, EV_CURRENT, PROGRAM_HEADER_LEN,
    SECTION_HEADER_LEN,
};

/// The fields of the ELF header that the rest of the file is read by.
#[derive(Clone, Copy, Debug, PartialEq, Eq)]
pub struct FileHeader {
    /// `e_entry`
    pub entry: u32,
    /// `e_phoff`
    pub program_offset: u32,
    /// `e_shoff`
    pub section_offset: u32,
    /// `e_phnum`
    pub program_count: u16,
    /// `e_shnum`
    pub section_count: u16,
    /// `e_shstrndx`
    pub names_index: u16,
}

/// Refuses a file that has fewer bytes than `need`.
pub fn check_whole(bytes: &[u8], need: u64) -> Result<(), ElfError>
    ensures { Says result (whole_fault bytes.now need) }
{
    if (bytes.len() as u64) < need {
        return Err(ElfError::Short(need));
    }
    Ok(())
}

/// Refuses a file that doesn't begin with the magic number.
#[tactic(auto, unfolding(crate::specs::Header::magic_fault))]
pub fn check_magic(bytes: &[u8]) -> Result<(), ElfError>
    ensures { Says result (magic_fault bytes.now) }
{
    if bytes.starts_with(&ELFMAG) {
        return Ok(());
    }
    Err(ElfError::NotElf)
}

fn check_field(field: Field, value: u32, want: u32) -> Result<(), ElfError>
    ensures { Says result (field_fault field value want) }
{
    if value == want {
        return Ok(());
    }
    Err(ElfError::NotThisKind(field, value))
}

fn check_program_size(bytes: &[u8]) -> Result<(), ElfError>
    requires { header_len ≤ length bytes.now }
    ensures { Says result (program_size_fault bytes.now) }
{
    if half(bytes, 44) == 0 {
        return Ok(());
    }
    check_field(
        Field::PhSize,
        u32::from(half(bytes, 42)),
        u32::from(PROGRAM_HEADER_LEN),
    )
}

fn check_section_size(bytes: &[u8]) -> Result<(), ElfError>
    requires { header_len ≤ length bytes.now }
    ensures { Says result (section_size_fault bytes.now) }
{
    let header = file_header(bytes);
    if header.has_sections() {
        return check_field(
            Field::ShSize,
            u32::from(half(bytes, 46)),
            u32::from(SECTION_HEADER_LEN),
        );
    }
    Ok(())
}

/// Refuses a file that is no static executable for 32-bit RISC-V.
#[tactic(auto, unfolding(crate::specs::Header::kind_fault))]
pub fn check_kind(bytes: &[u8]) -> Result<(), ElfError>
    requires { header_len ≤ length bytes.now }
    ensures { Says result (kind_fault bytes.now) }
{
    check_field(Field::Class, u32::from(bytes[4]), u32::from(ELFCLASS32))?;
    check_field(
        Field::ByteOrder,
        u32::from(bytes[5]),
        u32::from(ELFDATA2LSB),
    )?;
    check_field(
        Field::IdentVersion,
        u32::from(bytes[6]),
        u32::from(EV_CURRENT),
    )?;
    check_field(Field::Kind, u32::from(half(bytes, 16)), u32::from(ET_EXEC))?;
    check_field(
        Field::Machine,
        u32::from(half(bytes, 18)),
        u32::from(EM_RISCV),
    )?;
    check_field(Field::Version, word(bytes, 20), u32::from(EV_CURRENT))?;
    check_program_size(bytes)?;
    check_section_size(bytes)
}

/// Reads the fields of the header.
pub fn file_header(bytes: &[u8]) -> FileHeader
    requires { header_len ≤ length bytes.now }
    ensures { result ≡ header_of bytes.now }
{
    FileHeader {
        entry: word(bytes, 24),
        program_offset: word(bytes, 28),
        section_offset: word(bytes, 32),
        program_count: half(bytes, 44),
        section_count: half(bytes, 48),
        names_index: half(bytes, 50),
    }
}

impl FileHeader {
    /// Whether the file has section headers.
    pub fn has_sections(&self) -> bool
        ensures { result ≡ has_sections self.now }
    {
        self.section_count != 0 && self.section_offset != 0
    }
}
