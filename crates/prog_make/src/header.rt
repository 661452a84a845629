//! The ELF header (gABI, ELF Header).

ghost use Rattle.std.specs.Prelude.{◌≡◌, ◌++◌, OnOk};
ghost use Rattle.prog_make.specs.inner.FileHeader.{header_bytes};

use crate::numbers::{push_halves, push_words};
use byte_text::{OutOfMemory, Text};
use elf_read::standard::{
    ELFCLASS32, ELFDATA2LSB, EM_RISCV, ET_EXEC, EV_CURRENT, HEADER_LEN, PROGRAM_HEADER_LEN,
    SECTION_HEADER_LEN,
};

/// `e_ident`: the magic number, the class, the order of bytes and the version.
const IDENTIFICATION: [u8; 16] = [
    0x7f,
    b'E',
    b'L',
    b'F',
    ELFCLASS32,
    ELFDATA2LSB,
    EV_CURRENT,
    0,
    0,
    0,
    0,
    0,
    0,
    0,
    0,
    0,
];

/// What differs from file to file in the header.
#[derive(Clone, Copy)]
pub struct Header {
    /// `e_entry`
    pub entry: u32,
    /// `e_phnum`
    pub program_count: u16,
    /// `e_shoff`
    pub section_offset: u32,
    /// `e_shnum`
    pub section_count: u16,
    /// `e_shstrndx`
    pub names_index: u16,
}

/// Appends the header of an executable whose program headers follow it.
#[tactic(auto, unfolding(crate::specs::inner::FileHeader::header_bytes))]
pub fn push_header(out: &mut Text, header: &Header) -> Result<(), OutOfMemory>
    ensures { OnOk result (out.new ≡ out.old ++ header_bytes header.now) }
{
    out.push(&IDENTIFICATION)?;
    push_halves(out, &[ET_EXEC, EM_RISCV])?;
    push_words(
        out,
        &[
            EV_CURRENT as u32,
            header.entry,
            HEADER_LEN as u32,
            header.section_offset,
            0,
        ],
    )?;
    push_halves(
        out,
        &[
            HEADER_LEN,
            PROGRAM_HEADER_LEN,
            header.program_count,
            SECTION_HEADER_LEN,
            header.section_count,
            header.names_index,
        ],
    )
}
