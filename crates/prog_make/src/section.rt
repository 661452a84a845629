//! The section header table (gABI, Section Header).

ghost use Rattle.std.specs.Prelude.{◌≡◌, ◌+◌, ◌<◌, ◌^◌, ◌++◌, length, map, OnOk};
ghost use Rattle.elf_read.specs.declared.program.Segment.{Segment};
ghost use Rattle.prog_make.specs.Parts.{content_len};
ghost use Rattle.prog_make.specs.Programs.{placed_at, file_segments_from};
ghost use Rattle.prog_make.specs.inner.Sections.{section_bytes, section_headers, sections_bytes, segment_section};
ghost use Rattle.prog_make.specs.inner.Sections.{segment_section_flags, symbol_section, table_section, table_sections};

use crate::numbers::push_words;
use crate::segment_part::SegmentPart;
use byte_text::{OutOfMemory, Text};
use elf_read::standard::{
    PF_W, PF_X, SHF_ALLOC, SHF_EXECINSTR, SHF_WRITE, SHT_NULL, SHT_PROGBITS, SHT_STRTAB,
    SHT_SYMTAB, SYMBOL_LEN,
};

/// The sections of segments stand behind the null section, the lines, the symbols and the two tables of names.
pub const FIRST_SEGMENT_SECTION: u16 = 5;
/// The section of the names of sections.
pub const NAMES_SECTION: u16 = 4;
/// The section of the names of symbols.
const STRINGS_SECTION: u32 = 3;
/// The bytes of the names of sections.
pub const SECTION_STRINGS_LEN: u32 = 51;

/// Where the name of a section begins among these: of the lines, the symbols, their names, the sections' names, code
/// and data.
const LINES_NAME: u32 = 1;

const SYMBOLS_NAME: u32 = 13;

const STRINGS_NAME: u32 = 21;

const NAMES_NAME: u32 = 29;

const TEXT_NAME: u32 = 39;

const DATA_NAME: u32 = 45;

/// A section header.
#[derive(Clone, Copy)]
pub struct SectionHeader {
    /// `sh_name`
    pub name: u32,
    /// `sh_type`
    pub kind: u32,
    /// `sh_flags`
    pub flags: u32,
    /// `sh_addr`
    pub addr: u32,
    /// `sh_offset`
    pub offset: u32,
    /// `sh_size`
    pub size: u32,
    /// `sh_link`
    pub link: u32,
    /// `sh_info`
    pub info: u32,
    /// `sh_entsize`
    pub entry_size: u32,
}

/// The bytes of the tables of lines, of symbols and of the symbols' names.
#[derive(Clone, Copy)]
pub struct TableLengths {
    pub lines: u32,
    pub symbols: u32,
    pub strings: u32,
}

const NULL_SECTION: SectionHeader = SectionHeader {
    name: 0,
    kind: SHT_NULL,
    flags: 0,
    addr: 0,
    offset: 0,
    size: 0,
    link: 0,
    info: 0,
    entry_size: 0,
};

/// Appends a section header, which asks for no alignment.
#[tactic(auto, unfolding(crate::specs::inner::Sections::section_bytes))]
fn push_section(out: &mut Text, header: &SectionHeader) -> Result<(), OutOfMemory>
    ensures { OnOk result (out.new ≡ out.old ++ section_bytes header.now) }
{
    push_words(
        out,
        &[
            header.name,
            header.kind,
            header.flags,
            header.addr,
            header.offset,
            header.size,
            header.link,
            header.info,
            1,
            header.entry_size,
        ],
    )
}

/// The header of a table that isn't loaded.
fn table_section(name: u32, kind: u32, offset: u32, size: u32) -> SectionHeader
    ensures { result ≡ table_section name kind offset size }
{
    SectionHeader {
        name,
        kind,
        offset,
        size,
        ..NULL_SECTION
    }
}

/// The header of the symbol table.
fn symbol_section(offset: u32, size: u32) -> SectionHeader
    ensures { result ≡ symbol_section offset size }
{
    SectionHeader {
        link: STRINGS_SECTION,
        info: 1,
        entry_size: SYMBOL_LEN,
        ..table_section(SYMBOLS_NAME, SHT_SYMTAB, offset, size)
    }
}

/// The flags of a segment's section: loaded, executable and writable.
fn segment_section_flags(flags: u32) -> u32
    ensures { result ≡ segment_section_flags flags }
{
    let executable = if flags & PF_X != 0 { SHF_EXECINSTR } else { 0 };
    let writable = if flags & PF_W != 0 { SHF_WRITE } else { 0 };
    SHF_ALLOC + executable + writable
}

/// The header of the section of a segment whose bytes begin at this place of the file.
fn segment_section(segment: &SegmentPart, offset: u32) -> SectionHeader
    requires { length segment.now.bytes < 2 ^ 32 }
    ensures { result ≡ segment_section (placed_at offset segment.now) }
{
    let name = if segment.is_executable() {
        TEXT_NAME
    } else {
        DATA_NAME
    };
    SectionHeader {
        flags: segment_section_flags(segment.flags),
        addr: segment.addr,
        ..table_section(name, SHT_PROGBITS, offset, segment.bytes.len() as u32)
    }
}

/// Appends the headers of the tables, which stand one after the other from this place of the file on.
fn push_table_sections(
    out: &mut Text,
    offset: u32,
    lengths: &TableLengths,
) -> Result<(), OutOfMemory>
    requires { offset + lengths.now.lines + lengths.now.symbols + lengths.now.strings < 2 ^ 32 }
    ensures { OnOk result (out.new ≡ out.old ++ sections_bytes (table_sections offset lengths.now)) }
{
    let symbols = offset + lengths.lines;
    let strings = symbols + lengths.symbols;
    let names = strings + lengths.strings;
    push_section(out, &NULL_SECTION)?;
    push_section(
        out,
        &table_section(LINES_NAME, SHT_PROGBITS, offset, lengths.lines),
    )?;
    push_section(out, &symbol_section(symbols, lengths.symbols))?;
    push_section(
        out,
        &table_section(STRINGS_NAME, SHT_STRTAB, strings, lengths.strings),
    )?;
    push_section(
        out,
        &table_section(NAMES_NAME, SHT_STRTAB, names, SECTION_STRINGS_LEN),
    )
}

/// Appends the headers of the sections of segments whose bytes stand one after the other from this place
/// of the file on.
fn push_segment_sections(
    out: &mut Text,
    segments: &[SegmentPart],
    offset: u32,
) -> Result<(), OutOfMemory>
    requires { offset + content_len segments.now < 2 ^ 32 }
    ensures { OnOk result (out.new ≡ out.old ++ sections_bytes
        (map segment_section (file_segments_from offset segments.now))) }
{
    let mut offset = offset;
    'segments: for segment in segments {
        push_section(out, &segment_section(segment, offset))?;
        offset += segment.bytes.len() as u32;
    }
    Ok(())
}

/// Appends all section headers: those of the tables, which begin at `tables`, and those of segments, which begin at
/// `contents`.
pub fn push_sections(
    out: &mut Text,
    tables: u32,
    lengths: &TableLengths,
    segments: &[SegmentPart],
    contents: u32,
) -> Result<(), OutOfMemory>
    requires tables { tables + lengths.now.lines + lengths.now.symbols + lengths.now.strings < 2 ^ 32 }
    requires contents { contents + content_len segments.now < 2 ^ 32 }
    ensures { OnOk result (out.new
        ≡ out.old ++ sections_bytes (section_headers tables lengths.now (file_segments_from contents segments.now))) }
{
    push_table_sections(out, tables, lengths)?;
    push_segment_sections(out, segments, contents)
}
