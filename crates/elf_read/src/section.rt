//! The section headers, and the sections that they describe.

ghost use Rattle.std.specs.Prelude.{◌≡◌, ◌+◌, ◌^◌, ◌≤◌, ◌<◌, IfSome, length};
ghost use Rattle.std.specs.List.{find};
ghost use Rattle.elf_read.specs.Checks.{whole_fault, first_fault};
ghost use Rattle.elf_read.specs.inner.Answers.{Says};
ghost use Rattle.elf_read.specs.inner.Fronts.{front_of};
ghost use Rattle.elf_read.specs.Standard.{section_header_len};
ghost use Rattle.elf_read.specs.Header.{header_of};
ghost use Rattle.elf_read.specs.Sections.{section_count, sections_end, section_header_at, section_header};
ghost use Rattle.elf_read.specs.Sections.{has_bytes, content_of, strings_of, section_of, sections_of};
ghost use Rattle.elf_read.specs.Sections.{is_named, sections_whole_fault, content_fault, is_compressed};
ghost use Rattle.elf_read.specs.Sections.{compressed_fault, header_fault, section_fault, section_at};
ghost use Rattle.elf_read.specs.Sections.{sections_fault, names_of, section_name};
ghost use Rattle.elf_read.specs.Strings.{IsPart, part_of};

use crate::error::ElfError;
use crate::header::{FileHeader, check_whole};
use crate::number::word;
use crate::standard::{SECTION_HEADER_LEN, SHF_COMPRESSED, SHT_NOBITS, SHT_NULL};
use crate::text::{Range, Strings, string_front};

/// How the names of compressed sections once began.
const OLD_COMPRESSED: &[u8; 8] = b".zdebug_";

/// A section.
#[derive(Clone, Copy, Debug, PartialEq, Eq)]
pub struct Section {
    /// Where its name stands in the file.
    pub name: Range,
    /// `sh_type`
    pub kind: u32,
    /// `sh_flags`
    pub flags: u32,
    /// `sh_addr`: the address of its first byte, or 0.
    pub addr: u32,
    /// `sh_offset`: where its bytes begin in the file, unless its type is `SHT_NULL` or `SHT_NOBITS`.
    pub offset: u32,
    /// `sh_size`: how many bytes it has.
    pub size: u32,
}

/// The fields of a section header.
#[derive(Clone, Copy, Debug, PartialEq, Eq)]
pub struct SectionHeader {
    /// `sh_name`
    pub name: u32,
    /// `sh_type`
    pub kind: u32,
    /// `sh_flags`
    pub flags: u32,
    /// `sh_addr`
    pub addr: u32,
    /// `sh_offset`
    pub offset: u32,
    /// `sh_size`
    pub size: u32,
    /// `sh_link`
    pub link: u32,
}

fn section_header_at(bytes: &[u8], place: usize) -> SectionHeader
    requires { place + section_header_len ≤ length bytes.now }
    ensures { result ≡ section_header_at bytes.now place }
{
    SectionHeader {
        name: word(bytes, place),
        kind: word(bytes, place + 4),
        flags: word(bytes, place + 8),
        addr: word(bytes, place + 12),
        offset: word(bytes, place + 16),
        size: word(bytes, place + 20),
        link: word(bytes, place + 24),
    }
}

/// Whether a section of this type has bytes in the file.
fn has_bytes(kind: u32) -> bool
    ensures { result ≡ has_bytes kind }
{
    kind != SHT_NULL && kind != SHT_NOBITS
}

/// How many sections the file has.
pub fn section_count(bytes: &[u8], header: &FileHeader) -> usize
    requires { header.now ≡ header_of bytes.now }
    ensures count { result ≡ section_count bytes.now }
    ensures few { result < 2 ^ 16 }
{
    if header.has_sections() {
        header.section_count as usize
    } else {
        0
    }
}

/// Reads the section header of an index.
#[tactic(auto, unfolding(crate::specs::Sections::section_header))]
pub fn section_header(bytes: &[u8], header: &FileHeader, index: usize) -> SectionHeader
    requires header { header.now ≡ header_of bytes.now }
    requires whole { 0 < section_count bytes.now → sections_end bytes.now ≤ length bytes.now }
    requires index { index < section_count bytes.now }
    ensures { result ≡ section_header bytes.now index }
{
    let place = header.section_offset as usize + usize::from(SECTION_HEADER_LEN) * index;
    section_header_at(bytes, place)
}

impl SectionHeader {
    /// Whether the section has bytes in the file.
    fn has_bytes(&self) -> bool
        ensures { result ≡ has_bytes self.now.kind }
    {
        has_bytes(self.kind)
    }

    /// The bytes of the section that are in the file.
    fn content(&self, bytes: &[u8]) -> Range
        ensures content { result ≡ content_of bytes.now self.now }
        ensures in_file { result.end ≤ length bytes.now }
        ensures short { result.end < result.start + 2 ^ 32 }
    {
        if !self.has_bytes() {
            return Range::NOTHING;
        }
        let start = self.offset as usize;
        let end = start + self.size as usize;
        Range {
            start,
            end: end.min(bytes.len()),
        }
    }
}

impl Section {
    /// Whether it has bytes in the file: its type is neither `SHT_NULL` nor `SHT_NOBITS`.
    pub fn has_bytes(&self) -> bool
        ensures { result ≡ has_bytes self.now.kind }
    {
        has_bytes(self.kind)
    }
}

/// The strings of the section of an index, of which there are none where there is no such section.
#[tactic(auto, unfolding(crate::specs::Sections::strings_of))]
pub fn strings(bytes: &[u8], header: &FileHeader, index: u32) -> Range
    requires header { header.now ≡ header_of bytes.now }
    requires whole { 0 < section_count bytes.now → sections_end bytes.now ≤ length bytes.now }
    ensures strings { result ≡ strings_of bytes.now index }
    ensures in_file { result.end ≤ length bytes.now }
    ensures short { result.end < result.start + 2 ^ 32 }
{
    let index = index as usize;
    if index >= section_count(bytes, header) {
        return Range::NOTHING;
    }
    section_header(bytes, header, index).content(bytes)
}

/// Refuses a file that ends before its section headers do.
pub fn check_sections_whole(bytes: &[u8], header: &FileHeader) -> Result<(), ElfError>
    requires { header.now ≡ header_of bytes.now }
    ensures { Says result (sections_whole_fault bytes.now) }
{
    if !header.has_sections() {
        return Ok(());
    }
    let len = u32::from(SECTION_HEADER_LEN) * u32::from(header.section_count);
    check_whole(bytes, u64::from(header.section_offset) + u64::from(len))
}

impl SectionHeader {
    /// At most the first `most` bytes of the section's name.
    fn name_front(&self, bytes: &[u8], names: Range, most: usize) -> Range
        requires names { names ≡ names_of bytes.now }
        requires in_file { names.end ≤ length bytes.now }
        ensures front { result ≡ front_of most (section_name bytes.now self.now) }
        ensures part { IsPart bytes.now result }
    {
        if !self.has_bytes() {
            return Range::NOTHING;
        }
        string_front(bytes, names, self.name, most)
    }

    /// Reads the section.
    fn section(&self, names: &Strings<'_>) -> Section
        requires names { names.now.range ≡ names_of names.now.bytes }
        ensures section { result ≡ section_of names.now.bytes self.now }
        ensures name { IsPart names.now.bytes result.name }
    {
        let name = if self.has_bytes() {
            names.string(self.name)
        } else {
            Range::NOTHING
        };
        Section {
            name,
            kind: self.kind,
            flags: self.flags,
            addr: self.addr,
            offset: self.offset,
            size: self.size,
        }
    }

    /// Whether the section's content is compressed.
    #[tactic(auto, unfolding(crate::specs::Sections::old_compressed))]
    fn is_compressed(&self, bytes: &[u8], names: Range) -> bool
        requires names { names ≡ names_of bytes.now }
        requires in_file { names.end ≤ length bytes.now }
        ensures { result ≡ is_compressed bytes.now self.now }
    {
        if self.flags & SHF_COMPRESSED != 0 {
            return true;
        }
        let front = self.name_front(bytes, names, OLD_COMPRESSED.len());
        OLD_COMPRESSED.as_slice() == &bytes[front.start..front.end]
    }

    /// Whether the section has this name. It looks at no byte beyond it.
    fn is_named(&self, bytes: &[u8], names: Range, name: &[u8]) -> bool
        requires names { names ≡ names_of bytes.now }
        requires in_file { names.end ≤ length bytes.now }
        ensures { result ≡ is_named bytes.now name.now (section_of bytes.now self.now) }
    {
        let front = self.name_front(bytes, names, name.len() + 1);
        &bytes[front.start..front.end] == name
    }

    /// Refuses a section whose bytes the file doesn't have, or which is compressed.
    fn check(&self, bytes: &[u8], names: Range, index: u32) -> Result<(), ElfError>
        requires names { names ≡ names_of bytes.now }
        requires in_file { names.end ≤ length bytes.now }
        ensures { Says result (header_fault bytes.now index self.now) }
    {
        if self.has_bytes() {
            check_whole(bytes, u64::from(self.offset) + u64::from(self.size))?;
        }
        if self.is_compressed(bytes, names) {
            return Err(ElfError::Compressed(index));
        }
        Ok(())
    }
}

/// The strings that the names of sections are among.
pub fn section_names(bytes: &[u8], header: &FileHeader) -> Range
    requires header { header.now ≡ header_of bytes.now }
    requires whole { 0 < section_count bytes.now → sections_end bytes.now ≤ length bytes.now }
    ensures names { result ≡ names_of bytes.now }
    ensures in_file { result.end ≤ length bytes.now }
    ensures short { result.end < result.start + 2 ^ 32 }
{
    strings(bytes, header, u32::from(header.names_index))
}

/// Refuses the first section whose bytes the file doesn't have, or which is compressed.
pub fn check_sections(bytes: &[u8], header: &FileHeader, names: Range) -> Result<(), ElfError>
    requires header { header.now ≡ header_of bytes.now }
    requires whole { 0 < section_count bytes.now → sections_end bytes.now ≤ length bytes.now }
    requires names { names ≡ names_of bytes.now }
    requires in_file { names.end ≤ length bytes.now }
    ensures { Says result (sections_fault bytes.now) }
{
    'sections: for k in 0..section_count(bytes, header) {
        section_header(bytes, header, k).check(bytes, names, k as u32)?;
    }
    Ok(())
}

/// Reads the section of an index.
#[tactic(auto, unfolding(crate::specs::Sections::section_at))]
pub fn read_section(bytes: &[u8], header: &FileHeader, names: &Strings<'_>, index: usize) -> Section
    requires header { header.now ≡ header_of bytes.now }
    requires whole { 0 < section_count bytes.now → sections_end bytes.now ≤ length bytes.now }
    requires names { names.now ≡ record { bytes = bytes.now; range = names_of bytes.now } }
    requires index { index < section_count bytes.now }
    ensures section { result ≡ section_at bytes.now index }
    ensures name { IsPart bytes.now result.name }
{
    section_header(bytes, header, index).section(names)
}

/// The first section of a name.
#[tactic(auto, unfolding(crate::specs::Sections::section_at))]
pub fn find_section(
    bytes: &[u8],
    header: &FileHeader,
    names: &Strings<'_>,
    name: &[u8],
) -> Option<Section>
    requires header { header.now ≡ header_of bytes.now }
    requires whole { 0 < section_count bytes.now → sections_end bytes.now ≤ length bytes.now }
    requires names { names.now ≡ record { bytes = bytes.now; range = names_of bytes.now } }
    requires in_file { names.now.range.end ≤ length bytes.now }
    ensures first { result ≡ find (is_named bytes.now name.now) (sections_of bytes.now) }
    ensures part { IfSome result (λ s. IsPart bytes.now s.name) }
{
    'sections: for k in 0..section_count(bytes, header) {
        let section = section_header(bytes, header, k);
        if section.is_named(bytes, names.range(), name) {
            return Some(section.section(names));
        }
    }
    None
}
