//! A file that was read, and what it says.

ghost use Rattle.std.specs.Prelude.{◌≡◌, ◌+◌, ◌%◌, ◌<◌, ◌≤◌, ◌^◌, ◌≢◌, Some, None, IfOk, IfSome};
ghost use Rattle.std.specs.Prelude.{IfNone, IsTrue, length, slice_get, slice_range};
ghost use Rattle.std.specs.List.{All, find, list_any};
ghost use Rattle.elf_read.specs.Checks.{Answers};
ghost use Rattle.elf_read.specs.Header.{header_of};
ghost use Rattle.elf_read.specs.Image.{image_of, content_of};
ghost use Rattle.elf_read.specs.Overlaps.{IsApart};
ghost use Rattle.elf_read.specs.Programs.{segments_of, is_code, IsPlaced};
ghost use Rattle.elf_read.specs.Refusal.{refusal};
ghost use Rattle.elf_read.specs.Sections.{section_count, sections_end, names_of, is_named, sections_of, IsHeld};
ghost use Rattle.elf_read.specs.Strings.{IsPart, part_of};
ghost use Rattle.elf_read.specs.Symbols.{symbol_table_of};

use crate::error::ElfError;
use crate::header::{FileHeader, check_kind, check_magic, check_whole, file_header};
use crate::overlap::check_apart;
use crate::program::{Segment, check_entry, check_programs_whole, headers_addr, segments};
use crate::section::{
    Section, check_sections, check_sections_whole, find_section, read_section, section_count,
    section_names,
};
use crate::standard::HEADER_LEN;
use crate::symbol::{Symbol, SymbolTable, symbol_table};
use crate::text::{Range, Strings};
use std::alloc::Global;
use std::marker::Model;

/// An accepted file. It borrows the file's bytes and keeps, besides, only a list of its segments and the places at
/// which the names of sections and of symbols end.
#[derive(Drop)]
pub struct Elf<'a> {
    bytes: &'a [u8],
    header: FileHeader,
    segments: Vec<Segment>,
    names: Strings<'a>,
    symbols: SymbolTable,
    symbol_names: Strings<'a>,
}

impl<'a> Model for Elf<'a> {
    ghost use Rattle.elf_read.specs.Image.{Image, image_of};

    ghost Value = { Image };

    ghost use Rattle.elf_read.specs.inner.Elf.{IsElf};

    ghost view = { λ e. image_of e.bytes.now };

    ghost invariant = { λ e. IsElf e.bytes.now e.header e.segments.items e.names e.symbols e.symbol_names };
}

/// Reads a file: the image of its bytes, or the first check that they fail.
///
/// # Errors
///
/// The checks come in this order: the ELF header is whole (`Short`), it is that of a static
/// executable for 32-bit RISC-V (`NotElf`, `NotThisKind`), the program headers are whole (`Short`);
/// each program header in order (`Interp`, `BadSegment`, `Short`); segments don't overlap
/// (`Overlap`); the section headers are whole (`Short`); each section in order (`Short`,
/// `Compressed`); the entry is in code (`NoEntry`).
#[tactic(auto, unfolding(crate::specs::Refusal::refusal))]
pub fn read(alloc: Global, bytes: &[u8]) -> Result<Elf<'_>, ElfError>
    ensures refusal { Answers result (refusal bytes.now) }
    ensures image { IfOk result (λ elf. elf ≡ image_of bytes.now) }
    // No address lies in two segments.
    ensures apart { IfOk result (λ elf. IsApart elf.segments) }
    ensures entry_in_code { IfOk result (λ elf. IsTrue (list_any (is_code elf.entry) elf.segments)) }
{
    check_whole(bytes, u64::from(HEADER_LEN))?;
    check_magic(bytes)?;
    check_kind(bytes)?;
    let header = file_header(bytes);
    check_programs_whole(bytes, &header)?;
    let segments = segments(alloc, bytes, &header)?;
    check_apart(alloc, &segments)?;
    check_sections_whole(bytes, &header)?;
    let names = section_names(bytes, &header);
    check_sections(bytes, &header, names)?;
    check_entry(header.entry, &segments)?;
    let names = Strings::new(alloc, bytes, names)?;
    let symbols = symbol_table(bytes, &header);
    let symbol_names = Strings::new(alloc, bytes, symbols.names)?;
    Ok(Elf {
        bytes,
        header,
        segments,
        names,
        symbols,
        symbol_names,
    })
}

impl<'a> Elf<'a> {
    /// The address of the first instruction, `e_entry`.
    pub fn entry(&self) -> u32
        ensures entry { result ≡ self.now.entry }
        ensures aligned { result % 4 ≡ 0 }
    {
        self.header.entry
    }

    /// The bytes of the whole file, which are those of an accepted file.
    pub fn file(&self) -> &'a [u8]
        ensures bytes { result.now ≡ self.now.bytes }
        ensures image { self.now ≡ image_of result.now }
        ensures accepted { refusal result.now ≡ None }
        ensures placed { All (IsPlaced result.now) self.now.segments }
        // No address lies in two segments.
        ensures apart { IsApart self.now.segments }
        ensures entry_in_code { IsTrue (list_any (is_code self.now.entry) self.now.segments) }
    {
        self.bytes
    }

    /// The bytes of a part of the file.
    pub fn bytes(&self, range: Range) -> &'a [u8]
        requires rises { range.start ≤ range.end }
        requires in_file { range.end ≤ length self.now.bytes }
        ensures { result.now ≡ slice_range self.now.bytes range.start range.end }
    {
        &self.bytes[range.start..range.end]
    }

    /// How many segments there are.
    pub fn segment_count(&self) -> usize
        ensures { result ≡ length self.now.segments }
    {
        self.segments.len()
    }

    /// The segment of an index, in the order of their program headers.
    pub fn segment(&self, i: usize) -> Segment
        requires { i < length self.now.segments }
        ensures segment { slice_get self.now.segments i ≡ Some result }
        ensures placed { IsPlaced self.now.bytes result }
    {
        self.segments[i]
    }

    /// How many symbols there are.
    pub fn symbol_count(&self) -> usize
        ensures count { result ≡ length self.now.symbols }
        ensures few { result < 2 ^ 28 }
    {
        self.symbols.count
    }

    /// The symbol of an index, in the order of the symbol table.
    pub fn symbol(&self, i: usize) -> Symbol
        requires { i < length self.now.symbols }
        ensures symbol { slice_get self.now.symbols i ≡ Some result }
        ensures name_in_file { IsPart self.now.bytes result.name }
    {
        self.symbols.symbol(self.bytes, &self.symbol_names, i)
    }

    /// How many sections there are.
    pub fn section_count(&self) -> usize
        ensures { result ≡ length self.now.sections }
    {
        section_count(self.bytes, &self.header)
    }

    /// The section of an index, in the order of their section headers.
    pub fn section_at(&self, i: usize) -> Section
        requires { i < length self.now.sections }
        ensures section { slice_get self.now.sections i ≡ Some result }
        ensures name_in_file { IsPart self.now.bytes result.name }
        ensures in_file { IsHeld self.now.bytes result }
    {
        read_section(self.bytes, &self.header, &self.names, i)
    }

    /// The first section of a name, and nothing exactly where no section has it.
    pub fn section(&self, name: &[u8]) -> Option<Section>
        ensures first { result ≡ find (is_named self.now.bytes name.now) self.now.sections }
        ensures none { IfNone result (All (λ s. part_of self.now.bytes s.name ≢ name.now) self.now.sections) }
        ensures name { IfSome result (λ s. part_of self.now.bytes s.name ≡ name.now) }
        ensures name_in_file { IfSome result (λ s. IsPart self.now.bytes s.name) }
        ensures in_file { IfSome result (IsHeld self.now.bytes) }
    {
        find_section(self.bytes, &self.header, &self.names, name)
    }

    /// The bytes of the first section of a name. There are none where no section has it, or where its bytes aren't in
    /// the file.
    pub fn content(&self, name: &[u8]) -> &'a [u8]
        ensures content { result.now ≡ content_of self.now name.now }
        ensures short { length result.now < 2 ^ 32 }
    {
        match self.section(name) {
            Some(section) if section.has_bytes() => {
                let start = section.offset as usize;
                self.bytes(Range {
                    start,
                    end: start + section.size as usize,
                })
            }
            _ => &[],
        }
    }

    /// The address of the program headers in memory, in the first segment whose bytes in the file
    /// hold them all; nothing exactly where no segment does.
    pub fn headers_addr(&self) -> Option<u32>
        ensures { result ≡ self.now.headers_addr }
    {
        headers_addr(self.bytes, &self.header, &self.segments)
    }

    /// How many program headers there are, `e_phnum`.
    pub fn header_count(&self) -> u32
        ensures { result ≡ self.now.header_count }
    {
        u32::from(self.header.program_count)
    }
}
