//! The symbol table.

ghost use Rattle.std.specs.Prelude.{◌≡◌, ◌+◌, ◌*◌, ◌≤◌, ◌<◌, ◌^◌, length};
ghost use Rattle.elf_read.specs.Header.{header_of};
ghost use Rattle.elf_read.specs.Standard.{symbol_len};
ghost use Rattle.elf_read.specs.Sections.{section_count, sections_end};
ghost use Rattle.elf_read.specs.Symbols.{is_symbol_table, symbol_section, symbol_table_of};
ghost use Rattle.elf_read.specs.Symbols.{symbol_table_in, symbol_at, symbol_in};
ghost use Rattle.elf_read.specs.Strings.{IsPart};

use crate::header::FileHeader;
use crate::number::{half, word};
use crate::section::{SectionHeader, section_count, section_header, strings};
use crate::standard::{SHT_SYMTAB, SYMBOL_LEN};
use crate::text::{Range, Strings};

/// A symbol.
#[derive(Clone, Copy, Debug, PartialEq, Eq)]
pub struct Symbol {
    /// Where its name stands in the file.
    pub name: Range,
    /// `st_value`: the address of a function.
    pub value: u32,
    /// `st_size`: how many bytes it has, or 0.
    pub size: u32,
    /// The low four bits of `st_info`, as `STT_FUNC`.
    pub kind: u8,
    /// The high four bits of `st_info`, as `STB_GLOBAL`.
    pub binding: u8,
    /// `st_shndx`: the index of its section.
    pub section: u16,
}

/// Where the symbols stand in the file, and the strings that their names are among.
#[derive(Clone, Copy, Debug, PartialEq, Eq)]
pub struct SymbolTable {
    pub place: usize,
    pub count: usize,
    pub names: Range,
}

/// The header of the first section that is a symbol table.
#[tactic(auto, unfolding(crate::specs::Symbols::symbol_section))]
fn symbol_section(bytes: &[u8], header: &FileHeader) -> Option<SectionHeader>
    requires header { header.now ≡ header_of bytes.now }
    requires whole { 0 < section_count bytes.now → sections_end bytes.now ≤ length bytes.now }
    ensures { result ≡ symbol_section bytes.now }
{
    'sections: for k in 0..section_count(bytes, header) {
        let section = section_header(bytes, header, k);
        if section.kind == SHT_SYMTAB {
            return Some(section);
        }
    }
    None
}

/// Finds the symbol table.
pub fn symbol_table(bytes: &[u8], header: &FileHeader) -> SymbolTable
    requires header { header.now ≡ header_of bytes.now }
    requires whole { 0 < section_count bytes.now → sections_end bytes.now ≤ length bytes.now }
    ensures table { result ≡ symbol_table_of bytes.now }
    ensures in_file { result.names.end ≤ length bytes.now }
    ensures short { result.names.end < result.names.start + 2 ^ 32 }
    ensures few { result.count < 2 ^ 28 }
{
    match symbol_section(bytes, header) {
        None => SymbolTable {
            place: 0,
            count: 0,
            names: Range::NOTHING,
        },
        Some(section) => SymbolTable {
            place: section.offset as usize,
            count: (section.size / SYMBOL_LEN) as usize,
            names: strings(bytes, header, section.link),
        },
    }
}

fn symbol_at(bytes: &[u8], names: &Strings<'_>, place: usize) -> Symbol
    requires names { names.now.bytes ≡ bytes.now }
    requires whole { place + symbol_len ≤ length bytes.now }
    ensures symbol { result ≡ symbol_at bytes.now names.now.range place }
    ensures name { IsPart bytes.now result.name }
{
    let info = bytes[place + 12];
    Symbol {
        name: names.string(word(bytes, place)),
        value: word(bytes, place + 4),
        size: word(bytes, place + 8),
        kind: info % 16,
        binding: info / 16,
        section: half(bytes, place + 14),
    }
}

impl SymbolTable {
    /// Reads the symbol of an index.
    #[tactic(auto, unfolding(crate::specs::Symbols::symbol_in))]
    pub fn symbol(&self, bytes: &[u8], names: &Strings<'_>, index: usize) -> Symbol
        requires names { names.now ≡ record { bytes = bytes.now; range = self.now.names } }
        requires whole { self.now.place + symbol_len * self.now.count ≤ length bytes.now }
        requires index { index < self.now.count }
        ensures symbol { result ≡ symbol_in bytes.now self.now index }
        ensures name { IsPart bytes.now result.name }
    {
        symbol_at(bytes, names, self.place + SYMBOL_LEN as usize * index)
    }
}
