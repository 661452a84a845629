//! What follows the bytes of segments: the tables of lines and symbols, names, and the section headers.

ghost use Rattle.std.specs.Prelude.{◌≡◌, ◌+◌, ◌<◌, ◌^◌, length, IfOk};
ghost use Rattle.prog_make.specs.inner.Conditions.{AreFit};
ghost use Rattle.prog_make.specs.inner.LineSection.{line_section};
ghost use Rattle.prog_make.specs.inner.Strings.{name_strings};
ghost use Rattle.prog_make.specs.inner.Symbols.{symbol_entries, symbols_bytes};
ghost use Rattle.prog_make.specs.inner.Tail.{headers_offset, tail_of};

use crate::line_section::line_section;
use crate::parts::ElfParts;
use crate::program::{content_len, content_offset};
use crate::section::{SECTION_STRINGS_LEN, TableLengths, push_sections};
use crate::strings::{push_names, push_section_strings};
use crate::symbol::push_symbols;
use byte_text::{OutOfMemory, Text};
use std::alloc::Global;

/// The contents of the sections of tables.
#[derive(Drop)]
struct Tables {
    lines: Text,
    symbols: Text,
    names: Text,
}

impl Tables {
    fn lengths(&self) -> TableLengths
        requires { length self.now.lines + length self.now.symbols + length self.now.names < 2 ^ 32 }
        ensures { result ≡ record {
          lines = length self.now.lines;
          symbols = length self.now.symbols;
          strings = length self.now.names;
        } }
    {
        TableLengths {
            lines: self.lines.len() as u32,
            symbols: self.symbols.len() as u32,
            strings: self.names.len() as u32,
        }
    }
}

fn make_tables(alloc: Global, parts: &ElfParts) -> Result<Tables, OutOfMemory>
    requires { AreFit parts.now }
    ensures lines { IfOk result (λ t. t.lines ≡ line_section parts.now.file parts.now.functions) }
    ensures symbols { IfOk result (λ t. t.symbols
        ≡ symbols_bytes (symbol_entries parts.now.segments parts.now.functions)) }
    ensures names { IfOk result (λ t. t.names ≡ name_strings parts.now.functions) }
{
    let lines = line_section(alloc, &parts.functions, &parts.file)?;
    let mut symbols = Text::new(alloc);
    push_symbols(&mut symbols, &parts.segments, &parts.functions)?;
    let mut names = Text::new(alloc);
    push_names(&mut names, &parts.functions)?;
    Ok(Tables {
        lines,
        symbols,
        names,
    })
}

/// Where the section headers begin behind tables that begin at this place of the file.
fn headers_offset(offset: u32, lengths: &TableLengths) -> u32
    requires { offset + lengths.now.lines + lengths.now.symbols + lengths.now.strings + 51 < 2 ^ 32 }
    ensures { result ≡ offset + lengths.now.lines + lengths.now.symbols + lengths.now.strings + 51 }
{
    offset + lengths.lines + lengths.symbols + lengths.strings + SECTION_STRINGS_LEN
}

/// What follows the bytes of segments, and where in the file the section headers begin.
#[derive(Drop)]
pub struct Tail {
    pub bytes: Text,
    pub section_offset: u32,
}

/// The tail of a file with functions.
pub fn make_tail(alloc: Global, parts: &ElfParts) -> Result<Tail, OutOfMemory>
    requires { AreFit parts.now }
    ensures bytes { IfOk result (λ t. t.bytes ≡ tail_of parts.now) }
    ensures section_offset { IfOk result (λ t. t.section_offset ≡ headers_offset parts.now) }
{
    let tables = make_tables(alloc, parts)?;
    let lengths = tables.lengths();
    let segments = parts.segments.as_slice();
    let contents = content_offset(segments);
    let offset = contents + content_len(segments);
    let section_offset = headers_offset(offset, &lengths);
    let mut bytes = tables.lines;
    bytes.push(tables.symbols.as_bytes())?;
    bytes.push(tables.names.as_bytes())?;
    push_section_strings(&mut bytes)?;
    push_sections(&mut bytes, offset, &lengths, segments, contents)?;
    Ok(Tail {
        bytes,
        section_offset,
    })
}
