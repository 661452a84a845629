//! What is read of line tables (DWARF 5, section 6.2). A section is said by its pieces, each of which stands until it is
//! said anew: a unit of its constants (from minimum_instruction_length on), its tables and its program, what stands
//! between that unit and the bytes behind it, and these; and the sections of texts `line_str` and `str`. `read` tells
//! what is read of the section, `change` of one with another byte at a place, `first` of its first bytes, from so many
//! to so many, and `lines` the lines of addresses.

use crate::words::{byte_of, text};
use anyhow::{Context, Result, bail};
use dwarf_line::Rows;
use elf_read::read;
use program_map::line_table;
use script_lines::{Scene, first_word, hex_bytes, number};
use std::alloc::{AllocError, Global};

/// How many pieces there are. The first three are the unit's, and the next two stand behind it; the last two are the
/// sections of texts.
const PIECES: usize = 7;

#[derive(Drop)]
pub struct Stage {
    /// The bytes of each piece.
    pieces: Vec<Vec<u8>>,
}

/// The place of a piece by its name.
fn place_of(name: &str) -> Option<usize> {
    match name {
        "constants" => Some(0),
        "tables" => Some(1),
        "program" => Some(2),
        "between" => Some(3),
        "behind" => Some(4),
        "line_str" => Some(5),
        "str" => Some(6),
        _ => None,
    }
}

/// Tells how many units are accepted, and their sequences.
fn tell_units(rt: &HostRuntime, rows: &Rows) -> Result<()> {
    print!(rt; "{}:", rows.unit_count())?;
    tell_sequences(rt, rows)?;
    println!(rt)?;
    Ok(())
}

/// Tells each sequence as its rows and its end.
fn tell_sequences(rt: &HostRuntime, rows: &Rows) -> Result<()> {
    for i in 0..rows.sequence_count() {
        let sequence = rows.sequence(i);
        for place in sequence.first..sequence.last {
            let row = rows.row(place);
            let file = text(rows.file(row.file));
            print!(rt; " {:x} {file}:{}", row.addr, row.line)?;
        }
        print!(rt; " end {:x};", sequence.end)?;
    }
    Ok(())
}

/// Tells how many sequences there are, and the file and line of addresses.
fn tell_lines(rt: &HostRuntime, rows: &Rows, addresses: &str) -> Result<()> {
    print!(rt; " {} sequences:", rows.sequence_count())?;
    for word in addresses.split_whitespace() {
        let address = number(word)?;
        let source = rows.line(address);
        print!(rt; " {address:x} {}:{};", text(source.file), source.line)?;
    }
    Ok(())
}

/// The same of a file, whose texts stand in the section.
pub fn tell_lines_of(rt: &HostRuntime, bytes: &[u8], addresses: &str) -> Result<()> {
    let elf = read(rt.alloc(), bytes)?;
    let rows = line_table(rt.alloc(), elf.content(b".debug_line"), b"", b"")?;
    tell_lines(rt, &rows, addresses)
}

/// Adds a length in four bytes.
fn push_len(section: &mut Vec<u8>, len: usize) -> Result<(), AllocError> {
    let len = u32::try_from(len).unwrap_or(u32::MAX);
    section.extend_from_slice(&len.to_le_bytes())
}

/// Puts another byte in a place.
fn change(bytes: &mut [u8], place: usize, byte: &str) -> Result<()> {
    match bytes.get_mut(place) {
        Some(changed) => *changed = byte_of(byte)?,
        None => bail!("no byte stands there"),
    }
    Ok(())
}

impl Stage {
    /// All pieces without bytes.
    pub fn new(alloc: Global) -> Result<Stage, AllocError> {
        let mut pieces = Vec::new(alloc);
        for _ in 0..PIECES {
            pieces.push(Vec::new(alloc))?;
        }
        Ok(Stage { pieces })
    }

    /// Puts bytes in the place of a piece.
    fn put(&mut self, name: &str, bytes: Vec<u8>) -> Result<()> {
        let place = place_of(name).context("no such piece")?;
        if let Some(piece) = self.pieces.get_mut(place) {
            *piece = bytes;
        }
        Ok(())
    }

    fn piece(&self, place: usize) -> &[u8] {
        match self.pieces.get(place) {
            Some(piece) => piece.as_slice(),
            None => b"",
        }
    }

    /// Adds a unit of version 5 with addresses of four bytes, and what follows it.
    fn push_unit(&self, section: &mut Vec<u8>) -> Result<(), AllocError> {
        let header_len = self.piece(0).len().wrapping_add(self.piece(1).len());
        let unit_len = header_len.wrapping_add(self.piece(2).len()).wrapping_add(8);
        push_len(section, unit_len)?;
        section.extend_from_slice(&[5, 0, 4, 0])?;
        push_len(section, header_len)?;
        for place in 0..5 {
            section.extend_from_slice(self.piece(place))?;
        }
        Ok(())
    }

    fn section(&self, alloc: Global) -> Result<Vec<u8>, AllocError> {
        let mut section = Vec::new(alloc);
        self.push_unit(&mut section)?;
        Ok(section)
    }

    fn table(&self, alloc: Global, section: &[u8]) -> Result<Rows> {
        line_table(alloc, section, self.piece(5), self.piece(6))
    }

    /// Tells what is read of a section.
    fn tell(&self, rt: &HostRuntime, section: &[u8]) -> Result<()> {
        let rows = self.table(rt.alloc(), section)?;
        tell_units(rt, &rows)
    }

    /// Tells what is read of a section in which a byte is changed.
    fn tell_changed(&self, rt: &HostRuntime, section: &mut [u8], words: &str) -> Result<()> {
        let (place, byte) = first_word(words)?;
        change(section, number(place)? as usize, byte)?;
        self.tell(rt, section)
    }

    /// Tells what is read of the first bytes of a section, of each length from one to another.
    fn tell_first(&self, rt: &HostRuntime, section: &[u8], words: &str) -> Result<()> {
        let (least, most) = first_word(words)?;
        for len in number(least)?..=number(most)? {
            print!(rt; "{len:x} ")?;
            self.tell(rt, section.get(..len as usize).unwrap_or(b""))?;
        }
        Ok(())
    }

    /// Tells the lines of addresses in a section.
    fn tell_lines(&self, rt: &HostRuntime, section: &[u8], addresses: &str) -> Result<()> {
        print!(rt; "lines {addresses}:")?;
        let rows = self.table(rt.alloc(), section)?;
        tell_lines(rt, &rows, addresses)?;
        println!(rt)?;
        Ok(())
    }

    /// Tells what is asked of the section.
    fn ask(&self, rt: &HostRuntime, question: &str, words: &str) -> Result<()> {
        let mut section = self.section(rt.alloc())?;
        match question {
            "change" => self.tell_changed(rt, &mut section, words),
            "first" => self.tell_first(rt, &section, words),
            "lines" => self.tell_lines(rt, &section, words),
            _ => self.tell(rt, &section),
        }
    }
}

impl Scene for Stage {
    fn follow(&mut self, rt: &HostRuntime, line: &str) -> Result<()> {
        let (word, rest) = line.split_once(' ').unwrap_or((line, ""));
        match word {
            "read" | "change" | "first" | "lines" => self.ask(rt, word, rest),
            _ => self.put(word, hex_bytes(rt.alloc(), rest)?),
        }
    }
}
