//! Programs that a script describes.

use crate::words::code_words;
use anyhow::{Context, Result, ensure};
use elf_read::standard::{PF_R, PF_W, PF_X};
use prog_make::{ElfParts, FunctionPart, SegmentPart, can_be_made, make_elf};
use script_lines::{first_word, number};
use std::alloc::Global;
use std::mem;

/// Where each program is entered.
const ENTRY: u32 = 0x10000;

/// The program that lines of a script describe.
#[derive(Drop)]
pub struct Description {
    alloc: Global,
    parts: ElfParts,
}

impl Description {
    /// Nothing of a program.
    pub fn new(alloc: Global) -> Description {
        Description {
            alloc,
            parts: ElfParts::new(alloc, ENTRY),
        }
    }

    /// Takes what a line says of a program. `code`, which may be executed, and `data`, which may be written, have an
    /// address and words, `room` an address and a number of bytes; else there are the name of a function, an address and
    /// a number of bytes. All numbers are in hexadecimal digits.
    pub fn take(&mut self, word: &str, rest: &str) -> Result<()> {
        match word {
            "code" => self.add_words(rest, PF_R | PF_X),
            "data" => self.add_words(rest, PF_R | PF_W),
            "room" => self.add_room(rest),
            _ => self.add_function(rest),
        }
    }

    /// The file of the program; nothing is said of the next one yet.
    pub fn finish(&mut self) -> Result<Vec<u8>> {
        let parts = mem::replace(&mut self.parts, ElfParts::new(self.alloc, ENTRY));
        ensure!(can_be_made(self.alloc, &parts)?, "parts of no program");
        Ok(make_elf(self.alloc, &parts)?)
    }

    fn add_words(&mut self, text: &str, flags: u32) -> Result<()> {
        let (addr, words) = first_word(text)?;
        let bytes = code_words(self.alloc, words)?;
        let len = u32::try_from(bytes.len()).context("a length")?;
        let segment = SegmentPart::new(self.alloc, number(addr)?, &bytes, len, flags)?;
        self.parts.segments.push(segment)?;
        Ok(())
    }

    fn add_room(&mut self, text: &str) -> Result<()> {
        let (addr, len) = first_word(text)?;
        let flags = PF_R | PF_W;
        let segment = SegmentPart::new(self.alloc, number(addr)?, &[], number(len)?, flags)?;
        self.parts.segments.push(segment)?;
        Ok(())
    }

    fn add_function(&mut self, text: &str) -> Result<()> {
        let (name, range) = first_word(text)?;
        let (addr, len) = first_word(range)?;
        let name = name.as_bytes();
        let function = FunctionPart::new(self.alloc, name, number(addr)?, number(len)?, 0)?;
        self.parts.functions.push(function)?;
        Ok(())
    }
}
