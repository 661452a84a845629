//! The map of a program's functions and lines, for tests.
#![tactic(auto)]

use anyhow::{Context, Result, ensure};
use dwarf_line::{Rows, rows};
use elf_read::read;
use script_lines::file_bytes;
use std::alloc::Global;
use sym_map::{SymMap, build};

/// The longest section that is read, in bytes.
const LONGEST: usize = 1 << 24;

/// A program's file, and the map of its functions and lines.
#[derive(Drop)]
pub struct Program {
    pub file: Vec<u8>,
    pub map: SymMap,
}

impl Program {
    /// The program that a file holds.
    fn read(rt: &HostRuntime, name: &str) -> Result<Program> {
        let file = file_bytes(rt, name)?;
        let map = map_of(rt.alloc(), &file)?;
        Ok(Program { file, map })
    }
}

/// The program that a script took last.
#[derive(Drop)]
pub struct Chosen {
    program: Option<Program>,
}

impl Chosen {
    /// No program.
    pub fn none() -> Chosen {
        Chosen { program: None }
    }

    /// Takes the program that a file holds.
    pub fn take(&mut self, rt: &HostRuntime, name: &str) -> Result<()> {
        self.program = Some(Program::read(rt, name)?);
        Ok(())
    }

    pub fn program(&self) -> Result<&Program> {
        self.program.as_ref().context("no program")
    }
}

/// The map of the program of a file. The texts of its line table stand in `.debug_line_str`, or in the table.
pub fn map_of(alloc: Global, file: &[u8]) -> Result<SymMap> {
    let elf = read(alloc, file)?;
    let line_str = elf.content(b".debug_line_str");
    let rows = line_table(alloc, elf.content(b".debug_line"), line_str, b"")?;
    Ok(build(alloc, &elf, &rows)?)
}

/// The rows of a section whose texts stand in these.
pub fn line_table(alloc: Global, section: &[u8], line_str: &[u8], strings: &[u8]) -> Result<Rows> {
    ensure!(
        section.len() < LONGEST && line_str.len() < LONGEST && strings.len() < LONGEST,
        "a long section"
    );
    Ok(rows(alloc, section, line_str, strings)?)
}
