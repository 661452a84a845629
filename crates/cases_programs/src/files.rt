//! Scenes of files: each line is a file and what is asked of it, behind which the answer is told.

use crate::{elf, names};
use anyhow::Result;
use script_lines::{Scene, file_bytes};

/// What the files of a scene are asked.
#[derive(Clone, Copy)]
pub enum Files {
    Elf,
    Names,
}

impl Files {
    /// Tells what is asked of a file, and ends the line.
    fn answer(self, rt: &HostRuntime, bytes: &[u8], question: &str) -> Result<()> {
        match self {
            Files::Elf => elf::answer(rt, bytes, question),
            Files::Names => names::ask(rt, bytes, question),
        }?;
        Ok(println!(rt)?)
    }
}

impl Scene for Files {
    fn follow(&mut self, rt: &HostRuntime, line: &str) -> Result<()> {
        let (name, question) = line.split_once(' ').unwrap_or((line, ""));
        print!(rt; "{line}:")?;
        let bytes = file_bytes(rt, name)?;
        self.answer(rt, &bytes, question)
    }
}
