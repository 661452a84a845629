//! What fails in the next command.

use crate::texts::call;
use anyhow::{Result, bail};
use cases_kit::Hoard;
use script_lines::first_word;
use std::alloc::Global;
use std::mem;

/// The calls that fail, of the folder, of the output and of the errors, and whether there is no memory.
#[derive(Drop)]
pub struct Fails {
    alloc: Global,
    pub folder: Vec<u64>,
    pub out: Vec<u64>,
    pub err: Vec<u64>,
    pub starves: bool,
}

impl Fails {
    pub fn new(alloc: Global) -> Fails {
        Fails {
            alloc,
            folder: Vec::new(alloc),
            out: Vec::new(alloc),
            err: Vec::new(alloc),
            starves: false,
        }
    }

    /// Lets a call fail: of what, and the number of the call, counted from 1 behind the puts of so many files.
    pub fn add(&mut self, rest: &str, files: usize) -> Result<()> {
        let (what, number) = first_word(rest)?;
        let call = call(number, if what == "folder" { files } else { 0 })?;
        match what {
            "folder" => self.folder.push(call)?,
            "out" => self.out.push(call)?,
            "err" => self.err.push(call)?,
            _ => bail!("no such calls"),
        }
        Ok(())
    }

    /// Whether nothing fails.
    pub fn is_nothing(&self) -> bool {
        !self.starves && self.folder.is_empty() && self.out.is_empty() && self.err.is_empty()
    }

    /// All memory, where there is to be none.
    pub fn hoard(&mut self) -> Result<Option<Hoard>> {
        if !mem::replace(&mut self.starves, false) {
            return Ok(None);
        }
        Ok(Some(Hoard::new(self.alloc)?))
    }
}
