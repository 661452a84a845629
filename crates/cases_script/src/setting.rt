//! What a script has said so far, and what its last command left.

use crate::description::Description;
use crate::fails::Fails;
use crate::files::Files;
use crate::leavings::Leavings;
use anyhow::{Context, Result, bail};
use cases_kit::Hoard;
use script_lines::first_word;
use std::alloc::Global;

/// What the next command is done over.
#[derive(Drop)]
pub struct Setting {
    alloc: Global,
    files: Files,
    /// The program that is being described.
    program: Description,
    /// What fails in the next command.
    fails: Fails,
    /// What the last command left.
    pub leavings: Leavings,
}

impl Setting {
    /// Nothing has been said.
    pub fn new(alloc: Global) -> Setting {
        Setting {
            alloc,
            files: Files::new(alloc),
            program: Description::new(alloc),
            fails: Fails::new(alloc),
            leavings: Leavings::new(alloc),
        }
    }

    /// Takes what a line says of the next command, if it does. A program is described (`code`, `data`, `room` and
    /// `function`), and `program` gives it a name; other words make files, and `keep` keeps one that the last command
    /// left; `fail` lets a call fail, and `starve` takes the memory.
    pub fn takes(&mut self, rt: &HostRuntime, word: &str, rest: &str) -> Result<bool> {
        match word {
            "code" | "data" | "room" | "function" => self.program.take(word, rest),
            "program" => self.name(rest),
            "keep" => self.keep(rest),
            "fail" => self.fails.add(rest, self.files.len()),
            "starve" => {
                self.fails.starves = true;
                Ok(())
            }
            _ => return self.files.takes(rt, word, rest),
        }?;
        Ok(true)
    }

    /// Makes the program that was described, as a file of this name.
    fn name(&mut self, name: &str) -> Result<()> {
        let file = self.program.finish()?;
        self.files.add(name, file)
    }

    /// Adds a file that the last command left: its name there, and the name that it gets.
    fn keep(&mut self, rest: &str) -> Result<()> {
        let (old, name) = first_word(rest)?;
        let bytes = self.leavings.folder.file(old).context("a file is missing")?;
        self.files.add(name, Vec::from_slice(self.alloc, bytes)?)
    }

    /// Prints what a line asks for of what the last command left: `whole` and `lines` a file, and `out` its output.
    pub fn show(&self, rt: &HostRuntime, word: &str, rest: &str) -> Result<()> {
        match word {
            "whole" => self.leavings.print_lines(rt, "", rest),
            "lines" => {
                let (name, front) = first_word(rest)?;
                self.leavings.print_lines(rt, front, name)
            }
            "out" => self.leavings.print_output(rt, rest),
            _ => bail!("no such line"),
        }
    }

    /// Whether nothing fails in the next command.
    pub fn is_sure(&self) -> bool {
        self.fails.is_nothing()
    }

    /// Lays out the folder and the sinks of the next command, whose calls fail as was said.
    pub fn lay_out(&mut self) -> Result<()> {
        self.leavings = Leavings::laid_out(self.alloc, &self.files, &mut self.fails)?;
        Ok(())
    }

    /// What a command is done over again whose sinks take a piece at a time.
    pub fn in_pieces(&self) -> Result<Leavings> {
        self.leavings.in_pieces(self.alloc, &self.files)
    }

    /// All memory, where the next command is to have none.
    pub fn hoard(&mut self) -> Result<Option<Hoard>> {
        self.fails.hoard()
    }

    /// Prints what the sinks have taken, and which files have changed.
    pub fn print_leavings(&self, rt: &HostRuntime) -> Result<()> {
        self.leavings.print_taken(rt)?;
        self.files.print_changes(rt, &self.leavings.folder)
    }
}
