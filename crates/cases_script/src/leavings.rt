//! A folder and sinks, as a command finds and leaves them.

use crate::fails::Fails;
use crate::files::Files;
use anyhow::{Context, Result, ensure};
use outside::{MemFolder, MemSink, SinkWrite};
use script_lines::text_of;
use std::alloc::Global;
use std::mem;

/// A text that is longer is not printed whole.
const LONG: usize = 10_000;

/// The folder, the output and the errors.
#[derive(Drop)]
pub struct Leavings {
    pub folder: MemFolder,
    pub out: MemSink,
    pub err: MemSink,
}

impl Leavings {
    /// An empty folder, and sinks that have taken nothing.
    pub fn new(alloc: Global) -> Leavings {
        Leavings {
            folder: MemFolder::new(alloc, Vec::new(alloc), Vec::new(alloc)),
            out: MemSink::new(alloc, Vec::new(alloc)),
            err: MemSink::new(alloc, Vec::new(alloc)),
        }
    }

    /// What a command is done over whose calls fail as is said; nothing is said of the next one yet.
    pub fn laid_out(alloc: Global, files: &Files, fails: &mut Fails) -> Result<Leavings> {
        let folder = folder_of(alloc, files, take_numbers(alloc, &mut fails.folder))?;
        Ok(Leavings {
            folder,
            out: MemSink::new(alloc, take_numbers(alloc, &mut fails.out)),
            err: MemSink::new(alloc, take_numbers(alloc, &mut fails.err)),
        })
    }

    /// What a command is done over again in which nothing fails, and whose sinks take a byte at a time; or a kilobyte,
    /// where they took much: they keep all that each write was of.
    pub fn in_pieces(&self, alloc: Global, files: &Files) -> Result<Leavings> {
        let most = if self.out.bytes().len() > LONG {
            1_000
        } else {
            1
        };
        Ok(Leavings {
            folder: folder_of(alloc, files, Vec::new(alloc))?,
            out: MemSink::with_piece(alloc, most),
            err: MemSink::with_piece(alloc, most),
        })
    }

    /// Holds that the sinks have taken the same.
    pub fn hold(&self, other: &Leavings) -> Result<()> {
        ensure!(
            self.out.bytes() == other.out.bytes() && self.err.bytes() == other.err.bytes(),
            "pieces change the output"
        );
        Ok(())
    }

    /// Prints what the sinks have taken.
    pub fn print_taken(&self, rt: &HostRuntime) -> Result<()> {
        print_text(rt, "out", self.out.bytes())?;
        print_text(rt, "err", self.err.bytes())
    }

    /// Prints how many writes were made to each sink, and how many bytes it took.
    pub fn print_writes(&self, rt: &HostRuntime) -> Result<()> {
        print_writes(rt, "out", self.out.writes())?;
        print_writes(rt, "err", self.err.writes())
    }

    /// Prints the lines of the output that begin so.
    pub fn print_output(&self, rt: &HostRuntime, front: &str) -> Result<()> {
        print_front(rt, front, self.out.bytes())
    }

    /// Prints the lines of a file of the folder that begin so.
    pub fn print_lines(&self, rt: &HostRuntime, front: &str, name: &str) -> Result<()> {
        let Some(bytes) = self.folder.file(name) else {
            println!(rt; "there is no such file")?;
            return Ok(());
        };
        print_front(rt, front, bytes)
    }
}

/// Takes all numbers away.
fn take_numbers(alloc: Global, numbers: &mut Vec<u64>) -> Vec<u64> {
    mem::replace(numbers, Vec::new(alloc))
}

/// A folder that holds files, and whose calls of these numbers fail.
fn folder_of(alloc: Global, files: &Files, fails: Vec<u64>) -> Result<MemFolder> {
    let mut folder = MemFolder::new(alloc, Vec::new(alloc), fails);
    files.put(&mut folder)?;
    Ok(folder)
}

/// Prints the lines that begin so.
fn print_front(rt: &HostRuntime, front: &str, bytes: &[u8]) -> Result<()> {
    for line in text_of(bytes)?.lines() {
        if line.starts_with(front) {
            println!(rt; "{line}")?;
        }
    }
    Ok(())
}

fn print_writes(rt: &HostRuntime, name: &str, writes: Option<&[SinkWrite]>) -> Result<()> {
    let writes = writes.context("a write could not be kept")?;
    let mut taken = 0_usize;
    for write in writes {
        taken = taken.saturating_add(write.answer.unwrap_or(0));
    }
    println!(rt; "{name} {} writes, {taken} bytes", writes.len())?;
    Ok(())
}

/// Prints what a sink has taken, or its length.
fn print_text(rt: &HostRuntime, name: &str, bytes: &[u8]) -> Result<()> {
    if bytes.len() > LONG {
        println!(rt; "{name} {} bytes", bytes.len())?;
    } else if !bytes.is_empty() {
        println!(rt; "{name} {:?}", text_of(bytes)?)?;
    }
    Ok(())
}
