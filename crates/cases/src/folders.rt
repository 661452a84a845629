//! Folders, in memory, over calls on files, and the real one. All but the real one begin with the file `a` of the bytes
//! `12345`.

ghost use Rattle.std.specs.Prelude.{IfOk};
ghost use Rattle.outside.specs.Shelf.{HaveNamesApart};

use crate::disk::Disk;
use anyhow::{Context, Result, bail};
use outside::{
    DirFolder, FileFolder, Folder, FolderCall, LoadError, MemFolder, PutError, SureFolder,
};
use script_lines::{Scene, decimal, decimals, first_word, print_quoted, small_decimal};
use std::alloc::{AllocError, Global};
use std::fs;

/// A folder, on which each line is a call.
#[derive(Drop)]
struct Stage<F> {
    folder: F,
}

impl<F: Folder> Scene for Stage<F> {
    /// `load` has a name and a limit, and prints the file; `put` has a name and what the file becomes, nothing where
    /// nothing stands; `remove` removes a file of the real folder.
    fn follow(&mut self, rt: &HostRuntime, line: &str) -> Result<()> {
        let (word, rest) = first_word(line)?;
        let (name, rest) = rest.split_once(' ').unwrap_or((rest, ""));
        match word {
            "load" => load(rt, &mut self.folder, name, rest),
            "put" => put(rt, &mut self.folder, name, rest),
            "remove" => Ok(fs::remove_file(rt, name)?),
            _ => bail!("no such line"),
        }
    }
}

fn load<F: Folder>(rt: &HostRuntime, folder: &mut F, name: &str, limit: &str) -> Result<()> {
    let limit = decimal(limit)?;
    print_file(rt, &folder.load(name, limit))
}

fn print_file(rt: &HostRuntime, loaded: &Result<Vec<u8>, LoadError>) -> Result<()> {
    match loaded {
        Ok(bytes) => print_quoted(rt, bytes),
        Err(error) => Ok(println!(rt; "{error}")?),
    }
}

fn put<F: Folder>(rt: &HostRuntime, folder: &mut F, name: &str, text: &str) -> Result<()> {
    match folder.put(name, text.as_bytes()) {
        Ok(()) => println!(rt; "done")?,
        Err(error) => println!(rt; "{error}")?,
    }
    Ok(())
}

fn one_file(alloc: Global) -> Result<Vec<(String, Vec<u8>)>, AllocError>
    ensures { IfOk result (λ files. HaveNamesApart files.items) }
{
    let mut files = Vec::new(alloc);
    files.push((
        String::from_str(alloc, "a")?,
        Vec::from_slice(alloc, b"12345")?,
    ))?;
    Ok(files)
}

/// A folder in memory whose calls of these numbers fail.
fn failing(alloc: Global, fails: &str) -> Result<MemFolder> {
    let fails = decimals(alloc, fails)?;
    Ok(MemFolder::new(alloc, one_file(alloc)?, fails))
}

/// Follows lines over such a folder.
pub fn in_memory(rt: &HostRuntime, fails: &str, lines: &str) -> Result<()> {
    play(rt, failing(rt.alloc(), fails)?, lines)
}

/// The same, and prints behind the lines which calls the folder kept.
pub fn print_kept_calls(rt: &HostRuntime, fails: &str, lines: &str) -> Result<()> {
    let folder = failing(rt.alloc(), fails)?;
    play_and_print(rt, &mut Stage { folder }, lines)
}

fn play_and_print(rt: &HostRuntime, stage: &mut Stage<MemFolder>, lines: &str) -> Result<()> {
    script_lines::play(rt, stage, lines)?;
    for call in stage.folder.calls().context("a call could not be kept")? {
        print_call(rt, call)?;
    }
    Ok(())
}

fn print_call(rt: &HostRuntime, call: &FolderCall) -> Result<()> {
    match call {
        FolderCall::Loaded(name, limit, answer) => print_load(rt, name, *limit, answer),
        FolderCall::Put(name, bytes, answer) => print_put(rt, name, bytes, answer),
    }
}

fn print_load(
    rt: &HostRuntime,
    name: &str,
    limit: u64,
    loaded: &Result<Vec<u8>, LoadError>,
) -> Result<()> {
    print!(rt; "load {name} {limit}: ")?;
    print_file(rt, loaded)
}

fn print_put(
    rt: &HostRuntime,
    name: &str,
    bytes: &[u8],
    done: &Result<(), PutError>,
) -> Result<()> {
    print!(rt; "put {name}: ")?;
    match done {
        Ok(()) => print_quoted(rt, bytes),
        Err(error) => Ok(println!(rt; "{error}")?),
    }
}

/// The same over one that never fails.
pub fn sure(rt: &HostRuntime, lines: &str) -> Result<()> {
    let folder = SureFolder::new(rt.alloc(), one_file(rt.alloc())?);
    play(rt, folder, lines)
}

/// The same over calls on files that say lengths or don't, that move so many bytes at most, and of which the one of this
/// number fails, none for 0.
pub fn on_disk(rt: &HostRuntime, given: &str, lines: &str) -> Result<()> {
    let (sized, numbers) = first_word(given)?;
    let (most, fails) = first_word(numbers)?;
    let most = small_decimal(most)? as usize;
    let fails = decimal(fails)?;
    let files = SureFolder::new(rt.alloc(), one_file(rt.alloc())?);
    let disk = Disk::new(rt.alloc(), files, sized == "sized", most, fails);
    play(rt, FileFolder::from_calls(rt.alloc(), disk), lines)
}

/// The same over the real folder.
pub fn real(rt: &HostRuntime, lines: &str) -> Result<()> {
    play(rt, DirFolder::new(rt), lines)
}

fn play<F: Folder + Drop>(rt: &HostRuntime, folder: F, lines: &str) -> Result<()> {
    script_lines::play(rt, &mut Stage { folder }, lines)
}
