//! Profiles and source texts that folders give.

use crate::rows::print_counts;
use annotate::{Source, Texts};
use anyhow::{Context, Result, bail};
use cg_read::Profile;
use prof_base::{DirFolder, FILE_LIMIT, Folder, MemFolder, Text, clean_name};
use profile_files::{ReadFault, read_profiles, with_limit};
use script_lines::{Escaped, Scene, bytes_of, decimals, first_word, small_decimal};
use source_files::load_sources;
use std::alloc::Global;

/// Zeros, if so many are asked for; else the bytes that a text stands for.
fn content_of(alloc: Global, word: &str, content: &str) -> Result<Vec<u8>> {
    if word != "zeros" {
        return bytes_of(alloc, content);
    }
    let count = small_decimal(content)? as usize;
    let mut zeros = Vec::new(alloc);
    zeros.resize(count, 0)?;
    Ok(zeros)
}

/// An empty folder whose calls of these numbers fail.
fn folder(alloc: Global, numbers: &str) -> Result<MemFolder> {
    let fails = decimals(alloc, numbers)?;
    Ok(MemFolder::new(alloc, Vec::new(alloc), fails))
}

/// A folder in memory.
#[derive(Drop)]
pub struct Stage {
    alloc: Global,
    folder: MemFolder,
}

impl Stage {
    pub fn new(alloc: Global) -> Stage {
        Stage {
            alloc,
            folder: MemFolder::new(alloc, Vec::new(alloc), Vec::new(alloc)),
        }
    }

    fn begin(&mut self, numbers: &str) -> Result<()> {
        self.folder = folder(self.alloc, numbers)?;
        Ok(())
    }

    fn put(&mut self, word: &str, rest: &str) -> Result<()> {
        let (name, content) = first_word(rest)?;
        let bytes = content_of(self.alloc, word, content)?;
        self.folder.put(name, &bytes).context("putting a file")
    }

    fn print_sources(&mut self, rt: &HostRuntime, line: &str) -> Result<()> {
        let names = texts_of(self.alloc, line)?;
        print_texts(rt, &load_sources(self.alloc, &names, &mut self.folder)?)
    }
}

impl Scene for Stage {
    /// Follows a line of the script. `profiles` joins files of the real folder. `folder` begins one in memory whose calls
    /// of these numbers fail; `file` and `zeros` put a file into it, with a text or with so many bytes, and `sources`
    /// tells what it gives under some names.
    fn follow(&mut self, rt: &HostRuntime, line: &str) -> Result<()> {
        let (word, rest) = line.split_once(' ').unwrap_or((line, ""));
        match word {
            "profiles" => print_profiles(rt, rest),
            "folder" => self.begin(rest),
            "file" | "zeros" => self.put(word, rest),
            "sources" => self.print_sources(rt, rest),
            _ => bail!("no such line"),
        }
    }
}

/// Words as names.
fn texts_of(alloc: Global, line: &str) -> Result<Vec<Text>> {
    let mut names = Vec::new(alloc);
    for word in line.split(' ') {
        let bytes = bytes_of(alloc, word)?;
        names.push(Text { bytes })?;
    }
    Ok(names)
}

/// Prints the cleaned name of each file, and the length of its text, or that it is missing or too long.
fn print_texts(rt: &HostRuntime, texts: &Texts) -> Result<()> {
    for (name, source) in &texts.items {
        let name = clean_name(rt.alloc(), name.as_bytes())?;
        print!(rt; "{} ", Escaped(name.as_bytes()))?;
        match source {
            Source::Found(text) => println!(rt; "{}", text.len())?,
            Source::Missing => println!(rt; "-")?,
            Source::TooLong(len) => println!(rt; "> {len}")?,
        }
    }
    Ok(())
}

/// Words as paths.
fn paths_of(alloc: Global, line: &str) -> Result<Vec<String>> {
    let mut paths = Vec::new(alloc);
    for word in line.split(' ') {
        paths.push(String::from_str(alloc, word)?)?;
    }
    Ok(paths)
}

/// What the profiles of these paths come to.
fn profile_of(
    rt: &HostRuntime,
    paths: &[String],
) -> Result<std::result::Result<Profile, ReadFault>> {
    let files = with_limit(rt.alloc(), paths, FILE_LIMIT)?;
    Ok(read_profiles(rt.alloc(), &[], &files, &mut DirFolder::new(rt)))
}

/// Prints what the profiles of these paths come to.
fn print_profiles(rt: &HostRuntime, line: &str) -> Result<()> {
    match profile_of(rt, &paths_of(rt.alloc(), line)?)? {
        Ok(profile) => print_profile(rt, &profile),
        Err(fault) => print_fault(rt, &fault),
    }
}

fn print_profile(rt: &HostRuntime, profile: &Profile) -> Result<()> {
    if let Some(command) = &profile.command {
        println!(rt; "{}", Escaped(command.as_bytes()))?;
    }
    print_counts(rt, profile)
}

fn print_fault(rt: &HostRuntime, fault: &ReadFault) -> Result<()> {
    match fault {
        ReadFault::LoadFault(name) => println!(rt; "{} is not there", Escaped(name.as_bytes()))?,
        ReadFault::FormatRefused(name, error) => {
            println!(rt; "{}: {error}", Escaped(name.as_bytes()))?
        }
        other => println!(rt; "{other}")?,
    }
    Ok(())
}
