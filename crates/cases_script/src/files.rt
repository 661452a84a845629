//! The files that the folder of each command holds.

use crate::texts::{lines_of, patch, repeated};
use anyhow::{Context, Result, bail};
use outside::{Folder, MemFolder};
use script_lines::{file_bytes, first_word, hex_bytes, number, small_decimal};
use std::alloc::Global;

/// A file by its name.
#[derive(Drop)]
struct File {
    name: String,
    bytes: Vec<u8>,
}

#[derive(Drop)]
pub struct Files {
    alloc: Global,
    items: Vec<File>,
}

impl Files {
    pub fn new(alloc: Global) -> Files {
        Files {
            alloc,
            items: Vec::new(alloc),
        }
    }

    /// How many there are.
    pub fn len(&self) -> usize {
        self.items.len()
    }

    /// Takes what a line says of files, if it does. `file` takes a real file, `text`, `each`, `zeros` and `bytes` make
    /// one, `patch` and `cut` another one of it, and `drop` takes one away.
    pub fn takes(&mut self, rt: &HostRuntime, word: &str, rest: &str) -> Result<bool> {
        match word {
            "file" => self.add(rest, file_bytes(rt, rest)?),
            "text" | "each" | "zeros" | "bytes" => self.add_made(word, rest),
            "patch" | "cut" => self.add_changed(word, rest),
            "drop" => {
                self.items.retain(|file| file.name.as_str() != rest);
                Ok(())
            }
            _ => return Ok(false),
        }?;
        Ok(true)
    }

    pub fn add(&mut self, name: &str, bytes: Vec<u8>) -> Result<()> {
        let name = String::from_str(self.alloc, name)?;
        self.items.push(File { name, bytes })?;
        Ok(())
    }

    /// Adds a file: its name, and what it is made of.
    fn add_made(&mut self, word: &str, rest: &str) -> Result<()> {
        let (name, text) = first_word(rest)?;
        let bytes = make_bytes(self.alloc, word, text)?;
        self.add(name, bytes)
    }

    /// Adds a file that is another one but for a change: that one's name, its own, and what changes.
    fn add_changed(&mut self, word: &str, rest: &str) -> Result<()> {
        let (old, rest) = first_word(rest)?;
        let (name, rest) = first_word(rest)?;
        let mut bytes = self.copy(old)?;
        change(self.alloc, &mut bytes, word, rest)?;
        self.add(name, bytes)
    }

    /// A copy of a file.
    fn copy(&self, name: &str) -> Result<Vec<u8>> {
        for file in self.items.iter().rev() {
            if file.name.as_str() == name {
                return Ok(Vec::from_slice(self.alloc, &file.bytes)?);
            }
        }
        bail!("a file is missing")
    }

    /// Puts all files into a folder.
    pub fn put(&self, folder: &mut MemFolder) -> Result<()> {
        for file in &self.items {
            folder
                .put(file.name.as_str(), &file.bytes)
                .context("putting a file")?;
        }
        Ok(())
    }

    /// Prints the names of those that are others in a folder.
    pub fn print_changes(&self, rt: &HostRuntime, folder: &MemFolder) -> Result<()> {
        for file in &self.items {
            let left = folder
                .file(file.name.as_str())
                .context("a file is missing")?;
            if left != file.bytes.as_slice() {
                println!(rt; "{} has changed", file.name.as_str())?;
            }
        }
        Ok(())
    }
}

/// The bytes that a text says: lines, lines that are repeated, so many zeros, or the bytes themselves.
fn make_bytes(alloc: Global, word: &str, text: &str) -> Result<Vec<u8>> {
    match word {
        "text" => Ok(lines_of(alloc, text)?.into_bytes()),
        "each" => Ok(repeated(alloc, text)?.into_bytes()),
        "zeros" => zeros(alloc, text),
        _ => hex_bytes(alloc, text),
    }
}

fn zeros(alloc: Global, len: &str) -> Result<Vec<u8>> {
    let len = small_decimal(len)? as usize;
    Ok(vec![in alloc; 0; len]?)
}

/// Puts bytes in the place of others: where these stand, and they; or cuts all behind so many.
fn change(alloc: Global, bytes: &mut Vec<u8>, word: &str, rest: &str) -> Result<()> {
    if word == "cut" {
        bytes.truncate(small_decimal(rest)? as usize);
        return Ok(());
    }
    let (place, text) = first_word(rest)?;
    let place = number(place)?;
    patch(bytes, place, &hex_bytes(alloc, text)?)
}
