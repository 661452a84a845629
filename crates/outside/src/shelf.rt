//! Named files in memory.

ghost use Rattle.std.specs.Prelude.{◌≡◌, option_copied, OnOk, OnErr, string_bytes};
ghost use Rattle.outside.specs.Files.{file, with_file};
ghost use Rattle.outside.specs.Load.{IsLoaded};
ghost use Rattle.outside.specs.Put.{IsStored};
ghost use Rattle.outside.specs.Shelf.{files_of};

use crate::folder::{LoadError, PutError};
use byte_text::OutOfMemory;
use std::alloc::{AllocError, Global};
use std::marker::Model;

/// Names with their bytes. The first entry of a name counts, so a put goes in front.
#[derive(Debug, Drop)]
pub struct Shelf {
    entries: Vec<(String, Vec<u8>)>,
}

impl Model for Shelf {
    ghost use Rattle.outside.specs.Files.{Files, files_code};
    ghost use Rattle.outside.specs.Shelf.{files_of};

    ghost Value = { Files };

    ghost coded = { files_code };

    ghost view = { λ s. files_of s.entries.items };
}

impl Shelf {
    pub fn new(entries: Vec<(String, Vec<u8>)>) -> Shelf
        ensures { result ≡ files_of entries.items }
    {
        Shelf { entries }
    }

    pub fn file(&self, name: &str) -> Option<&[u8]>
        ensures { option_copied result ≡ file self.now name.now }
    {
        'entries: for entry in &self.entries {
            if entry.0.as_str() == name {
                return Some(entry.1.as_slice());
            }
        }
        None
    }

    pub fn put(&mut self, name: String, bytes: Vec<u8>) -> Result<(), AllocError>
        ensures ok { OnOk result (self.new ≡ with_file self.old (string_bytes name) bytes.items) }
        ensures err { OnErr result (self.new ≡ self.old) }
    {
        self.entries.insert(0, (name, bytes))?;
        Ok(())
    }

    /// Puts a copy of the bytes under a copy of the name.
    fn keep(&mut self, alloc: Global, name: &str, bytes: &[u8]) -> Result<(), OutOfMemory>
        ensures ok { OnOk result (self.new ≡ with_file self.old name.now bytes.now) }
        ensures err { OnErr result (self.new ≡ self.old) }
    {
        let name = String::from_str(alloc, name)?;
        let bytes = Vec::from_slice(alloc, bytes)?;
        self.put(name, bytes)?;
        Ok(())
    }

    /// What a load that isn't told to fail answers.
    pub fn load(&self, alloc: Global, name: &str, limit: u64) -> Result<Vec<u8>, LoadError>
        ensures { IsLoaded (file self.now name.now) limit result }
    {
        let Some(bytes) = self.file(name) else {
            return Err(LoadError::Failed);
        };
        let len = bytes.len() as u64;
        if len > limit {
            return Err(LoadError::TooLong(len));
        }
        match Vec::from_slice(alloc, bytes) {
            Ok(bytes) => Ok(bytes),
            Err(refused) => Err(LoadError::OutOfMemory(OutOfMemory::from(refused))),
        }
    }

    /// What a put that isn't told to fail does.
    pub fn store(&mut self, alloc: Global, name: &str, bytes: &[u8]) -> Result<(), PutError>
        ensures { IsStored self.old name.now bytes.now result self.new }
    {
        match self.keep(alloc, name, bytes) {
            Ok(()) => Ok(()),
            Err(refused) => Err(PutError::OutOfMemory(refused)),
        }
    }
}
