//! Folders in memory: one whose calls can be told to fail, and one that never fails. Both tell their contents and their
//! calls.

ghost use Rattle.std.specs.Prelude.{◌≡◌, ◌≤◌, ◌∷◌, [], Some, Ok, Err, Vec, String, option_copied};
ghost use Rattle.std.specs.Prelude.{string_bytes, IsTrue, AllPairs, map, ◌≢◌, false};
ghost use Rattle.outside.specs.Files.{Files, file};
ghost use Rattle.outside.specs.Load.{LoadAnswers, load_failed, load_of};
ghost use Rattle.outside.specs.Put.{PutAnswers, put_failed};
ghost use Rattle.outside.specs.Plan.{next_fails, after_call, count_after};
ghost use Rattle.outside.specs.Shelf.{files_of, file_of_entry, HaveNamesApart};
ghost use Rattle.outside.specs.Journal.{Loaded, Put, TellsMore};
ghost use Rattle.outside.specs.Traced.{calls_in};

use crate::call_journal::FolderCall;
use crate::folder::{Folder, LoadError, PutError};
use crate::journal::Journal;
use crate::plan::{Plan, count_after};
use crate::shelf::Shelf;
use std::alloc::Global;
use std::marker::Model;

/// A folder in memory. Its calls count from 1, loads and puts together, and those whose numbers are on a list fail.
#[derive(Debug, Drop)]
pub struct MemFolder {
    alloc: Global,
    shelf: Shelf,
    calls: Journal<FolderCall>,
    plan: Plan,
    load_faults: u64,
    put_faults: u64,
}

impl Model for MemFolder {
    ghost use Rattle.outside.specs.Shelf.{FolderState, folder_state_code};
    ghost use Rattle.outside.specs.Traced.{calls_in};

    ghost Value = { FolderState };

    ghost coded = { folder_state_code };

    ghost view = { λ f. record {
      files = f.shelf;
      calls = calls_in f.calls;
      plan = f.plan;
      load_faults = f.load_faults;
      put_faults = f.put_faults;
    } };
}

impl MemFolder {
    /// A folder of these files, whose calls of these numbers fail.
    pub fn new(alloc: Global, files: Vec<(String, Vec<u8>)>, fails: Vec<u64>) -> MemFolder
        requires { HaveNamesApart files.items }
        ensures { result ≡ record {
          files = files_of files.items;
          calls = Some [];
          plan = record { fails = fails.items; calls = 0 };
          load_faults = 0;
          put_faults = 0;
        } }
    {
        MemFolder {
            alloc,
            shelf: Shelf::new(files),
            calls: Journal::new(alloc),
            plan: Plan::new(fails),
            load_faults: 0,
            put_faults: 0,
        }
    }

    /// The bytes of the file of this name, None exactly where there is none.
    pub fn file(&self, name: &str) -> Option<&[u8]>
        ensures { option_copied result ≡ file self.now.files name.now }
    {
        self.shelf.file(name)
    }

    /// The calls that were made, in their order, None once memory for one of them was refused.
    pub fn calls(&self) -> Option<&[FolderCall]>
        ensures { calls_in (option_copied result) ≡ self.now.calls }
    {
        self.calls.entries()
    }
}

impl Folder for MemFolder {
    ghost contents = { λ f. Some f.files };

    ghost calls = { λ f. f.calls };

    ghost load_faults = { λ f. f.load_faults };

    ghost put_faults = { λ f. f.put_faults };

    fn load(&mut self, name: &str, limit: u64) -> Result<Vec<u8>, LoadError>
        ensures answer { LoadAnswers (Some self.old.files) name.now limit self.old.load_faults
            self.new.load_faults result }
        ensures told { TellsMore self.old.calls (Loaded name.now limit (load_of result) ∷ []) self.new.calls }
        ensures same_contents { Some self.new.files ≡ Some self.old.files }
        ensures never_falls { self.old.load_faults ≤ self.new.load_faults }
        ensures rises_at_failure { load_failed result ≡ false → self.new.load_faults ≡ self.old.load_faults }
        ensures same_put_faults { self.new.put_faults ≡ self.old.put_faults }

        // A call whose number is on the list fails, and the count rises there alone.
        ensures listed { IsTrue (next_fails self.old.plan) → result ≡ Err LoadError.Failed }
        ensures counted { self.new.plan ≡ after_call self.old.plan }
        ensures rises { self.new.load_faults ≡ count_after (next_fails self.old.plan) self.old.load_faults }
    {
        let fails = self.plan.call();
        self.load_faults = count_after(fails, self.load_faults);
        if fails {
            self.calls
                .load(self.alloc, name, limit, &Err(LoadError::Failed));
            return Err(LoadError::Failed);
        }
        let answer = self.shelf.load(self.alloc, name, limit);
        self.calls.load(self.alloc, name, limit, &answer);
        answer
    }

    fn put(&mut self, name: &str, bytes: &[u8]) -> Result<(), PutError>
        ensures answer { PutAnswers (Some self.old.files) name.now bytes.now self.old.put_faults
            self.new.put_faults result
            (Some self.new.files) }
        ensures told { TellsMore self.old.calls (Put name.now bytes.now result ∷ []) self.new.calls }
        ensures never_falls { self.old.put_faults ≤ self.new.put_faults }
        ensures rises_at_failure { put_failed result ≡ false → self.new.put_faults ≡ self.old.put_faults }
        ensures same_load_faults { self.new.load_faults ≡ self.old.load_faults }

        ensures listed { IsTrue (next_fails self.old.plan) → result ≡ Err PutError.Failed }
        ensures stays { IsTrue (next_fails self.old.plan) → self.new.files ≡ self.old.files }
        ensures counted { self.new.plan ≡ after_call self.old.plan }
        ensures rises { self.new.put_faults ≡ count_after (next_fails self.old.plan) self.old.put_faults }
    {
        let fails = self.plan.call();
        self.put_faults = count_after(fails, self.put_faults);
        if fails {
            self.calls
                .put(self.alloc, name, bytes, Err(PutError::Failed));
            return Err(PutError::Failed);
        }
        let answer = self.shelf.store(self.alloc, name, bytes);
        self.calls.put(self.alloc, name, bytes, answer);
        answer
    }
}

/// A folder in memory that never fails but for want of memory.
#[derive(Debug, Drop)]
pub struct SureFolder {
    alloc: Global,
    shelf: Shelf,
    calls: Journal<FolderCall>,
}

impl Model for SureFolder {
    ghost use Rattle.outside.specs.Files.{Files};
    ghost use Rattle.outside.specs.Shelf.{traced_files_code};
    ghost use Rattle.outside.specs.Traced.{Traced, calls_in};

    ghost Value = { Traced Files };

    ghost coded = { traced_files_code };

    ghost view = { λ f. record { folder = f.shelf; calls = calls_in f.calls } };
}

impl SureFolder {
    /// A folder of these files.
    pub fn new(alloc: Global, files: Vec<(String, Vec<u8>)>) -> SureFolder
        requires { HaveNamesApart files.items }
        ensures { result ≡ record { folder = files_of files.items; calls = Some [] } }
    {
        SureFolder {
            alloc,
            shelf: Shelf::new(files),
            calls: Journal::new(alloc),
        }
    }

    /// The bytes of the file of this name, None exactly where there is none.
    pub fn file(&self, name: &str) -> Option<&[u8]>
        ensures { option_copied result ≡ file self.now.folder name.now }
    {
        self.shelf.file(name)
    }

    /// The calls that were made, in their order, None once memory for one of them was refused.
    pub fn calls(&self) -> Option<&[FolderCall]>
        ensures { calls_in (option_copied result) ≡ self.now.calls }
    {
        self.calls.entries()
    }
}

impl Folder for SureFolder {
    ghost contents = { λ f. Some f.folder };

    ghost calls = { λ f. f.calls };

    ghost load_faults = { λ _. 0 };

    ghost put_faults = { λ _. 0 };

    fn load(&mut self, name: &str, limit: u64) -> Result<Vec<u8>, LoadError> {
        let answer = self.shelf.load(self.alloc, name, limit);
        self.calls.load(self.alloc, name, limit, &answer);
        answer
    }

    fn put(&mut self, name: &str, bytes: &[u8]) -> Result<(), PutError> {
        let answer = self.shelf.store(self.alloc, name, bytes);
        self.calls.put(self.alloc, name, bytes, answer);
        answer
    }
}
