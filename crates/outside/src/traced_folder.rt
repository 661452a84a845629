//! A folder that keeps the calls that were made of it.

ghost use Rattle.std.specs.Prelude.{◌≡◌, ◌≤◌, ◌∷◌, [], Some, false, option_copied};
ghost use Rattle.outside.specs.Load.{LoadAnswers, load_failed, load_of};
ghost use Rattle.outside.specs.Put.{PutAnswers, put_failed};
ghost use Rattle.outside.specs.Journal.{Loaded, Put, TellsMore};
ghost use Rattle.outside.specs.Traced.{calls_in};

use crate::call_journal::FolderCall;
use crate::folder::{Folder, LoadError, PutError};
use crate::journal::Journal;
use std::alloc::Global;
use std::marker::Model;

/// A folder that keeps the calls that were made of it, and so tells them, as long as there is memory for them.
#[derive(Drop)]
pub struct Traced<F> {
    alloc: Global,
    folder: F,
    calls: Journal<FolderCall>,
}

impl<F> Model for Traced<F> {
    ghost use Rattle.outside.specs.Traced as seen;
    ghost use Rattle.outside.specs.Traced.{calls_in};

    ghost Value = { seen.Traced F };

    ghost view = { λ t. record { folder = t.folder; calls = calls_in t.calls } };
}

impl<F> Traced<F> {
    /// Over a folder, of which no call was made yet.
    pub fn new(alloc: Global, folder: F) -> Traced<F>
        ensures { result ≡ record { folder = folder; calls = Some [] } }
    {
        Traced {
            alloc,
            folder,
            calls: Journal::new(alloc),
        }
    }

    /// The calls that were made, in their order, None once memory for one of them was refused.
    pub fn calls(&self) -> Option<&[FolderCall]>
        ensures { calls_in (option_copied result) ≡ self.now.calls }
    {
        self.calls.entries()
    }
}

impl<F: Folder> Folder for Traced<F> {
    ghost contents = { λ t. F.contents t.folder };

    ghost calls = { λ t. t.calls };

    ghost load_faults = { λ t. F.load_faults t.folder };

    ghost put_faults = { λ t. F.put_faults t.folder };

    fn load(&mut self, name: &str, limit: u64) -> Result<Vec<u8>, LoadError>
        ensures answer { LoadAnswers (F.contents self.old.folder) name.now limit (F.load_faults self.old.folder)
            (F.load_faults self.new.folder) result }
        ensures told { TellsMore self.old.calls (Loaded name.now limit (load_of result) ∷ []) self.new.calls }
        ensures same_contents { F.contents self.new.folder ≡ F.contents self.old.folder }
        ensures never_falls { F.load_faults self.old.folder ≤ F.load_faults self.new.folder }
        ensures rises_at_failure { load_failed result ≡ false
            → F.load_faults self.new.folder ≡ F.load_faults self.old.folder }
        ensures same_put_faults { F.put_faults self.new.folder ≡ F.put_faults self.old.folder }

        // The folder below is asked once, for the same, and this is what it has answered.
        ensures once { TellsMore (F.calls self.old.folder) (Loaded name.now limit (load_of result) ∷ [])
            (F.calls self.new.folder) }
    {
        let answer = self.folder.load(name, limit);
        self.calls.load(self.alloc, name, limit, &answer);
        answer
    }

    fn load_text(&mut self, name: &str, limit: u64) -> Result<Vec<u8>, LoadError>
        ensures answer { LoadAnswers (F.contents self.old.folder) name.now limit (F.load_faults self.old.folder)
            (F.load_faults self.new.folder) result }
        ensures told { TellsMore self.old.calls (Loaded name.now limit (load_of result) ∷ []) self.new.calls }
        ensures same_contents { F.contents self.new.folder ≡ F.contents self.old.folder }
        ensures never_falls { F.load_faults self.old.folder ≤ F.load_faults self.new.folder }
        ensures rises_at_failure { load_failed result ≡ false
            → F.load_faults self.new.folder ≡ F.load_faults self.old.folder }
        ensures same_put_faults { F.put_faults self.new.folder ≡ F.put_faults self.old.folder }

        ensures once { TellsMore (F.calls self.old.folder) (Loaded name.now limit (load_of result) ∷ [])
            (F.calls self.new.folder) }
    {
        let answer = self.folder.load_text(name, limit);
        self.calls.load(self.alloc, name, limit, &answer);
        answer
    }

    fn put(&mut self, name: &str, bytes: &[u8]) -> Result<(), PutError>
        ensures answer { PutAnswers (F.contents self.old.folder) name.now bytes.now (F.put_faults self.old.folder)
            (F.put_faults self.new.folder) result (F.contents self.new.folder) }
        ensures told { TellsMore self.old.calls (Put name.now bytes.now result ∷ []) self.new.calls }
        ensures never_falls { F.put_faults self.old.folder ≤ F.put_faults self.new.folder }
        ensures rises_at_failure { put_failed result ≡ false
            → F.put_faults self.new.folder ≡ F.put_faults self.old.folder }
        ensures same_load_faults { F.load_faults self.new.folder ≡ F.load_faults self.old.folder }

        ensures once { TellsMore (F.calls self.old.folder) (Put name.now bytes.now result ∷ [])
            (F.calls self.new.folder) }
    {
        let answer = self.folder.put(name, bytes);
        self.calls.put(self.alloc, name, bytes, answer);
        answer
    }
}
