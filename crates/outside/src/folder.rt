//! The folder that a profile reads from and writes to.

ghost use Rattle.std.specs.Prelude.{◌≡◌, ◌≤◌, ◌∷◌, [], ℕ, List, Option, false};
ghost use Rattle.outside.specs.Files.{Files};
ghost use Rattle.outside.specs.Load.{LoadAnswers, load_failed, load_of};
ghost use Rattle.outside.specs.Put.{PutAnswers, put_failed};
ghost use Rattle.outside.specs.Journal.{Call, Loaded, Put, TellsMore};

use byte_text::OutOfMemory;
use thiserror::Error;

/// The most bytes of a program or a profile that a command loads: 64 MiB.
pub const FILE_LIMIT: u64 = 67_108_864;

/// The most bytes of an input or a source text: 16 MiB.
pub const TEXT_LIMIT: u64 = 16_777_216;

/// Why a file could not be loaded.
#[derive(Clone, Copy, Debug, PartialEq, Eq, Error)]
pub enum LoadError {
    #[error("cannot load the file")]
    Failed,
    /// The file is longer than the limit: its length in bytes.
    #[error("the file is too long: {0} bytes")]
    TooLong(u64),
    #[error("out of memory")]
    OutOfMemory(OutOfMemory),
}

/// Why a file could not be written.
#[derive(Clone, Copy, Debug, PartialEq, Eq, Error)]
pub enum PutError {
    #[error("cannot write the file")]
    Failed,
    #[error("out of memory")]
    OutOfMemory(OutOfMemory),
}

/// Files by name. A contract sees its contents and the calls that were made of it with their answers, each where the
/// folder tells them, and its two counts of faults, one of loads and one of puts; they rise at calls that answer
/// `Failed`, and at no others. Calls are told as long as there is memory for them; then none is.
pub trait Folder {
    ghost contents: { Self → Option Files };

    ghost calls: { Self → Option (List Call) };

    ghost load_faults: { Self → ℕ };

    ghost put_faults: { Self → ℕ };

    /// Loads the whole file of this name, of at most `limit` bytes. A load changes no file.
    fn load(&mut self, name: &str, limit: u64) -> Result<Vec<u8>, LoadError>
        ensures answer { LoadAnswers (contents self.old) name.now limit (load_faults self.old)
            (load_faults self.new) result }
        ensures told { TellsMore (calls self.old) (Loaded name.now limit (load_of result) ∷ []) (calls self.new) }
        ensures same_contents { contents self.new ≡ contents self.old }
        ensures never_falls { load_faults self.old ≤ load_faults self.new }
        ensures rises_at_failure { load_failed result ≡ false → load_faults self.new ≡ load_faults self.old }
        ensures same_put_faults { put_faults self.new ≡ put_faults self.old };

    /// Loads the text of this name as `load` does. The name comes from a file that somebody else may have written: what
    /// is no regular file, as a device without an end, may be refused.
    fn load_text(&mut self, name: &str, limit: u64) -> Result<Vec<u8>, LoadError>
        ensures answer { LoadAnswers (contents self.old) name.now limit (load_faults self.old)
            (load_faults self.new) result }
        ensures told { TellsMore (calls self.old) (Loaded name.now limit (load_of result) ∷ []) (calls self.new) }
        ensures same_contents { contents self.new ≡ contents self.old }
        ensures never_falls { load_faults self.old ≤ load_faults self.new }
        ensures rises_at_failure { load_failed result ≡ false → load_faults self.new ≡ load_faults self.old }
        ensures same_put_faults { put_faults self.new ≡ put_faults self.old }
    {
        self.load(name, limit)
    }

    /// Sets the file of this name to these bytes. After a refusal that one name may hold anything or be absent.
    fn put(&mut self, name: &str, bytes: &[u8]) -> Result<(), PutError>
        ensures answer { PutAnswers (contents self.old) name.now bytes.now (put_faults self.old)
            (put_faults self.new) result
            (contents self.new) }
        ensures told { TellsMore (calls self.old) (Put name.now bytes.now result ∷ []) (calls self.new) }
        ensures never_falls { put_faults self.old ≤ put_faults self.new }
        ensures rises_at_failure { put_failed result ≡ false → put_faults self.new ≡ put_faults self.old }
        ensures same_load_faults { load_faults self.new ≡ load_faults self.old };
}
