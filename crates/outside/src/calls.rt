//! The calls on files that a folder stands on, and those of the system.

ghost use Rattle.std.specs.Prelude.{None, [], ◌≡◌, ◌≢◌, ◌≤◌, ◌<◌, IfErr, IfOk, IsTrue, Option, length};
ghost use Rattle.std.specs.IoError.{error_kind};
ghost use Rattle.std.specs.declared.io.ErrorKind.TheVariants.{Interrupted};
ghost use Rattle.outside.specs.Calls.{Creates, Disk, GoesOn, OpenFile, Opens, Reads, Says, Stays, Tell, Writes};

use std::fs::OpenFile;
use std::io::{Read, Write};
use std::rt::Files;
use std::{fs, io};

/// Calls on files by name. A contract sees the files, where the calls tell of them.
pub trait FileCalls {
    type File: Drop;

    ghost disk: { Self → Option Disk };

    ghost open_file: { Self.File → OpenFile };

    /// Whether a regular file has this name, which is no device, no pipe and no folder.
    fn is_regular(&mut self, name: &str) -> bool
        ensures told { Tell (disk self.old) (disk self.new) (λ _ _. IsTrue result) }
        ensures stays { Tell (disk self.old) (disk self.new) Stays };

    /// Opens the file of this name to be read.
    fn open(&mut self, name: &str) -> io::Result<Self::File>
        ensures opens { Tell (disk self.old) (disk self.new) (Opens open_file name.now result) }
        ensures stays { Tell (disk self.old) (disk self.new) Stays };

    /// The length of a file that has just been opened, as the system says it.
    fn length(&mut self, file: &Self::File) -> io::Result<u64>
        ensures says { Tell (disk self.old) (disk self.new) (Says (open_file file.now) result) }
        ensures stays { Tell (disk self.old) (disk self.new) Stays };

    /// Reads the next bytes of the file into the front of `room`, and answers how many: none only at the file's end.
    fn read(&mut self, file: &mut Self::File, room: &mut [u8]) -> io::Result<usize>
        requires { 0 < length room.old }
        ensures within { IfOk result (λ count. count ≤ length room.new) }
        ensures same_room { length room.new ≡ length room.old }
        ensures reads { Tell (disk self.old) (disk self.new) (Reads (open_file file.old) (open_file file.new) room.new result) }
        ensures stays { Tell (disk self.old) (disk self.new) Stays };

    /// Opens the file of this name to be written. It is empty then.
    fn create(&mut self, name: &str) -> io::Result<Self::File>
        ensures creates { Tell (disk self.old) (disk self.new) (Creates open_file name.now result) }
        ensures goes_on { Tell (disk self.old) (disk self.new) GoesOn };

    /// Writes a front of the bytes to the end of the file, and answers its length.
    fn write(&mut self, file: &mut Self::File, bytes: &[u8]) -> io::Result<usize>
        requires { 0 < length bytes.now }
        ensures within { IfOk result (λ count. count ≤ length bytes.now) }
        ensures writes { Tell (disk self.old) (disk self.new) (Writes (open_file file.old) (open_file file.new) bytes.now result) }
        ensures goes_on { Tell (disk self.old) (disk self.new) GoesOn };
}

/// The calls of the system, tried again where a signal interrupts them; a name is a path from the current folder. They
/// tell nothing.
#[derive(Drop)]
pub struct SystemCalls<'a, R> {
    rt: &'a R,
}

impl<'a, R> SystemCalls<'a, R> {
    pub fn new(rt: &'a R) -> SystemCalls<'a, R> {
        SystemCalls { rt }
    }
}

impl<R: Files> FileCalls for SystemCalls<'_, R> {
    type File = R::File;

    ghost disk = { λ _. None };

    ghost open_file = { λ _. record { rest = []; name = []; written = [] } };

    fn is_regular(&mut self, name: &str) -> bool {
        match fs::metadata(self.rt, name) {
            Ok(said) => said.is_file(),
            Err(_) => false,
        }
    }

    fn open(&mut self, name: &str) -> io::Result<R::File> {
        fs::open(self.rt, name)
    }

    fn length(&mut self, file: &R::File) -> io::Result<u64> {
        Ok(file.metadata()?.len())
    }

    fn read(&mut self, file: &mut R::File, room: &mut [u8]) -> io::Result<usize>
        ensures within { IfOk result (λ count. count ≤ length room.new) }
        ensures same_room { length room.new ≡ length room.old }
        ensures retried { IfErr result (λ error. error_kind error ≢ Interrupted) }
    {
        'tries: for _ in 0..u64::MAX {
            match file.read(room) {
                Err(error) if error.kind() == io::ErrorKind::Interrupted => {}
                answer => return answer,
            }
        }
        Err(io::Error::from(io::ErrorKind::Other))
    }

    fn create(&mut self, name: &str) -> io::Result<R::File> {
        fs::create(self.rt, name)
    }

    fn write(&mut self, file: &mut R::File, bytes: &[u8]) -> io::Result<usize>
        ensures within { IfOk result (λ count. count ≤ length bytes.now) }
        ensures retried { IfErr result (λ error. error_kind error ≢ Interrupted) }
    {
        'tries: for _ in 0..u64::MAX {
            match file.write(bytes) {
                Err(error) if error.kind() == io::ErrorKind::Interrupted => {}
                answer => return answer,
            }
        }
        Err(io::Error::from(io::ErrorKind::Other))
    }
}
