//! A folder over calls on files, and the real one, which is over those of the system.

ghost use Rattle.std.specs.Prelude.{None, ◌∷◌, [], ◌≡◌, ◌≤◌, ◌<◌, ◌+◌, length, IfOk, false};
ghost use Rattle.outside.specs.Calls.{GoesOn, Stays, Tell};
ghost use Rattle.outside.specs.FileFolder.{LoadsFrom, PutsTo};
ghost use Rattle.outside.specs.Load.{LoadAnswers, load_failed, load_of};
ghost use Rattle.outside.specs.inner.Pieces.{IsReadWithin};
ghost use Rattle.outside.specs.Plan.{count_after};
ghost use Rattle.outside.specs.Put.{PutAnswers, put_failed};
ghost use Rattle.outside.specs.Journal.{Loaded, Put, TellsMore};
ghost use Rattle.outside.specs.inner.Front.{IsFront, IsFrontOf, IsLoadError, IsPiece, IsPutError, IsWritten};

use crate::calls::{FileCalls, SystemCalls};
use crate::folder::{Folder, LoadError, PutError};
use crate::plan::count_after;
use byte_text::OutOfMemory;
use std::alloc::Global;
use std::io;
use std::marker::Model;
use std::rt::Files;

/// How many bytes one call reads at most.
const PIECE: usize = 65_536;

/// Files by name, over calls on files. Contracts see what the calls tell, and the two counts of faults.
#[derive(Drop)]
pub struct FileFolder<C> {
    alloc: Global,
    calls: C,
    load_faults: u64,
    put_faults: u64,
}

impl<C> Model for FileFolder<C> {
    ghost use Rattle.outside.specs.FileFolder as seen;

    ghost Value = { seen.FileFolder C };

    ghost view = { λ f. record { calls = f.calls; loads = f.load_faults; puts = f.put_faults } };
}

impl<C> FileFolder<C> {
    /// A folder over these calls, with no fault yet.
    pub fn from_calls(alloc: Global, calls: C) -> FileFolder<C>
        ensures { result ≡ record { calls = calls; loads = 0; puts = 0 } }
    {
        FileFolder {
            alloc,
            calls,
            load_faults: 0,
            put_faults: 0,
        }
    }
}

/// The current folder; a name is a path from it.
pub type DirFolder<'a, R> = FileFolder<SystemCalls<'a, R>>;

impl<'a, R: Files + AllocGlobal> FileFolder<SystemCalls<'a, R>> {
    /// The current folder, with no fault yet.
    pub fn new(rt: &'a R) -> FileFolder<SystemCalls<'a, R>>
        ensures no_load_fault { result.loads ≡ 0 }
        ensures no_put_fault { result.puts ≡ 0 }
    {
        FileFolder::from_calls(rt.alloc(), SystemCalls::new(rt))
    }
}

impl<C: FileCalls> Folder for FileFolder<C> {
    ghost contents = { λ _. None };

    ghost calls = { λ _. None };

    ghost load_faults = { λ f. f.loads };

    ghost put_faults = { λ f. f.puts };

    fn load(&mut self, name: &str, limit: u64) -> Result<Vec<u8>, LoadError>
        ensures answer { LoadAnswers None name.now limit self.old.loads self.new.loads result }
        ensures told { TellsMore None (Loaded name.now limit (load_of result) ∷ []) None }
        ensures never_falls { self.old.loads ≤ self.new.loads }
        ensures rises_at_failure { load_failed result ≡ false → self.new.loads ≡ self.old.loads }
        ensures same_put_faults { self.new.puts ≡ self.old.puts }

        // The count rises by one at a fault, and at nothing else.
        ensures counted { self.new.loads ≡ count_after (load_failed result) self.old.loads }

        // What the calls tell says what is loaded, and is as it was.
        ensures loads { Tell (C.disk self.old.calls) (C.disk self.new.calls) (LoadsFrom name.now limit result) }
        ensures stays { Tell (C.disk self.old.calls) (C.disk self.new.calls) Stays }
    {
        let answer = read_file(&mut self.calls, self.alloc, name, limit);
        let failed = matches!(answer, Err(LoadError::Failed));
        self.load_faults = count_after(failed, self.load_faults);
        answer
    }

    fn load_text(&mut self, name: &str, limit: u64) -> Result<Vec<u8>, LoadError>
        ensures answer { LoadAnswers None name.now limit self.old.loads self.new.loads result }
        ensures told { TellsMore None (Loaded name.now limit (load_of result) ∷ []) None }
        ensures never_falls { self.old.loads ≤ self.new.loads }
        ensures rises_at_failure { load_failed result ≡ false → self.new.loads ≡ self.old.loads }
        ensures same_put_faults { self.new.puts ≡ self.old.puts }

        ensures counted { self.new.loads ≡ count_after (load_failed result) self.old.loads }

        // All files that the calls tell of are regular ones.
        ensures loads { Tell (C.disk self.old.calls) (C.disk self.new.calls) (LoadsFrom name.now limit result) }
        ensures stays { Tell (C.disk self.old.calls) (C.disk self.new.calls) Stays }
    {
        if !self.calls.is_regular(name) {
            self.load_faults = count_after(true, self.load_faults);
            return Err(LoadError::Failed);
        }
        self.load(name, limit)
    }

    fn put(&mut self, name: &str, bytes: &[u8]) -> Result<(), PutError>
        ensures answer { PutAnswers None name.now bytes.now self.old.puts self.new.puts result None }
        ensures told { TellsMore None (Put name.now bytes.now result ∷ []) None }
        ensures never_falls { self.old.puts ≤ self.new.puts }
        ensures rises_at_failure { put_failed result ≡ false → self.new.puts ≡ self.old.puts }
        ensures same_load_faults { self.new.loads ≡ self.old.loads }

        // The count rises by one at a fault, and at nothing else.
        ensures counted { self.new.puts ≡ count_after (put_failed result) self.old.puts }

        // What the calls tell says what was put.
        ensures puts { Tell (C.disk self.old.calls) (C.disk self.new.calls) (PutsTo name.now bytes.now result) }
        ensures goes_on { Tell (C.disk self.old.calls) (C.disk self.new.calls) GoesOn }
    {
        let answer = write_file(&mut self.calls, name, bytes);
        let failed = matches!(answer, Err(PutError::Failed));
        self.put_faults = count_after(failed, self.put_faults);
        answer
    }
}

/// Loads a file of at most `limit` bytes.
fn read_file<C: FileCalls>(
    calls: &mut C,
    alloc: Global,
    name: &str,
    limit: u64,
) -> Result<Vec<u8>, LoadError>
    ensures within { IsReadWithin limit result }
    ensures loads { Tell (C.disk calls.old) (C.disk calls.new) (LoadsFrom name.now limit result) }
    ensures stays { Tell (C.disk calls.old) (C.disk calls.new) Stays }
{
    match open_front(calls, alloc, name, limit) {
        Ok((len, _)) if len > limit => Err(LoadError::TooLong(len)),
        Ok((_, bytes)) if bytes.len() as u64 > limit => Err(LoadError::TooLong(bytes.len() as u64)),
        Ok((_, bytes)) => Ok(bytes),
        Err(error) => Err(load_error(&error)),
    }
}

/// The length that the system says of a file, and its first bytes, where that length is within the limit.
fn open_front<C: FileCalls>(
    calls: &mut C,
    alloc: Global,
    name: &str,
    limit: u64,
) -> io::Result<(u64, Vec<u8>)>
    ensures front { Tell (C.disk calls.old) (C.disk calls.new) (IsFrontOf name.now limit result) }
    ensures stays { Tell (C.disk calls.old) (C.disk calls.new) Stays }
{
    let mut file = calls.open(name)?;
    let len = calls.length(&file)?;
    if len > limit {
        return Ok((len, Vec::new(alloc)));
    }
    let bytes = read_front(calls, alloc, &mut file, limit)?;
    Ok((len, bytes))
}

/// The first bytes of an open file, one more than `limit` where it has them.
fn read_front<C: FileCalls>(
    calls: &mut C,
    alloc: Global,
    file: &mut C::File,
    limit: u64,
) -> io::Result<Vec<u8>>
    ensures front { Tell (C.disk calls.old) (C.disk calls.new) (IsFront (C.open_file file.old).rest limit result) }
    ensures stays { Tell (C.disk calls.old) (C.disk calls.new) Stays }
{
    let mut bytes = Vec::new(alloc);
    let mut room = Vec::from_elem(alloc, 0, PIECE)?;
    'pieces: while bytes.len() as u64 <= limit {
        let more = (limit - bytes.len() as u64).saturating_add(1);
        let wanted = more.min(room.len() as u64) as usize;
        let count = read_piece(calls, file, &mut room[..wanted], &mut bytes)?;
        if count == 0 {
            return Ok(bytes);
        }
    }
    Ok(bytes)
}

/// Reads the next bytes of a file to the end of `bytes`, as many as there is room for at most, and answers how many.
fn read_piece<C: FileCalls>(
    calls: &mut C,
    file: &mut C::File,
    room: &mut [u8],
    bytes: &mut Vec<u8>,
) -> io::Result<usize>
    requires { 0 < length room.old }
    ensures same_room { length room.new ≡ length room.old }
    ensures within { IfOk result (λ count. count ≤ length room.old) }
    ensures longer { IfOk result (λ count. length bytes.new.items ≡ length bytes.old.items + count) }
    ensures piece { Tell (C.disk calls.old) (C.disk calls.new)
        (IsPiece (C.open_file file.old) (C.open_file file.new) bytes.old.items bytes.new.items result) }
    ensures stays { Tell (C.disk calls.old) (C.disk calls.new) Stays }
{
    let count = calls.read(file, room)?;
    bytes.extend_from_slice(&room[..count])?;
    Ok(count)
}

/// Makes the file of this name, of these bytes.
fn write_file<C: FileCalls>(calls: &mut C, name: &str, bytes: &[u8]) -> Result<(), PutError>
    ensures puts { Tell (C.disk calls.old) (C.disk calls.new) (PutsTo name.now bytes.now result) }
    ensures goes_on { Tell (C.disk calls.old) (C.disk calls.new) GoesOn }
{
    match create_with(calls, name, bytes) {
        Ok(()) => Ok(()),
        Err(error) => Err(put_error(&error)),
    }
}

/// Makes the file of this name, and writes all of the bytes to it.
fn create_with<C: FileCalls>(calls: &mut C, name: &str, bytes: &[u8]) -> io::Result<()>
    ensures written { Tell (C.disk calls.old) (C.disk calls.new) (IsWritten name.now bytes.now result) }
    ensures goes_on { Tell (C.disk calls.old) (C.disk calls.new) GoesOn }
{
    let mut file = calls.create(name)?;
    let mut rest = bytes;
    'pieces: while !rest.is_empty() {
        let count = calls.write(&mut file, rest)?;
        if count == 0 {
            return Err(io::Error::from(io::ErrorKind::WriteZero));
        }
        rest = &rest[count..];
    }
    Ok(())
}

/// What a load answers that the system refuses.
fn load_error(error: &io::Error) -> LoadError
    ensures { IsLoadError error.now result }
{
    match OutOfMemory::of_io(error) {
        Some(refused) => LoadError::OutOfMemory(refused),
        None => LoadError::Failed,
    }
}

/// What a put answers that the system refuses.
fn put_error(error: &io::Error) -> PutError
    ensures { IsPutError error.now result }
{
    match OutOfMemory::of_io(error) {
        Some(refused) => PutError::OutOfMemory(refused),
        None => PutError::Failed,
    }
}
