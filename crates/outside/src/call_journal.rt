//! The calls of a folder and the writes of a sink, kept as data.

ghost use Rattle.std.specs.Prelude.{◌≡◌, ◌∷◌, [], IfOk};
ghost use Rattle.outside.specs.Load.{load_of};
ghost use Rattle.outside.specs.Journal.{Loaded, Put, TellsMore, wrote};
ghost use Rattle.outside.specs.Traced.{call_of, calls_in, wrote_of, writes_in};

use crate::folder::{LoadError, PutError};
use crate::journal::Journal;
use crate::sink::WriteError;
use byte_text::OutOfMemory;
use std::alloc::Global;

/// A call of a folder, with its answer.
#[derive(Debug, Drop)]
pub enum FolderCall {
    /// A load of the file of a name, of at most so many bytes, and what it gave.
    Loaded(String, u64, Result<Vec<u8>, LoadError>),
    /// A put of bytes under a name.
    Put(String, Vec<u8>, Result<(), PutError>),
}

/// A write of a piece, and how many of its bytes were taken.
#[derive(Debug, Drop)]
pub struct SinkWrite {
    pub piece: Vec<u8>,
    pub answer: Result<usize, WriteError>,
}

impl Journal<FolderCall> {
    /// Keeps a load.
    pub fn load(
        &mut self,
        alloc: Global,
        name: &str,
        limit: u64,
        answer: &Result<Vec<u8>, LoadError>,
    )
        ensures { TellsMore (calls_in self.old) (Loaded name.now limit (load_of answer.now) ∷ [])
            (calls_in self.new) }
    {
        self.add(load_entry(alloc, name, limit, answer));
    }

    /// Keeps a put.
    pub fn put(&mut self, alloc: Global, name: &str, bytes: &[u8], answer: Result<(), PutError>)
        ensures { TellsMore (calls_in self.old) (Put name.now bytes.now answer ∷ []) (calls_in self.new) }
    {
        self.add(put_entry(alloc, name, bytes, answer));
    }
}

impl Journal<SinkWrite> {
    /// Keeps a write.
    pub fn write(&mut self, alloc: Global, bytes: &[u8], answer: Result<usize, WriteError>)
        ensures { TellsMore (writes_in self.old) (wrote bytes.now answer ∷ []) (writes_in self.new) }
    {
        self.add(write_entry(alloc, bytes, answer));
    }
}

/// The entry of a load.
fn load_entry(
    alloc: Global,
    name: &str,
    limit: u64,
    answer: &Result<Vec<u8>, LoadError>,
) -> Result<FolderCall, OutOfMemory>
    ensures { IfOk result (λ call. call_of call ≡ Loaded name.now limit (load_of answer.now)) }
{
    let name = String::from_str(alloc, name)?;
    match answer {
        Ok(bytes) => {
            let bytes = Vec::from_slice(alloc, bytes)?;
            Ok(FolderCall::Loaded(name, limit, Ok(bytes)))
        }
        Err(error) => Ok(FolderCall::Loaded(name, limit, Err(*error))),
    }
}

/// The entry of a put.
fn put_entry(
    alloc: Global,
    name: &str,
    bytes: &[u8],
    answer: Result<(), PutError>,
) -> Result<FolderCall, OutOfMemory>
    ensures { IfOk result (λ call. call_of call ≡ Put name.now bytes.now answer) }
{
    let name = String::from_str(alloc, name)?;
    let bytes = Vec::from_slice(alloc, bytes)?;
    Ok(FolderCall::Put(name, bytes, answer))
}

/// The entry of a write.
fn write_entry(
    alloc: Global,
    bytes: &[u8],
    answer: Result<usize, WriteError>,
) -> Result<SinkWrite, OutOfMemory>
    ensures { IfOk result (λ write. wrote_of write ≡ wrote bytes.now answer) }
{
    let piece = Vec::from_slice(alloc, bytes)?;
    Ok(SinkWrite { piece, answer })
}
