//! Puts of parts.

ghost use Rattle.std.specs.Prelude.{◌≡◌, ◌≤◌};
ghost use Rattle.outside.specs.Outside.{shelf_of};
ghost use Rattle.cg_format.specs.Part.{AreKnown, part_text};
ghost use Rattle.part_dump.specs.Dumps.{Dumps};
ghost use Rattle.part_dump.specs.Files.{part_name};

use crate::name::part_name;
use arc_costs::TableRows;
use byte_text::{OutOfMemory, Text};
use cg_format::{PartHead, write_part};
use outside::{Folder, PutError};
use std::alloc::Global;
use sym_map::SymMap;
use thiserror::Error;

/// Why a part wasn't put.
#[derive(Clone, Copy, Debug, PartialEq, Eq, Error)]
pub enum DumpError {
    #[error("cannot write the part")]
    PutFault,
    #[error("out of memory")]
    OutOfMemory(OutOfMemory),
}

/// Puts the text of a part under its name, and answers its length in bytes. A fault comes only from the folder. After a
/// refusal that one name may hold anything or be absent.
pub fn dump_text<F: Folder>(
    alloc: Global,
    base: &str,
    head: &PartHead,
    text: &Text,
    folder: &mut F,
) -> Result<u64, DumpError>
    ensures answer { Dumps (part_name base.now head.now.part head.now.thread.0) text.now
        (shelf_of F.Folder folder.old) (F.put_faults folder.old) result
        (shelf_of F.Folder folder.new) (F.put_faults folder.new) }
    ensures never_falls { F.put_faults folder.old ≤ F.put_faults folder.new }
    ensures same_load_faults { F.load_faults folder.new ≡ F.load_faults folder.old }
{
    let name = match part_name(alloc, base, head.part, head.thread) {
        Ok(name) => name,
        Err(refused) => return Err(DumpError::OutOfMemory(refused)),
    };
    match folder.put(name.as_str(), text.as_bytes()) {
        Ok(()) => Ok(text.len() as u64),
        Err(PutError::Failed) => Err(DumpError::PutFault),
        Err(PutError::OutOfMemory(refused)) => Err(DumpError::OutOfMemory(refused)),
    }
}

/// Writes a part of these rows and puts it, as `dump_text` does. Each function and file of the rows is one of the map.
pub fn dump<F: Folder>(
    alloc: Global,
    base: &str,
    head: &PartHead,
    rows: &TableRows,
    syms: &SymMap,
    folder: &mut F,
) -> Result<u64, DumpError>
    requires { AreKnown syms.now rows.now }
    ensures answer { Dumps (part_name base.now head.now.part head.now.thread.0) (part_text head.now rows.now syms.now)
        (shelf_of F.Folder folder.old) (F.put_faults folder.old) result
        (shelf_of F.Folder folder.new) (F.put_faults folder.new) }
    ensures never_falls { F.put_faults folder.old ≤ F.put_faults folder.new }
    ensures same_load_faults { F.load_faults folder.new ≡ F.load_faults folder.old }
{
    match write_part(alloc, head, rows, syms) {
        Ok(text) => dump_text(alloc, base, head, &text, folder),
        Err(refused) => Err(DumpError::OutOfMemory(refused)),
    }
}
