//! The map of a program's functions and lines.

use crate::lines::rows_of;
use elf_read::read;
use std::alloc::Global;
use sym_map::{SymMap, build};

/// Where each program begins.
pub const BASE: u32 = 0x1_0000;

/// The map of the program of a file.
pub fn map_of(alloc: Global, file: &[u8]) -> Option<SymMap> {
    let elf = read(alloc, file).ok()?;
    let rows = rows_of(alloc, elf.content(b".debug_line"), b"")?;
    build(alloc, &elf, &rows).ok()
}
