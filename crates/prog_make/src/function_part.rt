//! A function of a program that is to be made.

ghost use Rattle.std.specs.Prelude.{◌≡◌, IfOk};

use byte_text::{OutOfMemory, Text};
use std::alloc::Global;

/// A function: code of one executable segment, with a name.
#[derive(Debug, Drop)]
pub struct FunctionPart {
    /// Not empty, without a zero byte, and no name that begins with `$` or `.L`.
    pub name: Text,
    /// The address of the first instruction, a multiple of 4.
    pub addr: u32,
    /// The bytes of the code, a multiple of 4 that isn't 0.
    pub size: u32,
    /// The line of the first instruction, counted from 1, where each further instruction is a line further; 0 for a
    /// function without lines.
    pub first_line: u32,
}

impl FunctionPart {
    /// A function of this name.
    pub fn new(
        alloc: Global,
        name: &[u8],
        addr: u32,
        size: u32,
        first_line: u32,
    ) -> Result<FunctionPart, OutOfMemory>
        ensures { IfOk result (λ f. f ≡ record { name = name.now; addr = addr; size = size; first_line = first_line }) }
    {
        Ok(FunctionPart {
            name: Text::from_bytes(alloc, name)?,
            addr,
            size,
            first_line,
        })
    }
}
