//! What a program is made of.

use crate::function_part::FunctionPart;
use crate::segment_part::SegmentPart;
use byte_text::{OutOfMemory, Text};
use elf_read::standard::{PF_R, PF_X};
use std::alloc::Global;
use std::marker::Model;

/// The parts of a program.
#[derive(Debug, Drop)]
pub struct ElfParts {
    /// The address of the first instruction, in an executable segment.
    pub entry: u32,
    /// In the order of their program headers; no address lies in two.
    pub segments: Vec<SegmentPart>,
    /// In the order of the symbol table; no address lies in two.
    pub functions: Vec<FunctionPart>,
    /// The text of the file that the functions' lines are in, without a zero byte.
    pub file: Text,
}

impl Model for ElfParts {
    ghost use Rattle.prog_make.specs.Parts.{Parts};

    ghost Value = { Parts };

    ghost view = { λ p. record {
      entry = p.entry;
      segments = p.segments.items;
      functions = p.functions.items;
      file = p.file;
    } };
}

impl ElfParts {
    ghost use Rattle.std.specs.Prelude.{◌≡◌, [], ◌∷◌, IfOk, length, min, ◌-◌, ◌+◌, ◌^◌};
    ghost use Rattle.elf_read.specs.Standard.{pf_r, pf_x};

    /// A program that is entered here and has no segments yet, and no functions.
    pub fn new(alloc: Global, entry: u32) -> ElfParts
        ensures { result ≡ record { entry = entry; segments = []; functions = []; file = [] } }
    {
        ElfParts {
            entry,
            segments: Vec::new(alloc),
            functions: Vec::new(alloc),
            file: Text::new(alloc),
        }
    }

    /// A program of this code alone, which may be read and executed and is entered at its first byte.
    pub fn of_code(alloc: Global, base: u32, code: &[u8]) -> Result<ElfParts, OutOfMemory>
        ensures { IfOk result (λ parts. parts ≡ record {
          entry = base;
          segments = record {
            addr = base;
            bytes = code.now;
            mem_len = min (length code.now) (2 ^ 32 - 1);
            flags = pf_r + pf_x;
          } ∷ [];
          functions = [];
          file = [];
        }) }
    {
        let mem_len = u32::try_from(code.len()).unwrap_or(u32::MAX);
        let segment = SegmentPart::new(alloc, base, code, mem_len, PF_R | PF_X)?;
        let mut parts = ElfParts::new(alloc, base);
        parts.segments.push(segment)?;
        Ok(parts)
    }
}
