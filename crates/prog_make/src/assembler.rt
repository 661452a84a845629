//! Instructions, put one after the other.

ghost use Rattle.std.specs.Prelude.{◌≡◌, ◌+◌, ◌-◌, ◌<◌, ◌^◌, ◌↔◌, [], ◌++◌, IfOk, IfSome, IsSome, OnOk, OnErr};
ghost use Rattle.rv_decode.specs.Encoded.{IsInRange, encode};
ghost use Rattle.prog_make.specs.Code.{end_of, code_of, CanBeAssembled};
ghost use Rattle.prog_make.specs.Encoding.{word_bytes};

use byte_text::OutOfMemory;
use rv_decode::{Instr, encode, is_in_range};
use std::alloc::Global;
use std::marker::Model;

/// Code from an address on. Each instruction takes four bytes.
#[derive(Drop)]
pub struct Assembler {
    base: u32,
    code: Vec<u8>,
}

impl Model for Assembler {
    ghost use Rattle.std.specs.Prelude.{◌+◌, ◌<◌, ◌^◌, length};
    ghost use Rattle.prog_make.specs.Code.{Code};

    ghost Value = { Code };

    ghost view = { λ a. record { base = a.base; bytes = a.code.items } };

    ghost invariant = { λ a. a.base + length a.code.items < 2 ^ 32 };
}

impl Assembler {
    /// No instructions yet; the first one is to stand at `base`.
    pub fn new(alloc: Global, base: u32) -> Assembler
        ensures { result ≡ record { base = base; bytes = [] } }
    {
        Assembler {
            base,
            code: Vec::new(alloc),
        }
    }

    /// Appends an instruction, whose fields have to be in the ranges of its row (`rv_decode::is_in_range`). After a
    /// refusal the code is as before.
    pub fn put(&mut self, instr: Instr) -> Result<(), OutOfMemory>
        requires in_range { IsInRange instr }
        requires room { end_of self.old < 2 ^ 32 - 4 }
        ensures base { self.new.base ≡ self.old.base }
        ensures word { OnOk result (self.new.bytes ≡ self.old.bytes ++ word_bytes (encode instr)) }
        ensures further { OnOk result (end_of self.new ≡ end_of self.old + 4) }
        ensures err { OnErr result (self.new ≡ self.old) }
    {
        self.code.extend_from_slice(&encode(instr).to_le_bytes())?;
        Ok(())
    }

    /// The address of the next instruction: the base and 4 for each instruction put.
    pub fn here(&self) -> u32
        ensures { result ≡ end_of self.now }
    {
        self.base + self.code.len() as u32
    }

    /// The code.
    pub fn finish(self) -> Vec<u8>
        ensures { result.items ≡ self.bytes }
    {
        self.code
    }
}

/// The code of instructions from an address on: nothing where a field of one isn't in the range of its row, or where
/// the code would pass the last address.
#[tactic(auto, unfolding(crate::specs::Code::code_of))]
pub fn assemble(alloc: Global, base: u32, instrs: &[Instr]) -> Result<Option<Vec<u8>>, OutOfMemory>
    ensures some { IfOk result (λ code. IsSome code ↔ CanBeAssembled base instrs.now) }
    ensures code { IfOk result (λ code. IfSome code (λ bytes. bytes.items ≡ code_of instrs.now)) }
{
    let room = (u32::MAX - base) / 4;
    if instrs.len() > room as usize || !instrs.iter().all(|instr| is_in_range(*instr)) {
        return Ok(None);
    }
    let mut assembler = Assembler::new(alloc, base);
    'instrs: for instr in instrs {
        assembler.put(*instr)?;
    }
    Ok(Some(assembler.finish()))
}
