//! Instructions that were found before, by where they stand in a guest's memory.

ghost use Rattle.std.specs.Prelude.{◌≡◌, ◌+◌, ◌<◌, ◌≤◌, ◌%◌, ◌^◌, ◌⊎◌, ℕ, IfOk, IfSome, None, Some};
ghost use Rattle.std.specs.FinMap as map;
ghost use Rattle.rv_decode.specs.Encoded.{HasRegisters};
ghost use Rattle.rv_decode.specs.declared.instr.Instr.{Instr as InstrValue};
ghost use Rattle.rv_step.specs.Code.{instruction_at};

use crate::instr_table::InstrTable;
use guest_mem::GuestMem;
use rv_decode::Instr;
use std::alloc::{AllocError, Global};
use std::marker::Model;

/// The instructions of a guest's memory that were found by their addresses. They are kept until memory changes where
/// they stand: a step sees to it, and `forget_within` is to be called after any other change. Contracts see it as the
/// map from each address to what is kept for it.
#[derive(Debug, Drop)]
pub struct Code {
    table: InstrTable,
}

impl Model for Code {
    ghost use Rattle.std.specs.Coded.{coded_ℕ};
    ghost use Rattle.std.specs.FinMap as map;
    ghost use Rattle.std.specs.Ordering.{nat_cmp};
    ghost use Rattle.rv_decode.specs.declared.instr.Instr.{Instr as InstrValue};
    ghost use Rattle.rv_decode.specs.contracts.instr.Instr.{the_row};

    ghost Value = { map.FinMap nat_cmp InstrValue };

    ghost coded = { map.code coded_ℕ the_row.coded };

    ghost use Rattle.rv_step.specs.inner.Table.{code_of};

    ghost view = { λ c. code_of c.table };
}

impl Code {
    /// Nothing is kept yet. It takes all its memory here.
    pub fn new(alloc: Global) -> Result<Code, AllocError>
        ensures { IfOk result (λ code. (pc : ℕ) → map.get code pc ≡ None) }
    {
        Ok(Code {
            table: InstrTable::new(alloc)?,
        })
    }

    /// The instruction that is kept for an address, if one is.
    #[inline(always)]
    pub fn kept_instruction(&self, pc: u32) -> Option<Instr>
        ensures kept { result ≡ map.get self.now pc }
        ensures registers { IfSome result HasRegisters }
    {
        self.table.kept_instruction(pc)
    }

    /// Keeps the instruction at an address of this memory, if there is one.
    #[inline(always)]
    pub fn find(&mut self, mem: &GuestMem, pc: u32)
        requires { map.get self.old pc ≡ None }
        ensures found { map.get self.new pc ≡ instruction_at mem.now pc }
        ensures others { (q : ℕ) (i : InstrValue) → map.get self.new q ≡ Some i
            → (q ≡ pc) ⊎ (map.get self.old q ≡ Some i) }
    {
        self.table.find(mem, pc);
    }

    /// Nothing is kept any more that stands within the four bytes from an address on.
    #[inline(always)]
    pub fn forget_near(&mut self, address: u32)
        ensures fewer { (q : ℕ) (i : InstrValue) → map.get self.new q ≡ Some i → map.get self.old q ≡ Some i }
        ensures apart { (q : ℕ) (i : InstrValue) → q < 2 ^ 32 → q % 4 ≡ 0 → map.get self.new q ≡ Some i
            → (q + 4 ≤ address) ⊎ (address + 4 ≤ q) }
    {
        self.table.forget_near(address);
    }

    /// Nothing is kept any more that stands within so many bytes from an address on.
    #[inline(always)]
    pub fn forget_within(&mut self, address: u32, bytes: u64)
        ensures fewer { (q : ℕ) (i : InstrValue) → map.get self.new q ≡ Some i → map.get self.old q ≡ Some i }
        ensures apart { (q : ℕ) (i : InstrValue) → map.get self.new q ≡ Some i
            → (q + 4 ≤ address) ⊎ (address + bytes ≤ q) }
    {
        self.table.forget_within(address, bytes);
    }
}
