//! How instructions are kept in their table.

ghost use Rattle.std.specs.Prelude.{◌≡◌, ◌+◌, ◌<◌, ◌≤◌, ◌%◌, ◌^◌, ◌⊎◌, ℕ, [], IfOk, IfSome, None, Some, true};
ghost use Rattle.std.specs.Vec.{vec_len};
ghost use Rattle.rv_decode.specs.Encoded.{HasRegisters};
ghost use Rattle.rv_decode.specs.declared.instr.Instr.{Instr as InstrValue};
ghost use Rattle.rv_step.specs.Code.{instruction_at};
ghost use Rattle.rv_step.specs.Place.{place_of};
ghost use Rattle.rv_step.specs.inner.Places.{is_noted};
ghost use Rattle.rv_step.specs.inner.Table.{kept_instruction};

use crate::instr_table::InstrTable;
use crate::kept_instr::KeptInstr;
use guest_mem::GuestMem;
use rv_decode::{Instr, Op, decode};
use std::alloc::{AllocError, Global};

/// How many instructions are kept. Two whose addresses differ by a multiple of four times that share a place.
const PLACES: usize = 65536;

/// ADDI x0, x0, 0.
const NOTHING: Instr = Instr {
    op: Op::ADDI,
    rd: 0,
    rs1: 0,
    rs2: 0,
    imm: 0,
    order: 0,
};

/// The place of an address.
#[inline(always)]
fn place_of(pc: u32) -> usize
    ensures { result ≡ place_of pc }
{
    pc as usize / 4 % PLACES
}

/// What fills a place in which nothing is kept: it has an address of the next place, so that no address finds it.
#[inline(always)]
fn vacant(place: usize) -> KeptInstr
    requires { place < 65536 }
    ensures { ¬ (place_of result.pc ≡ place) }
{
    KeptInstr {
        pc: ((place + 1) % PLACES * 4) as u32,
        instr: NOTHING,
    }
}

impl InstrTable {
    /// Nothing is kept yet. It takes all its memory here.
    pub fn new(alloc: Global) -> Result<InstrTable, AllocError>
        ensures { IfOk result (λ table. (pc : ℕ) → kept_instruction table pc ≡ None) }
    {
        // It leaves each place vacant but that of its own address.
        let found = vacant(0);
        let mut filled = Vec::with_capacity(alloc, PLACES)?;
        filled.push(found.pc).unwrap();
        let mut table = InstrTable {
            places: vec![in alloc; found; PLACES]?,
            filled,
            first: found.pc,
            last: found.pc,
        };
        table.empty();
        Ok(table)
    }

    /// The instruction that is kept for an address, if one is.
    #[inline(always)]
    pub fn kept_instruction(&self, pc: u32) -> Option<Instr>
        ensures kept { result ≡ kept_instruction self.now pc }
        ensures registers { IfSome result HasRegisters }
    {
        let found = &self.places[place_of(pc)];
        if found.pc == pc {
            return Some(found.instr);
        }
        None
    }

    /// Keeps the instruction at an address of this memory, if there is one.
    #[cold]
    #[inline(never)]
    pub fn find(&mut self, mem: &GuestMem, pc: u32)
        requires { kept_instruction self.old pc ≡ None }
        ensures found { kept_instruction self.new pc ≡ instruction_at mem.now pc }
        ensures others { (q : ℕ) (i : InstrValue) → kept_instruction self.new q ≡ Some i
            → (q ≡ pc) ⊎ (kept_instruction self.old q ≡ Some i) }
    {
        let Ok(word) = mem.fetch(pc) else {
            return;
        };
        if let Some(instr) = decode(word) {
            self.keep(KeptInstr { pc, instr });
        }
    }

    /// Keeps what was found.
    fn keep(&mut self, found: KeptInstr)
        ensures kept { kept_instruction self.new found.pc ≡ Some found.instr }
        ensures others { (q : ℕ) (i : InstrValue) → kept_instruction self.new q ≡ Some i
            → (q ≡ found.pc) ⊎ (kept_instruction self.old q ≡ Some i) }
    {
        self.note(found.pc);
        self.first = self.first.min(found.pc);
        self.last = self.last.max(found.pc);
        self.places[place_of(found.pc)] = found;
    }

    /// The place of this address may be filled from here on.
    fn note(&mut self, pc: u32)
        ensures noted { is_noted (place_of pc) self.new.filled.items ≡ true }
        ensures fewer { (q : ℕ) (i : InstrValue) → kept_instruction self.new q ≡ Some i → kept_instruction self.old q ≡ Some i }
    {
        let place = place_of(pc);
        if place_of(self.places[place].pc) == place {
            return;
        }
        self.make_room();
        self.filled.push(pc).unwrap();
    }

    /// There is room to note an address. A place is noted again where it was emptied by a store.
    fn make_room(&mut self)
        ensures room { vec_len self.new.filled < 65536 }
        ensures fewer { (q : ℕ) (i : InstrValue) → kept_instruction self.new q ≡ Some i → kept_instruction self.old q ≡ Some i }
    {
        if self.filled.len() >= PLACES {
            self.empty();
        }
    }

    /// Nothing is kept any more that stands within the four bytes from an address on.
    #[inline(always)]
    pub fn forget_near(&mut self, address: u32)
        ensures fewer { (q : ℕ) (i : InstrValue) → kept_instruction self.new q ≡ Some i → kept_instruction self.old q ≡ Some i }
        ensures apart { (q : ℕ) (i : InstrValue) → q < 2 ^ 32 → q % 4 ≡ 0 → kept_instruction self.new q ≡ Some i
            → (q + 4 ≤ address) ⊎ (address + 4 ≤ q) }
    {
        let offset = address % 4;
        self.forget_word(address - offset);
        if offset != 0 {
            self.forget_word((address - offset).wrapping_add(4));
        }
    }

    /// Nothing is kept any more for this address.
    #[inline(always)]
    fn forget_word(&mut self, pc: u32)
        ensures fewer { (q : ℕ) (i : InstrValue) → kept_instruction self.new q ≡ Some i → kept_instruction self.old q ≡ Some i }
        ensures gone { kept_instruction self.new pc ≡ None }
    {
        let place = place_of(pc);
        if self.places[place].pc == pc {
            self.places[place] = vacant(place);
        }
    }

    /// Nothing is kept any more that stands within so many bytes from an address on.
    #[cold]
    pub fn forget_within(&mut self, address: u32, bytes: u64)
        ensures fewer { (q : ℕ) (i : InstrValue) → kept_instruction self.new q ≡ Some i → kept_instruction self.old q ≡ Some i }
        ensures apart { (q : ℕ) (i : InstrValue) → kept_instruction self.new q ≡ Some i
            → (q + 4 ≤ address) ⊎ (address + bytes ≤ q) }
    {
        let end = u128::from(address) + u128::from(bytes);
        if end <= u128::from(self.first) {
            return;
        }
        if u64::from(self.last) + 4 <= u64::from(address) {
            return;
        }
        self.empty();
    }

    /// Nothing is kept any more: each place is empty that was filled.
    fn empty(&mut self)
        ensures { self.new.filled.items ≡ [] }
    {
        'filled: for at in 0..self.filled.len() {
            let place = place_of(self.filled[at]);
            self.places[place] = vacant(place);
        }
        self.filled.clear();
        self.first = u32::MAX;
        self.last = 0;
    }
}
