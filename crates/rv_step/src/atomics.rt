//! Atomics: each on the aligned word at the address in rs1.

ghost use Rattle.std.specs.Prelude.{◌≡◌, ◌%◌, ◌+◌, ◌^◌, ℕ, Option};
ghost use Rattle.rv_decode.specs.Encoded.{HasRegisters};
ghost use Rattle.rv_step.specs.Forms.{is_held, outcome, reserves, hart_state, stores_held, swaps};
ghost use Rattle.rv_step.specs.inner.Combined.{combined_of};

use crate::arithmetic::signed;
use crate::registers::{read, retire_with};
use crate::stepped::{SIGBUS, SIGSEGV, Stepped};
use event_costs::{Regs, Touch};
use guest_mem::{Access, GuestMem};
use rv_decode::{Instr, Op};

/// LR: `rd` gets the word, and the address is held.
#[inline(always)]
#[tactic(auto, unfolding(crate::specs::Forms::reserves, crate::specs::Forms::retires))]
pub fn load_reserved(
    regs: &mut Regs,
    mem: &GuestMem,
    held: &mut Option<u32>,
    instr: Instr,
) -> Stepped
    requires { HasRegisters instr }
    ensures { outcome result regs.new mem.now held.new ≡ reserves instr (hart_state regs.old mem.now held.old) }
{
    let address = read(regs, instr.rs1);
    if address % 4 != 0 {
        return Stepped::Trap(SIGBUS);
    }
    match mem.load32(address) {
        Ok(value) => {
            *held = Some(address);
            retire_with(regs, instr.rd, value, Touch::Read(address, 4))
        }
        Err(Access) => Stepped::Trap(SIGSEGV),
    }
}

/// Whether the reservation is for this address.
#[inline(always)]
fn is_held(held: &Option<u32>, address: u32) -> bool
    ensures { result ≡ is_held held.now address }
{
    match held {
        Some(reserved) => *reserved == address,
        None => false,
    }
}

/// SC: where the address is held the word is stored and `rd` gets 0, else `rd` gets 1.
#[inline(always)]
#[tactic(auto, unfolding(crate::specs::Forms::stores_held, crate::specs::Forms::retires))]
pub fn store_conditional(
    regs: &mut Regs,
    mem: &mut GuestMem,
    held: &mut Option<u32>,
    instr: Instr,
) -> Stepped
    requires { HasRegisters instr }
    ensures { outcome result regs.new mem.new held.new ≡ stores_held instr (hart_state regs.old mem.old held.old) }
{
    let address = read(regs, instr.rs1);
    if address % 4 != 0 {
        return Stepped::Trap(SIGBUS);
    }
    if !is_held(held, address) {
        *held = None;
        return retire_with(regs, instr.rd, 1, Touch::Nothing);
    }
    match mem.store32(address, read(regs, instr.rs2)) {
        Ok(()) => {
            *held = None;
            retire_with(regs, instr.rd, 0, Touch::Write(address, 4))
        }
        Err(Access) => Stepped::Trap(SIGSEGV),
    }
}

/// What an AMO puts in place of the old word; any other instruction puts the new word.
#[inline(always)]
fn combined(op: Op, old: u32, word: u32) -> u32
    ensures { result ≡ combined_of op old word }
{
    match op {
        Op::AMOADD => old.wrapping_add(word),
        Op::AMOXOR => old ^ word,
        Op::AMOAND => old & word,
        Op::AMOOR => old | word,
        Op::AMOMIN => {
            if signed(old) < signed(word) {
                old
            } else {
                word
            }
        }
        Op::AMOMAX => {
            if signed(old) < signed(word) {
                word
            } else {
                old
            }
        }
        Op::AMOMINU => old.min(word),
        Op::AMOMAXU => old.max(word),
        _ => word,
    }
}

/// AMO: the word is replaced by what it and rs2 give, and `rd` gets the old one.
#[inline(always)]
#[tactic(auto, unfolding(crate::specs::Forms::swaps, crate::specs::Forms::retires))]
pub fn swap(regs: &mut Regs, mem: &mut GuestMem, instr: Instr) -> Stepped
    requires { HasRegisters instr }
    ensures { (h : Option ℕ) → outcome result regs.new mem.new h ≡ swaps instr (hart_state regs.old mem.old h)
        (combined_of instr.op) }
{
    let address = read(regs, instr.rs1);
    if address % 4 != 0 {
        return Stepped::Trap(SIGBUS);
    }
    let Ok(old) = mem.load32(address) else {
        return Stepped::Trap(SIGSEGV);
    };
    let word = combined(instr.op, old, read(regs, instr.rs2));
    match mem.store32(address, word) {
        Ok(()) => retire_with(regs, instr.rd, old, Touch::Read(address, 4)),
        Err(Access) => Stepped::Trap(SIGSEGV),
    }
}
