//! Stores.

ghost use Rattle.std.specs.Prelude.{◌≡◌, ◌%◌, ◌+◌, ◌^◌, ℕ, if◌then◌else◌, is_ok, OnErr, Option};
ghost use Rattle.guest_mem.specs.Memory.{prot_write, may, store_at, bytes_of};
ghost use Rattle.rv_decode.specs.Encoded.{HasRegisters};
ghost use Rattle.rv_step.specs.Forms.{at, retirement, following, outcome, hart_state, stores};
ghost use Rattle.rv_step.specs.inner.Widths.{bytes_stored};

use crate::registers::{address, following, read, retire};
use crate::stepped::{SIGSEGV, Stepped};
use crate::width::Store;
use event_costs::{Branch, Flow, Regs, Touch};
use guest_mem::{Access, GuestMem};
use rv_decode::Instr;

/// Control goes on after so many bytes were stored.
#[inline(always)]
fn finish(regs: &mut Regs, address: u32, width: u8, stored: Result<(), Access>) -> Stepped
    ensures answer { result ≡ (if is_ok stored
        then retirement regs.old (at regs.old (following regs.old)) Flow.Plain (Touch.Write address width) Branch.Nothing
        else Stepped.Trap 11) }
    ensures after { regs.new ≡ (if is_ok stored then at regs.old (following regs.old) else regs.old) }
{
    if stored.is_err() {
        return Stepped::Trap(SIGSEGV);
    }
    let next = following(regs);
    let touch = Touch::Write(address, width);
    retire(regs, next, Flow::Plain, touch, Branch::Nothing)
}

/// Stores the low bytes of a value at an address.
#[inline(always)]
fn put(mem: &mut GuestMem, address: u32, value: u32, store: Store) -> Result<(), Access>
    ensures allowed { is_ok result ≡ may mem.old prot_write address (bytes_stored store) }
    ensures after { mem.new ≡ store_at mem.old address (bytes_of (bytes_stored store) value) }
    ensures refused { OnErr result (mem.new ≡ mem.old) }
{
    match store {
        Store::Byte => mem.store8(address, value),
        Store::Half => mem.store16(address, value),
        Store::Word => mem.store32(address, value),
    }
}

/// SB, SH and SW.
#[inline(always)]
pub fn store_by(regs: &mut Regs, mem: &mut GuestMem, instr: Instr, store: Store) -> Stepped
    requires { HasRegisters instr }
    ensures { (h : Option ℕ) → outcome result regs.new mem.new h ≡ stores instr (hart_state regs.old mem.old h)
        (bytes_stored store) }
{
    let address = address(regs, instr);
    let stored = put(mem, address, read(regs, instr.rs2), store);
    finish(regs, address, store.bytes(), stored)
}
