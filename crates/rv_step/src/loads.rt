//! Loads.

ghost use Rattle.std.specs.Prelude.{◌≡◌, ◌<◌, ◌%◌, ◌+◌, ◌^◌, ℕ, Option};
ghost use Rattle.std.specs.Option.{option_map};
ghost use Rattle.std.specs.Result.{result_ok};
ghost use Rattle.guest_mem.specs.Memory.{Memory, prot_read, load_at};
ghost use Rattle.rv_decode.specs.Encoded.{HasRegisters};
ghost use Rattle.rv_step.specs.Forms.{loads, outcome, reads, hart_state};
ghost use Rattle.rv_step.specs.Numbers.{extended};
ghost use Rattle.rv_step.specs.inner.Widths.{bytes_loaded, view_of};

use crate::arithmetic::{extended_byte, extended_half};
use crate::registers::{address, retire_with};
use crate::stepped::{SIGSEGV, Stepped};
use crate::width::Load;
use event_costs::{Regs, Touch};
use guest_mem::{Access, GuestMem};
use rv_decode::Instr;

/// `rd` gets the number that was loaded from so many bytes.
#[inline(always)]
#[tactic(auto, unfolding(crate::specs::Forms::retires))]
fn finish(
    regs: &mut Regs,
    instr: Instr,
    address: u32,
    width: u8,
    loaded: Result<u32, Access>,
) -> Stepped
    requires { HasRegisters instr }
    ensures { (m : Memory) (h : Option ℕ) → outcome result regs.new m h
        ≡ reads instr (hart_state regs.old m h) h address width (result_ok loaded) }
{
    match loaded {
        Ok(value) => retire_with(regs, instr.rd, value, Touch::Read(address, width)),
        Err(Access) => Stepped::Trap(SIGSEGV),
    }
}

/// The byte at an address that may be read, with its sign extended.
#[inline(always)]
fn signed_byte(mem: &GuestMem, address: u32) -> Result<u32, Access>
    ensures { result_ok result ≡ option_map (extended 8) (load_at mem.now prot_read address 1) }
{
    Ok(extended_byte(mem.load8(address)?))
}

/// The number of the two bytes from an address on, which may be read, with its sign extended.
#[inline(always)]
fn signed_half(mem: &GuestMem, address: u32) -> Result<u32, Access>
    ensures { result_ok result ≡ option_map (extended 16) (load_at mem.now prot_read address 2) }
{
    Ok(extended_half(mem.load16(address)?))
}

/// The number that a load gives for what it takes at an address.
#[inline(always)]
fn number(mem: &GuestMem, address: u32, load: Load) -> Result<u32, Access>
    ensures { result_ok result ≡ option_map (view_of load) (load_at mem.now prot_read address (bytes_loaded load)) }
{
    match load {
        Load::SignedByte => signed_byte(mem, address),
        Load::SignedHalf => signed_half(mem, address),
        Load::Byte => mem.load8(address),
        Load::Half => mem.load16(address),
        Load::Word => mem.load32(address),
    }
}

/// LB, LH, LW, LBU and LHU.
#[inline(always)]
pub fn load_by(regs: &mut Regs, mem: &GuestMem, instr: Instr, load: Load) -> Stepped
    requires { HasRegisters instr }
    ensures { (h : Option ℕ) → outcome result regs.new mem.now h ≡ loads instr (hart_state regs.old mem.now h)
        (bytes_loaded load) (view_of load) }
{
    let address = address(regs, instr);
    finish(
        regs,
        instr,
        address,
        load.bytes(),
        number(mem, address, load),
    )
}
