//! Reading and writing registers, and the end of an instruction that retires.

ghost use Rattle.std.specs.Prelude.{◌≡◌, ◌<◌, ◌%◌, ◌+◌, ◌^◌, ℕ, Option, slice_index};
ghost use Rattle.guest_mem.specs.Memory.{Memory};
ghost use Rattle.rv_decode.specs.Encoded.{HasRegisters};
ghost use Rattle.rv_step.specs.Forms.{at, with_register, retirement, following, immediate, outcome, hart_state, computes, passes};

use crate::stepped::Stepped;
use event_costs::{Branch, Done, Flow, Regs, STACK_POINTER, Touch};
use rv_decode::Instr;

/// The value of a register.
#[inline(always)]
pub fn read(regs: &Regs, register: u8) -> u32
    requires { register < 32 }
    ensures { result ≡ slice_index regs.now.x register }
{
    regs.x[usize::from(register)]
}

/// The immediate with its sign extended, as 32 bits.
#[inline(always)]
pub fn immediate(instr: Instr) -> u32
    ensures { result ≡ immediate instr }
{
    instr.imm.cast_unsigned()
}

/// The address in rs1 and the immediate: that of a load or a store, and of JALR but for bit 0.
#[inline(always)]
pub fn address(regs: &Regs, instr: Instr) -> u32
    requires { HasRegisters instr }
    ensures { result ≡ (slice_index regs.now.x instr.rs1 + immediate instr) % 2 ^ 32 }
{
    read(regs, instr.rs1).wrapping_add(immediate(instr))
}

/// The address of the next instruction in memory.
#[inline(always)]
pub fn following(regs: &Regs) -> u32
    ensures { result ≡ following regs.now }
{
    regs.pc.wrapping_add(4)
}

/// Control goes to `next`: the instruction retires.
#[inline(always)]
pub fn retire(regs: &mut Regs, next: u32, flow: Flow, touch: Touch, branch: Branch) -> Stepped
    ensures answer { result ≡ retirement regs.old (at regs.old next) flow touch branch }
    ensures after { regs.new ≡ at regs.old next }
{
    let pc = regs.pc;
    regs.pc = next;
    Stepped::Retired(Done {
        pc,
        next,
        sp: regs.x[STACK_POINTER],
        flow,
        touch,
        branch,
    })
}

/// The register `rd` gets a value, unless it is x0, and control goes on: the instruction, which is no jump, retires.
#[inline(always)]
pub fn retire_with(regs: &mut Regs, rd: u8, value: u32, touch: Touch) -> Stepped
    requires { rd < 32 }
    ensures answer { result ≡ retirement regs.old (with_register regs.old rd value (following regs.old)) Flow.Plain touch
        Branch.Nothing }
    ensures after { regs.new ≡ with_register regs.old rd value (following regs.old) }
{
    write(regs, rd, value);
    let next = following(regs);
    retire(regs, next, Flow::Plain, touch, Branch::Nothing)
}

/// The register `rd` gets a value, unless it is x0.
#[inline(always)]
pub fn write(regs: &mut Regs, rd: u8, value: u32)
    requires { rd < 32 }
    ensures { regs.new ≡ with_register regs.old rd value regs.old.pc }
{
    if rd != 0 {
        regs.x[usize::from(rd)] = value;
    }
}

/// An instruction without another effect than to go on.
#[inline(always)]
#[tactic(auto, unfolding(crate::specs::Forms::passes, crate::specs::Forms::retires))]
pub fn pass(regs: &mut Regs) -> Stepped
    ensures { (m : Memory) (h : Option ℕ) → outcome result regs.new m h ≡ passes (hart_state regs.old m h) }
{
    let next = following(regs);
    retire(regs, next, Flow::Plain, Touch::Nothing, Branch::Nothing)
}

/// The register `rd` gets a value.
#[inline(always)]
#[tactic(auto, unfolding(crate::specs::Forms::computes, crate::specs::Forms::retires))]
pub fn compute(regs: &mut Regs, instr: Instr, value: u32) -> Stepped
    requires { HasRegisters instr }
    ensures { (m : Memory) (h : Option ℕ) → outcome result regs.new m h ≡ computes instr (hart_state regs.old m h) value }
{
    retire_with(regs, instr.rd, value, Touch::Nothing)
}
