//! Jumps and conditional branches.

ghost use Rattle.std.specs.Prelude.{◌≡◌, ◌<◌, ◌%◌, ◌+◌, ◌-◌, ◌^◌, ℕ, Option};
ghost use Rattle.guest_mem.specs.Memory.{Memory};
ghost use Rattle.rv_decode.specs.Encoded.{HasRegisters};
ghost use Rattle.rv_step.specs.Forms.{address, branches, jumps, outcome, hart_state};

use crate::registers::{address, following, immediate, retire, write};
use crate::stepped::{SIGBUS, Stepped};
use event_costs::{Branch, Flow, Regs, Touch};
use rv_decode::{Instr, flow};

/// `rd` gets the address of the next instruction, and control goes to the target.
#[inline(always)]
#[tactic(auto, unfolding(crate::specs::Forms::jumps, crate::specs::Forms::retires))]
pub fn jump(regs: &mut Regs, instr: Instr, target: u32, branch: Branch) -> Stepped
    requires { HasRegisters instr }
    ensures { (m : Memory) (h : Option ℕ) → outcome result regs.new m h
        ≡ jumps instr (hart_state regs.old m h) target branch }
{
    if target % 4 != 0 {
        return Stepped::Trap(SIGBUS);
    }
    let link = following(regs);
    write(regs, instr.rd, link);
    retire(regs, target, flow(instr), Touch::Nothing, branch)
}

/// JALR: the target is that address with bit 0 cleared, and is read before `rd` is written.
#[inline(always)]
pub fn jump_by_register(regs: &mut Regs, instr: Instr) -> Stepped
    requires { HasRegisters instr }
    ensures { (m : Memory) (h : Option ℕ) → let s = hart_state regs.old m h in
        outcome result regs.new m h ≡ jumps instr s (address instr s - address instr s % 2) Branch.Indirect }
{
    let target = address(regs, instr);
    jump(regs, instr, target - target % 2, Branch::Indirect)
}

/// Control goes to the offset from the pc where the branch is taken.
#[inline(always)]
#[tactic(auto, unfolding(crate::specs::Forms::branches, crate::specs::Forms::retires))]
pub fn branch(regs: &mut Regs, instr: Instr, taken: bool) -> Stepped
    ensures { (m : Memory) (h : Option ℕ) → outcome result regs.new m h ≡ branches instr (hart_state regs.old m h) taken }
{
    let mut next = following(regs);
    if taken {
        next = regs.pc.wrapping_add(immediate(instr));
        if next % 4 != 0 {
            return Stepped::Trap(SIGBUS);
        }
    }
    retire(regs, next, Flow::Plain, Touch::Nothing, Branch::Cond(taken))
}
