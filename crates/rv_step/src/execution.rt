//! One step: fetch, decode, execute.

ghost use Rattle.std.specs.Prelude.{◌≡◌, ◌≤◌, ◌+◌, ◌-◌, ◌%◌, ◌^◌, ℕ, Some, slice_index};
ghost use Rattle.std.specs.Prelude.{IfSome};
ghost use Rattle.std.specs.FinMap as map;
ghost use Rattle.std.specs.Result.{result_ok};
ghost use Rattle.guest_mem.specs.Memory.{Memory, prot_exec, load_at};
ghost use Rattle.rv_decode.specs.declared.instr.Instr.{Instr as InstrValue};
ghost use Rattle.rv_decode.specs.Encoded.{HasRegisters};
ghost use Rattle.rv_step.specs.Causes.{ending, ending_of, flow_at};
ghost use Rattle.rv_step.specs.Code.{IsCodeOf, instruction_at};
ghost use Rattle.rv_step.specs.inner.Stored.{IsStoredBy, may_store};
ghost use Rattle.rv_step.specs.Effects.{effect_of, step_of};
ghost use Rattle.rv_step.specs.Forms.{outcome, hart_state};
ghost use Rattle.rv_step.specs.Promises.{IfRetired, IsWithin, UnlessRetired};

use crate::arithmetic::signed;
use crate::code::Code;
use crate::jumps::{branch, jump, jump_by_register};
use crate::loads::load_by;
use crate::registers::{compute, immediate, pass, read};
use crate::stepped::{SIGSEGV, SIGTRAP, Stepped};
use crate::stores::store_by;
use crate::width::{Load, Store};
use crate::{arithmetic, atomics};
use event_costs::{Branch, Regs, Touch};
use guest_mem::{Access, GuestMem};
use rv_decode::{Instr, Op, decode};

/// Executes an instruction, by its row of the manual.
#[inline(always)]
#[tactic(auto, unfolding(crate::specs::Effects::effect_of))]
fn execute(regs: &mut Regs, mem: &mut GuestMem, held: &mut Option<u32>, instr: Instr) -> Stepped
    requires { HasRegisters instr }
    ensures { outcome result regs.new mem.new held.new ≡ effect_of instr (hart_state regs.old mem.old held.old) }
{
    let a = read(regs, instr.rs1);
    let b = read(regs, instr.rs2);
    let imm = immediate(instr);
    match instr.op {
        Op::LUI => compute(regs, instr, imm),
        Op::AUIPC => {
            let value = regs.pc.wrapping_add(imm);
            compute(regs, instr, value)
        }
        Op::JAL => {
            let target = regs.pc.wrapping_add(imm);
            jump(regs, instr, target, Branch::Nothing)
        }
        Op::JALR => jump_by_register(regs, instr),
        Op::BEQ => branch(regs, instr, a == b),
        Op::BNE => branch(regs, instr, a != b),
        Op::BLT => branch(regs, instr, signed(a) < signed(b)),
        Op::BGE => branch(regs, instr, signed(a) >= signed(b)),
        Op::BLTU => branch(regs, instr, a < b),
        Op::BGEU => branch(regs, instr, a >= b),
        Op::LB => load_by(regs, mem, instr, Load::SignedByte),
        Op::LH => load_by(regs, mem, instr, Load::SignedHalf),
        Op::LW => load_by(regs, mem, instr, Load::Word),
        Op::LBU => load_by(regs, mem, instr, Load::Byte),
        Op::LHU => load_by(regs, mem, instr, Load::Half),
        Op::SB => store_by(regs, mem, instr, Store::Byte),
        Op::SH => store_by(regs, mem, instr, Store::Half),
        Op::SW => store_by(regs, mem, instr, Store::Word),
        Op::ADDI => compute(regs, instr, a.wrapping_add(imm)),
        Op::SLTI => compute(regs, instr, u32::from(signed(a) < instr.imm)),
        Op::SLTIU => compute(regs, instr, u32::from(a < imm)),
        Op::XORI => compute(regs, instr, a ^ imm),
        Op::ORI => compute(regs, instr, a | imm),
        Op::ANDI => compute(regs, instr, a & imm),
        Op::SLLI => compute(regs, instr, a.wrapping_shl(imm)),
        Op::SRLI => compute(regs, instr, a.wrapping_shr(imm)),
        Op::SRAI => compute(regs, instr, arithmetic::shifted_right_signed(a, imm)),
        Op::ADD => compute(regs, instr, a.wrapping_add(b)),
        Op::SUB => compute(regs, instr, arithmetic::difference(a, b)),
        Op::SLL => compute(regs, instr, a.wrapping_shl(b)),
        Op::SLT => compute(regs, instr, u32::from(signed(a) < signed(b))),
        Op::SLTU => compute(regs, instr, u32::from(a < b)),
        Op::XOR => compute(regs, instr, a ^ b),
        Op::SRL => compute(regs, instr, a.wrapping_shr(b)),
        Op::SRA => compute(regs, instr, arithmetic::shifted_right_signed(a, b)),
        Op::OR => compute(regs, instr, a | b),
        Op::AND => compute(regs, instr, a & b),
        Op::MUL => compute(regs, instr, a.wrapping_mul(b)),
        Op::MULH => compute(regs, instr, arithmetic::high_signed(a, b)),
        Op::MULHSU => compute(regs, instr, arithmetic::high_mixed(a, b)),
        Op::MULHU => compute(regs, instr, arithmetic::high_unsigned(a, b)),
        Op::DIV => compute(regs, instr, arithmetic::quotient_signed(a, b)),
        Op::DIVU => compute(regs, instr, arithmetic::quotient_unsigned(a, b)),
        Op::REM => compute(regs, instr, arithmetic::remainder_signed(a, b)),
        Op::REMU => compute(regs, instr, arithmetic::remainder_unsigned(a, b)),
        Op::FENCE => pass(regs),
        Op::ECALL => Stepped::Call,
        Op::EBREAK => Stepped::Trap(SIGTRAP),
        Op::LR => atomics::load_reserved(regs, mem, held, instr),
        Op::SC => atomics::store_conditional(regs, mem, held, instr),
        Op::AMOSWAP | Op::AMOADD | Op::AMOXOR | Op::AMOAND | Op::AMOOR => {
            atomics::swap(regs, mem, instr)
        }
        Op::AMOMIN | Op::AMOMAX | Op::AMOMINU | Op::AMOMAXU => atomics::swap(regs, mem, instr),
    }
}

/// Fetches, decodes and executes the instruction at the pc.
#[inline(always)]
#[tactic(auto, unfolding(crate::specs::Effects::step_of))]
fn execute_next(regs: &mut Regs, mem: &mut GuestMem, held: &mut Option<u32>) -> Stepped
    ensures { outcome result regs.new mem.new held.new ≡ step_of (hart_state regs.old mem.old held.old) }
{
    let Ok(word) = mem.fetch(regs.pc) else {
        return Stepped::Trap(SIGSEGV);
    };
    match decode(word) {
        Some(instr) => execute(regs, mem, held, instr),
        None => Stepped::Unknown(word),
    }
}

/// The instruction at an address, which is kept from here on.
#[inline(always)]
fn instruction_at(mem: &GuestMem, code: &mut Code, pc: u32) -> Option<Instr>
    requires aligned { pc % 4 ≡ 0 }
    requires code { IsCodeOf code.old mem.now }
    ensures instruction { result ≡ instruction_at mem.now pc }
    ensures registers { IfSome result HasRegisters }
    ensures code { IsCodeOf code.new mem.now }
{
    if let Some(instr) = code.kept_instruction(pc) {
        return Some(instr);
    }
    code.find(mem, pc);
    code.kept_instruction(pc)
}

/// The answer where there is no instruction at the pc: the word there is none, or may not be executed.
#[cold]
#[inline(never)]
fn word_at(mem: &GuestMem, pc: u32) -> Result<u32, Access>
    ensures { result_ok result ≡ load_at mem.now prot_exec pc 4 }
{
    mem.fetch(pc)
}

/// Whether an instruction may store.
#[inline(always)]
fn may_store(op: Op) -> bool
    ensures { result ≡ may_store op }
{
    match op {
        Op::SB | Op::SH | Op::SW | Op::SC => true,
        Op::AMOSWAP | Op::AMOADD | Op::AMOXOR | Op::AMOAND | Op::AMOOR => true,
        Op::AMOMIN | Op::AMOMAX | Op::AMOMINU | Op::AMOMAXU => true,
        _ => false,
    }
}

/// What stood where an instruction has stored isn't kept any more.
#[inline(always)]
fn forget_stored(code: &mut Code, stepped: &Stepped)
    ensures fewer { (q : ℕ) (i : InstrValue) → map.get code.new q ≡ Some i → map.get code.old q ≡ Some i }
    ensures stored { (m n : Memory) → IsStoredBy stepped.now m n → IsCodeOf code.old m → IsCodeOf code.new n }
{
    if let Stepped::Retired(done) = stepped {
        match done.touch {
            Touch::Read(address, _) | Touch::Write(address, _) => code.forget_near(address),
            Touch::Nothing => {}
        }
    }
}

/// Executes the instruction at the pc, which is kept from here on.
#[inline(always)]
#[tactic(auto, unfolding(crate::specs::Effects::step_of))]
fn execute_kept(
    regs: &mut Regs,
    mem: &mut GuestMem,
    held: &mut Option<u32>,
    code: &mut Code,
) -> Stepped
    requires aligned { regs.old.pc % 4 ≡ 0 }
    requires code { IsCodeOf code.old mem.old }
    ensures outcome { outcome result regs.new mem.new held.new ≡ step_of (hart_state regs.old mem.old held.old) }
    ensures code { IsCodeOf code.new mem.new }
{
    let pc = regs.pc;
    let Some(instr) = instruction_at(mem, code, pc) else {
        return match word_at(mem, pc) {
            Ok(word) => Stepped::Unknown(word),
            Err(Access) => Stepped::Trap(SIGSEGV),
        };
    };
    let stepped = execute(regs, mem, held, instr);
    if may_store(instr.op) {
        forget_stored(code, &stepped);
    }
    stepped
}

/// Executes the instruction at the pc (RISC-V unprivileged manual, chapters RV32I, M and A). `held` is the address
/// that the last LR took, if it is still reserved.
#[inline]
pub fn step(regs: &mut Regs, mem: &mut GuestMem, held: &mut Option<u32>) -> Stepped
    requires aligned { regs.old.pc % 4 ≡ 0 }
    requires zero { slice_index regs.old.x 0 ≡ 0 }
    // The answer and all that it leaves are those of the instruction's row.
    ensures outcome { outcome result regs.new mem.new held.new ≡ step_of (hart_state regs.old mem.old held.old) }
    // It retires unless the table of causes has another answer for it.
    ensures cause { ending result ≡ ending_of (hart_state regs.old mem.old held.old) }

    // Nothing changes unless the instruction retires.
    ensures registers_stay { UnlessRetired result (regs.new ≡ regs.old) }
    ensures memory_stays { UnlessRetired result (mem.new ≡ mem.old) }
    ensures reservation_stays { UnlessRetired result (held.new ≡ held.old) }

    // The next step may follow.
    ensures still_aligned { regs.new.pc % 4 ≡ 0 }
    ensures still_zero { slice_index regs.new.x 0 ≡ 0 }

    // A retired instruction tells where it was, where control goes, and the stack pointer after it.
    ensures pc { IfRetired result (λ done. done.pc ≡ regs.old.pc) }
    ensures next { IfRetired result (λ done. done.next ≡ regs.new.pc) }
    ensures stack_pointer { IfRetired result (λ done. done.sp ≡ slice_index regs.new.x 2) }
    ensures flow { IfRetired result (λ done. done.flow ≡ flow_at (hart_state regs.old mem.old held.old)) }
    // Its word and its data lie in the address space.
    ensures word_within { IfRetired result (λ done. done.pc + 4 ≤ 2 ^ 32) }
    ensures data_within { IfRetired result (λ done. IsWithin done.touch) }
{
    execute_next(regs, mem, held)
}

/// The same as `step`, with instructions that are kept, all of which stand in the memory before it and after it.
#[inline(always)]
pub fn step_kept(
    regs: &mut Regs,
    mem: &mut GuestMem,
    held: &mut Option<u32>,
    code: &mut Code,
) -> Stepped
    requires aligned { regs.old.pc % 4 ≡ 0 }
    requires zero { slice_index regs.old.x 0 ≡ 0 }
    requires code { IsCodeOf code.old mem.old }
    ensures code { IsCodeOf code.new mem.new }
    // The answer and all that it leaves are those of the instruction's row.
    ensures outcome { outcome result regs.new mem.new held.new ≡ step_of (hart_state regs.old mem.old held.old) }
    // It retires unless the table of causes has another answer for it.
    ensures cause { ending result ≡ ending_of (hart_state regs.old mem.old held.old) }

    // Nothing changes unless the instruction retires.
    ensures registers_stay { UnlessRetired result (regs.new ≡ regs.old) }
    ensures memory_stays { UnlessRetired result (mem.new ≡ mem.old) }
    ensures reservation_stays { UnlessRetired result (held.new ≡ held.old) }

    // The next step may follow.
    ensures still_aligned { regs.new.pc % 4 ≡ 0 }
    ensures still_zero { slice_index regs.new.x 0 ≡ 0 }

    // A retired instruction tells where it was, where control goes, and the stack pointer after it.
    ensures pc { IfRetired result (λ done. done.pc ≡ regs.old.pc) }
    ensures next { IfRetired result (λ done. done.next ≡ regs.new.pc) }
    ensures stack_pointer { IfRetired result (λ done. done.sp ≡ slice_index regs.new.x 2) }
    ensures flow { IfRetired result (λ done. done.flow ≡ flow_at (hart_state regs.old mem.old held.old)) }
    // Its word and its data lie in the address space.
    ensures word_within { IfRetired result (λ done. done.pc + 4 ≤ 2 ^ 32) }
    ensures data_within { IfRetired result (λ done. IsWithin done.touch) }
{
    execute_kept(regs, mem, held, code)
}
