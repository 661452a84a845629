//! How an instruction hands control on.

ghost use Rattle.std.specs.Prelude.{◌≡◌};
ghost use Rattle.rv_decode.specs.FlowOf.{flow_of, indirect_flow, is_link};

use crate::instr::{Instr, Op};
use event_costs::Flow;

/// Whether the register is one that holds return addresses, x1 or x5.
#[inline(always)]
fn is_link(register: u8) -> bool
    ensures { result ≡ is_link register }
{
    register == 1 || register == 5
}

/// The flow of a JALR by its registers.
#[inline(always)]
fn indirect_flow(rd: u8, rs1: u8) -> Flow
    ensures { result ≡ indirect_flow rd rs1 }
{
    if !is_link(rd) {
        Flow::Jump
    } else if is_link(rs1) && rd != rs1 {
        Flow::Swap
    } else {
        Flow::Call
    }
}

/// The flow of an instruction, by the link register table of the RISC-V unprivileged manual (2.5).
#[inline(always)]
#[tactic(auto, unfolding(crate::specs::FlowOf::flow_of))]
pub fn flow(instr: Instr) -> Flow
    ensures { result ≡ flow_of instr }
{
    match instr.op {
        Op::JAL if is_link(instr.rd) => Flow::Call,
        Op::JAL => Flow::Jump,
        Op::JALR => indirect_flow(instr.rd, instr.rs1),
        _ => Flow::Plain,
    }
}
