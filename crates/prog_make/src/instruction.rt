//! Instructions by the fields that their layout has (RISC-V unprivileged manual, 2.2 and 2.3); all others are 0.

ghost use Rattle.std.specs.Prelude.{◌≡◌, pos};

use rv_decode::{Instr, Op};

/// An instruction whose fields are all 0.
const NOTHING: Instr = Instr {
    op: Op::ECALL,
    rd: 0,
    rs1: 0,
    rs2: 0,
    imm: 0,
    order: 0,
};

/// A system call.
pub const ECALL: Instr = NOTHING;

/// A jump to the address in x1.
pub const RETURN: Instr = Instr {
    op: Op::JALR,
    rs1: 1,
    ..NOTHING
};

/// An instruction without fields, as EBREAK.
pub fn plain(op: Op) -> Instr
    ensures { result ≡ record { op = op; rd = 0; rs1 = 0; rs2 = 0; imm = pos 0; order = 0 } }
{
    Instr { op, ..NOTHING }
}

/// An instruction with a register and an immediate as sources: a computation, or a load.
pub fn immediate(op: Op, rd: u8, rs1: u8, imm: i32) -> Instr
    ensures { result ≡ record { op = op; rd = rd; rs1 = rs1; rs2 = 0; imm = imm; order = 0 } }
{
    Instr {
        op,
        rd,
        rs1,
        imm,
        ..NOTHING
    }
}

/// A computation of two registers.
pub fn register(op: Op, rd: u8, rs1: u8, rs2: u8) -> Instr
    ensures { result ≡ record { op = op; rd = rd; rs1 = rs1; rs2 = rs2; imm = pos 0; order = 0 } }
{
    Instr {
        op,
        rd,
        rs1,
        rs2,
        ..NOTHING
    }
}

/// A branch, or a store of rs2 at the address in rs1 and the immediate.
pub fn two_sources(op: Op, rs1: u8, rs2: u8, imm: i32) -> Instr
    ensures { result ≡ record { op = op; rd = 0; rs1 = rs1; rs2 = rs2; imm = imm; order = 0 } }
{
    Instr {
        op,
        rs1,
        rs2,
        imm,
        ..NOTHING
    }
}

/// LUI, AUIPC or JAL.
pub fn wide(op: Op, rd: u8, imm: i32) -> Instr
    ensures { result ≡ record { op = op; rd = rd; rs1 = 0; rs2 = 0; imm = imm; order = 0 } }
{
    Instr {
        op,
        rd,
        imm,
        ..NOTHING
    }
}

/// An atomic access at the address in rs1, with its ordering bits: 2 for acquire and 1 for release.
pub fn atomic(op: Op, rd: u8, rs1: u8, rs2: u8, order: u8) -> Instr
    ensures { result ≡ record { op = op; rd = rd; rs1 = rs1; rs2 = rs2; imm = pos 0; order = order } }
{
    Instr {
        op,
        rd,
        rs1,
        rs2,
        order,
        ..NOTHING
    }
}
