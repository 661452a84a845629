//! Instructions by their operands, in the order in which an assembler takes them.

ghost use Rattle.std.specs.Prelude.{◌≡◌, pos, ◌*◌, ◌<◌, ◌^◌};
ghost use Rattle.demo_make.specs.Instructions.{addi, branch, jal, lui, lw, offset, sw};

use prog_make::instruction::{immediate, two_sources, wide};
use rv_decode::{Instr, Op};

pub const X0: u8 = 0;

pub const RA: u8 = 1;

pub const SP: u8 = 2;

pub const T1: u8 = 6;

pub const T2: u8 = 7;

pub const S0: u8 = 8;

pub const S1: u8 = 9;

pub const A0: u8 = 10;

pub const A1: u8 = 11;

pub const A2: u8 = 12;

pub const A3: u8 = 13;

pub const A4: u8 = 14;

pub const A7: u8 = 17;

/// A register and a number.
pub fn addi(rd: u8, rs1: u8, imm: i32) -> Instr
    ensures { result ≡ addi rd rs1 imm }
{
    immediate(Op::ADDI, rd, rs1, imm)
}

/// The upper 20 bits of a register.
pub fn lui(rd: u8, upper: u32) -> Instr
    requires { upper < 2 ^ 19 }
    ensures { result ≡ lui rd upper }
{
    wide(Op::LUI, rd, signed(4096 * upper))
}

/// Loads a word from this many bytes past an address.
pub fn lw(rd: u8, imm: i32, rs1: u8) -> Instr
    ensures { result ≡ lw rd imm rs1 }
{
    immediate(Op::LW, rd, rs1, imm)
}

/// Stores a word at this many bytes past an address.
pub fn sw(rs2: u8, imm: i32, rs1: u8) -> Instr
    ensures { result ≡ sw rs2 imm rs1 }
{
    two_sources(Op::SW, rs1, rs2, imm)
}

/// A branch by this many bytes.
pub fn branch(op: Op, rs1: u8, rs2: u8, offset: i32) -> Instr
    ensures { result ≡ branch op rs1 rs2 offset }
{
    two_sources(op, rs1, rs2, offset)
}

/// A jump by this many bytes.
pub fn jal(rd: u8, offset: i32) -> Instr
    ensures { result ≡ jal rd offset }
{
    wide(Op::JAL, rd, offset)
}

/// A number with a sign.
pub fn signed(number: u32) -> i32
    requires { number < 2 ^ 31 }
    ensures { result ≡ pos number }
{
    number as i32
}

/// The bytes from one address, or number, to another.
pub fn offset(from: u32, to: u32) -> i32
    requires from { from < 2 ^ 31 }
    requires to { to < 2 ^ 31 }
    ensures { result ≡ offset from to }
{
    signed(to) - signed(from)
}
