//! The fields of an instruction: where a word keeps them, and how they are put into one.

ghost use Rattle.std.specs.Prelude.{◌≡◌, ◌<◌, ◌≤◌, ◌+◌, ◌*◌, ◌/◌, ◌%◌, ◌^◌};
ghost use Rattle.rv_decode.specs.Fields.{field, imm_b, imm_i, imm_j, imm_s, imm_u, twos_complement};
ghost use Rattle.rv_decode.specs.Layout.{instr_of};
ghost use Rattle.rv_decode.specs.Encoded.{HasRegisters, operand_bits};

use crate::instr::{Instr, Op};
use crate::row::Shape;

/// The `len` bits of the word from bit `low` up.
#[inline]
pub fn bits(word: u32, low: u32, len: u32) -> u32
    requires low { low < 32 }
    requires len { len < 32 }
    ensures { result ≡ field low len word }
{
    (word >> low) % (1 << len)
}

/// The register number or shift amount in the five bits from bit `low` up.
#[inline]
fn five_bits(word: u32, low: u32) -> u8
    requires { low < 32 }
    ensures { result ≡ field low 5 word }
{
    ((word >> low) % 32) as u8
}

/// The number in two's complement whose sign bit has the weight `sign`.
#[inline]
pub fn sign_extended(number: u32, sign: u32) -> i32
    requires sign { sign ≤ 2 ^ 20 }
    requires number { number < 2 * sign }
    ensures { result ≡ twos_complement sign number }
{
    if number < sign {
        number as i32
    } else {
        number as i32 - 2 * sign as i32
    }
}

/// The immediate of I (manual 2.3): bits 31 to 20.
#[inline]
fn i_immediate(word: u32) -> i32
    ensures { result ≡ imm_i word }
{
    sign_extended(bits(word, 20, 12), 1 << 11)
}

/// The immediate of S: bits 31 to 25 and 11 to 7.
#[inline]
fn s_immediate(word: u32) -> i32
    ensures { result ≡ imm_s word }
{
    sign_extended((bits(word, 25, 7) << 5) + bits(word, 7, 5), 1 << 11)
}

/// The immediate of B: bit 31, bit 7, bits 30 to 25 and bits 11 to 8, over a 0.
#[inline]
fn b_immediate(word: u32) -> i32
    ensures { result ≡ imm_b word }
{
    let upper = (bits(word, 31, 1) << 12) + (bits(word, 7, 1) << 11);
    sign_extended(
        upper + (bits(word, 25, 6) << 5) + (bits(word, 8, 4) << 1),
        1 << 12,
    )
}

/// The immediate of U: bits 31 to 12, over twelve 0.
#[inline]
fn u_immediate(word: u32) -> i32
    ensures { result ≡ imm_u word }
{
    (bits(word, 12, 20) << 12).cast_signed()
}

/// The immediate of J: bit 31, bits 19 to 12, bit 20 and bits 30 to 21, over a 0.
#[inline]
fn j_immediate(word: u32) -> i32
    ensures { result ≡ imm_j word }
{
    let upper = (bits(word, 31, 1) << 20) + (bits(word, 12, 8) << 12);
    sign_extended(
        upper + (bits(word, 20, 1) << 11) + (bits(word, 21, 10) << 1),
        1 << 20,
    )
}

/// The instruction that the word is where it is laid out by `shape`.
#[inline]
pub fn instr_of(shape: Shape, op: Op, word: u32) -> Instr
    ensures { result ≡ instr_of shape op word }
{
    let with = |rd, rs1, rs2, imm, order| Instr {
        op,
        rd,
        rs1,
        rs2,
        imm,
        order,
    };
    let rd = five_bits(word, 7);
    let rs1 = five_bits(word, 15);
    let rs2 = five_bits(word, 20);
    match shape {
        Shape::R => with(rd, rs1, rs2, 0, 0),
        Shape::I | Shape::Fence => with(rd, rs1, 0, i_immediate(word), 0),
        Shape::S => with(0, rs1, rs2, s_immediate(word), 0),
        Shape::B => with(0, rs1, rs2, b_immediate(word), 0),
        Shape::U => with(rd, 0, 0, u_immediate(word), 0),
        Shape::J => with(rd, 0, 0, j_immediate(word), 0),
        Shape::Shift => with(rd, rs1, 0, i32::from(rs2), 0),
        Shape::Whole => with(0, 0, 0, 0, 0),
        Shape::Atomic => with(rd, rs1, rs2, 0, bits(word, 25, 2) as u8),
    }
}

/// The fields of the instruction at their places in a word that is laid out by `shape`.
pub fn operand_bits(shape: Shape, instr: Instr) -> u32
    requires { HasRegisters instr }
    ensures { result ≡ operand_bits shape instr }
{
    let rd = u32::from(instr.rd) << 7;
    let rs1 = u32::from(instr.rs1) << 15;
    let rs2 = u32::from(instr.rs2) << 20;
    let imm = instr.imm.cast_unsigned();
    match shape {
        Shape::R => rd + rs1 + rs2,
        Shape::I | Shape::Fence => rd + rs1 + (bits(imm, 0, 12) << 20),
        Shape::S => (bits(imm, 0, 5) << 7) + rs1 + rs2 + (bits(imm, 5, 7) << 25),
        Shape::B => {
            let low = (bits(imm, 11, 1) << 7) + (bits(imm, 1, 4) << 8);
            low + rs1 + rs2 + (bits(imm, 5, 6) << 25) + (bits(imm, 12, 1) << 31)
        }
        Shape::U => rd + (bits(imm, 12, 20) << 12),
        Shape::J => {
            let middle = (bits(imm, 12, 8) << 12) + (bits(imm, 11, 1) << 20);
            rd + middle + (bits(imm, 1, 10) << 21) + (bits(imm, 20, 1) << 31)
        }
        Shape::Shift => rd + rs1 + (bits(imm, 0, 5) << 20),
        Shape::Whole => 0,
        Shape::Atomic => rd + rs1 + rs2 + (u32::from(instr.order) << 25),
    }
}
