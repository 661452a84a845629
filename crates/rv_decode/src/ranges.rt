//! The ranges of an instruction's fields, as a test.

ghost use Rattle.std.specs.Prelude.{◌≡◌, ◌≤◌, ◌<◌, ◌^◌, ◌↔◌, IsTrue};
ghost use Rattle.rv_decode.specs.Encoded.{HasRanges, IsAmount, IsInRange, IsMultipleOf, IsWithin};

use crate::instr::{Instr, Op};
use crate::row::{Shape, row_of};

/// Whether the immediate is from `-half` to `half - 1`.
fn is_within(imm: i32, half: u32) -> bool
    requires { half ≤ 2 ^ 31 }
    ensures { IsTrue result ↔ IsWithin half imm }
{
    let bits = imm.cast_unsigned();
    bits < half || u32::MAX - bits < half
}

/// Whether the immediate is even.
fn is_even(imm: i32) -> bool
    ensures { IsTrue result ↔ IsMultipleOf 2 imm }
{
    imm.cast_unsigned() % 2 == 0
}

/// Whether the immediate is a multiple of 4,096.
fn is_upper(imm: i32) -> bool
    ensures { IsTrue result ↔ IsMultipleOf 4096 imm }
{
    imm.cast_unsigned() % 4096 == 0
}

/// Whether the immediate is the amount of a shift.
fn is_amount(imm: i32) -> bool
    ensures { IsTrue result ↔ IsAmount imm }
{
    imm.cast_unsigned() < 32
}

/// Whether the fields but the immediate are below these bounds.
fn is_below(instr: Instr, rd: u8, rs1: u8, rs2: u8, order: u8) -> bool
    ensures { IsTrue result ↔ (instr.rd < rd) × (instr.rs1 < rs1) × (instr.rs2 < rs2) × (instr.order < order) }
{
    instr.rd < rd && instr.rs1 < rs1 && instr.rs2 < rs2 && instr.order < order
}

/// Whether the fields are in the ranges that the shape has for them.
fn has_ranges(shape: Shape, instr: Instr) -> bool
    ensures { IsTrue result ↔ HasRanges shape instr }
{
    let imm = instr.imm;
    match shape {
        Shape::R => is_below(instr, 32, 32, 32, 1) && imm == 0,
        Shape::I | Shape::Fence => is_below(instr, 32, 32, 1, 1) && is_within(imm, 1 << 11),
        Shape::S => is_below(instr, 1, 32, 32, 1) && is_within(imm, 1 << 11),
        Shape::B => is_below(instr, 1, 32, 32, 1) && is_within(imm, 1 << 12) && is_even(imm),
        Shape::U => is_below(instr, 32, 1, 1, 1) && is_upper(imm),
        Shape::J => is_below(instr, 32, 1, 1, 1) && is_within(imm, 1 << 20) && is_even(imm),
        Shape::Shift => is_below(instr, 32, 32, 1, 1) && is_amount(imm),
        Shape::Whole => is_below(instr, 1, 1, 1, 1) && imm == 0,
        Shape::Atomic => is_below(instr, 32, 32, 32, 4) && imm == 0,
    }
}

/// Whether the fields are in the ranges of the instruction's row, so that `encode` takes it.
pub fn is_in_range(instr: Instr) -> bool
    ensures { IsTrue result ↔ IsInRange instr }
{
    has_ranges(row_of(instr.op).shape, instr) && (instr.op != Op::LR || instr.rs2 == 0)
}
