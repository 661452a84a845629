//! The table of the instructions, and the search of a table.

ghost use Rattle.std.specs.Prelude.{◌≡◌, ◌↔◌, ℕ, IsNone, All, AllPairs, Contains, position};
ghost use Rattle.rv_decode.specs.Matching.{Differ, Matches, matches};
ghost use Rattle.rv_decode.specs.Table.{listed_rows, row_of};

use crate::instr::Op;

/// Where a word keeps the fields of an instruction (RISC-V unprivileged manual, 2.2 and 2.3).
#[derive(Clone, Copy, Debug, PartialEq, Eq)]
pub enum Shape {
    R,
    I,
    S,
    B,
    U,
    J,
    /// A shift by a constant, whose amount stands where R has rs2.
    Shift,
    /// FENCE, whose rd, rs1 and immediate are kept as they are.
    Fence,
    /// The whole word is fixed.
    Whole,
    /// R with the ordering bits of an atomic at the foot of funct7.
    Atomic,
}

/// One row: a word whose bits under `mask` are `bits` is the instruction `op`, laid out by `shape`.
#[derive(Clone, Copy, Debug, PartialEq, Eq)]
pub struct Row {
    pub mask: u32,
    pub bits: u32,
    pub op: Op,
    pub shape: Shape,
}

/// The index of the first row that the word matches.
pub fn find<const N: usize>(rows: &[Row; N], word: u32) -> Option<usize>
    ensures first { result ≡ position (matches word) rows.now }
    ensures none { IsNone result ↔ All (λ row. ¬ Matches word row) rows.now }
{
    rows.iter().position(|row| word & row.mask == row.bits)
}

/// The row of an instruction, the one of the table that has its name.
#[inline]
pub fn row_of(op: Op) -> Row
    ensures row { result ≡ row_of op }
    ensures of_the_table { Contains listed_rows result }
    ensures of_the_op { result.op ≡ op }
    ensures only { All (λ row. row.op ≡ op → row ≡ result) listed_rows }
{
    ROWS[op as usize]
}

/// A law of the table: its rows are those that the manual lists.
pub fn rows_are_listed()
    ensures table { ROWS ≡ listed_rows }
    ensures each { All (λ row. row ≡ row_of row.op) listed_rows }
{}

/// A law of the table: each two rows differ in a bit at which both masks look, so no word matches two rows.
pub fn rows_stand_apart()
    ensures rows { AllPairs Differ listed_rows }
    ensures words { (word : ℕ) → AllPairs (λ r s. ¬ (Matches word r × Matches word s)) listed_rows }
{}

/// A row on one line: its mask, its bits, its instruction and its shape.
macro_rules! table_row {
    ($mask:literal, $bits:literal, $op:ident, $shape:ident) => {
        Row {
            mask: $mask,
            bits: $bits,
            op: Op::$op,
            shape: Shape::$shape,
        }
    };
}

/// The rows of RV32I, M and A, in the order of `Op` (RISC-V unprivileged manual, instruction set listings).
pub static ROWS: [Row; 59] = [
    table_row!(0x0000_007f, 0x0000_0037, LUI, U),
    table_row!(0x0000_007f, 0x0000_0017, AUIPC, U),
    table_row!(0x0000_007f, 0x0000_006f, JAL, J),
    table_row!(0x0000_707f, 0x0000_0067, JALR, I),
    table_row!(0x0000_707f, 0x0000_0063, BEQ, B),
    table_row!(0x0000_707f, 0x0000_1063, BNE, B),
    table_row!(0x0000_707f, 0x0000_4063, BLT, B),
    table_row!(0x0000_707f, 0x0000_5063, BGE, B),
    table_row!(0x0000_707f, 0x0000_6063, BLTU, B),
    table_row!(0x0000_707f, 0x0000_7063, BGEU, B),
    table_row!(0x0000_707f, 0x0000_0003, LB, I),
    table_row!(0x0000_707f, 0x0000_1003, LH, I),
    table_row!(0x0000_707f, 0x0000_2003, LW, I),
    table_row!(0x0000_707f, 0x0000_4003, LBU, I),
    table_row!(0x0000_707f, 0x0000_5003, LHU, I),
    table_row!(0x0000_707f, 0x0000_0023, SB, S),
    table_row!(0x0000_707f, 0x0000_1023, SH, S),
    table_row!(0x0000_707f, 0x0000_2023, SW, S),
    table_row!(0x0000_707f, 0x0000_0013, ADDI, I),
    table_row!(0x0000_707f, 0x0000_2013, SLTI, I),
    table_row!(0x0000_707f, 0x0000_3013, SLTIU, I),
    table_row!(0x0000_707f, 0x0000_4013, XORI, I),
    table_row!(0x0000_707f, 0x0000_6013, ORI, I),
    table_row!(0x0000_707f, 0x0000_7013, ANDI, I),
    table_row!(0xfe00_707f, 0x0000_1013, SLLI, Shift),
    table_row!(0xfe00_707f, 0x0000_5013, SRLI, Shift),
    table_row!(0xfe00_707f, 0x4000_5013, SRAI, Shift),
    table_row!(0xfe00_707f, 0x0000_0033, ADD, R),
    table_row!(0xfe00_707f, 0x4000_0033, SUB, R),
    table_row!(0xfe00_707f, 0x0000_1033, SLL, R),
    table_row!(0xfe00_707f, 0x0000_2033, SLT, R),
    table_row!(0xfe00_707f, 0x0000_3033, SLTU, R),
    table_row!(0xfe00_707f, 0x0000_4033, XOR, R),
    table_row!(0xfe00_707f, 0x0000_5033, SRL, R),
    table_row!(0xfe00_707f, 0x4000_5033, SRA, R),
    table_row!(0xfe00_707f, 0x0000_6033, OR, R),
    table_row!(0xfe00_707f, 0x0000_7033, AND, R),
    table_row!(0xfe00_707f, 0x0200_0033, MUL, R),
    table_row!(0xfe00_707f, 0x0200_1033, MULH, R),
    table_row!(0xfe00_707f, 0x0200_2033, MULHSU, R),
    table_row!(0xfe00_707f, 0x0200_3033, MULHU, R),
    table_row!(0xfe00_707f, 0x0200_4033, DIV, R),
    table_row!(0xfe00_707f, 0x0200_5033, DIVU, R),
    table_row!(0xfe00_707f, 0x0200_6033, REM, R),
    table_row!(0xfe00_707f, 0x0200_7033, REMU, R),
    table_row!(0x0000_707f, 0x0000_000f, FENCE, Fence),
    table_row!(0xffff_ffff, 0x0000_0073, ECALL, Whole),
    table_row!(0xffff_ffff, 0x0010_0073, EBREAK, Whole),
    table_row!(0xf9f0_707f, 0x1000_202f, LR, Atomic),
    table_row!(0xf800_707f, 0x1800_202f, SC, Atomic),
    table_row!(0xf800_707f, 0x0800_202f, AMOSWAP, Atomic),
    table_row!(0xf800_707f, 0x0000_202f, AMOADD, Atomic),
    table_row!(0xf800_707f, 0x2000_202f, AMOXOR, Atomic),
    table_row!(0xf800_707f, 0x6000_202f, AMOAND, Atomic),
    table_row!(0xf800_707f, 0x4000_202f, AMOOR, Atomic),
    table_row!(0xf800_707f, 0x8000_202f, AMOMIN, Atomic),
    table_row!(0xf800_707f, 0xa000_202f, AMOMAX, Atomic),
    table_row!(0xf800_707f, 0xc000_202f, AMOMINU, Atomic),
    table_row!(0xf800_707f, 0xe000_202f, AMOMAXU, Atomic),
];
