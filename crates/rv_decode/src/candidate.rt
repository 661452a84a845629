//! The one row that a word can match, by its opcode and its function fields.

ghost use Rattle.std.specs.Prelude.{◌≡◌, ◌<◌, ◌^◌};
ghost use Rattle.rv_decode.specs.inner.Candidate.{candidate_of, immediate_op, register_op};

use crate::instr::Op;
use crate::layout::bits;

/// The conditional branches by funct3.
static BRANCHES: [Option<Op>; 8] = [
    Some(Op::BEQ),
    Some(Op::BNE),
    None,
    None,
    Some(Op::BLT),
    Some(Op::BGE),
    Some(Op::BLTU),
    Some(Op::BGEU),
];

/// The loads by funct3.
static LOADS: [Option<Op>; 8] = [
    Some(Op::LB),
    Some(Op::LH),
    Some(Op::LW),
    None,
    Some(Op::LBU),
    Some(Op::LHU),
    None,
    None,
];

/// The stores by funct3.
static STORES: [Option<Op>; 8] = [
    Some(Op::SB),
    Some(Op::SH),
    Some(Op::SW),
    None,
    None,
    None,
    None,
    None,
];

/// Arithmetic with an immediate by funct3; SRAI shares its funct3 with SRLI.
static IMMEDIATES: [Option<Op>; 8] = [
    Some(Op::ADDI),
    Some(Op::SLLI),
    Some(Op::SLTI),
    Some(Op::SLTIU),
    Some(Op::XORI),
    Some(Op::SRLI),
    Some(Op::ORI),
    Some(Op::ANDI),
];

/// Arithmetic on registers by funct3, where funct7 is 0.
static REGISTERS: [Option<Op>; 8] = [
    Some(Op::ADD),
    Some(Op::SLL),
    Some(Op::SLT),
    Some(Op::SLTU),
    Some(Op::XOR),
    Some(Op::SRL),
    Some(Op::OR),
    Some(Op::AND),
];

/// Arithmetic on registers by funct3, where funct7 is 0x20.
static ALTERNATES: [Option<Op>; 8] = [
    Some(Op::SUB),
    None,
    None,
    None,
    None,
    Some(Op::SRA),
    None,
    None,
];

/// Multiplication and division by funct3, where funct7 is 1.
static PRODUCTS: [Option<Op>; 8] = [
    Some(Op::MUL),
    Some(Op::MULH),
    Some(Op::MULHSU),
    Some(Op::MULHU),
    Some(Op::DIV),
    Some(Op::DIVU),
    Some(Op::REM),
    Some(Op::REMU),
];

/// The atomics by the upper five bits of funct7.
static ATOMICS: [Option<Op>; 32] = [
    Some(Op::AMOADD),
    Some(Op::AMOSWAP),
    Some(Op::LR),
    Some(Op::SC),
    Some(Op::AMOXOR),
    None,
    None,
    None,
    Some(Op::AMOOR),
    None,
    None,
    None,
    Some(Op::AMOAND),
    None,
    None,
    None,
    Some(Op::AMOMIN),
    None,
    None,
    None,
    Some(Op::AMOMAX),
    None,
    None,
    None,
    Some(Op::AMOMINU),
    None,
    None,
    None,
    Some(Op::AMOMAXU),
    None,
    None,
    None,
];

/// The instruction of opcode 0x13 with these function fields.
#[inline]
fn immediate_op(funct3: u32, funct7: u32) -> Option<Op>
    requires { funct3 < 8 }
    ensures { result ≡ immediate_op funct3 funct7 }
{
    if funct3 == 5 && funct7 == 0x20 {
        Some(Op::SRAI)
    } else {
        IMMEDIATES[funct3 as usize]
    }
}

/// The instruction of opcode 0x33 with these function fields.
#[inline]
fn register_op(funct3: u32, funct7: u32) -> Option<Op>
    requires { funct3 < 8 }
    ensures { result ≡ register_op funct3 funct7 }
{
    match funct7 {
        0x00 => REGISTERS[funct3 as usize],
        0x01 => PRODUCTS[funct3 as usize],
        0x20 => ALTERNATES[funct3 as usize],
        _ => None,
    }
}

/// The only instruction whose row the word can match: the row's mask has the last word.
#[inline]
pub fn candidate(word: u32) -> Option<Op>
    ensures { result ≡ candidate_of word }
{
    let funct3 = bits(word, 12, 3);
    let funct7 = bits(word, 25, 7);
    match bits(word, 0, 7) {
        0x37 => Some(Op::LUI),
        0x17 => Some(Op::AUIPC),
        0x6f => Some(Op::JAL),
        0x67 => Some(Op::JALR),
        0x63 => BRANCHES[funct3 as usize],
        0x03 => LOADS[funct3 as usize],
        0x23 => STORES[funct3 as usize],
        0x13 => immediate_op(funct3, funct7),
        0x33 => register_op(funct3, funct7),
        0x0f => Some(Op::FENCE),
        0x73 => Some(if bits(word, 20, 1) == 0 {
            Op::ECALL
        } else {
            Op::EBREAK
        }),
        0x2f => ATOMICS[bits(word, 27, 5) as usize],
        _ => None,
    }
}
