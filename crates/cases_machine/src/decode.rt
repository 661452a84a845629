//! Words of instructions (RISC-V unprivileged manual, 2.2, 2.3 and the instruction set listings).

use crate::line::{Line, number};
use crate::scene::Scene;
use rv_decode::{Instr, Op, ROWS, decode, encode, find, flow, is_in_range, row_of};
use std::{fmt, io};

/// The scene of words, in which nothing lasts.
#[derive(Drop)]
pub struct Words;

impl Scene for Words {
    /// A line is a word, whatever stands behind it; `beside` and a word; `ends` and two words of one instruction, in
    /// which each field is least and greatest; or `walk`.
    fn follow(&mut self, rt: &HostRuntime, line: &Line) -> io::Result<()> {
        let [first, second, ..] = line.numbers;
        match line.word {
            "beside" => tell_beside(rt, first),
            "ends" => tell_ends(rt, decode(first), decode(second)),
            "walk" => walk(rt),
            word => tell_word(rt, number(word)),
        }
    }
}

/// An instruction: its name, rd, rs1, rs2, the immediate and the ordering bits.
#[derive(Drop)]
struct Fields(Instr);

impl fmt::Display for Fields {
    fn fmt<W: fmt::Write>(&self, f: &mut fmt::Formatter<W>) -> fmt::Result {
        let Instr {
            op,
            rd,
            rs1,
            rs2,
            imm,
            order,
        } = self.0;
        write!(f, "{op:?} {rd} {rs1} {rs2} {imm} {order}")
    }
}

/// Whether a search of the whole table finds the row that decoding finds.
fn agrees(word: u32) -> bool {
    match (decode(word), find(&ROWS, word)) {
        (None, None) => true,
        (Some(instr), Some(place)) => match ROWS.get(place) {
            Some(row) => row.op == instr.op,
            None => false,
        },
        _ => false,
    }
}

/// Tells the instruction of a word, its flow, and the word that it is encoded as.
fn tell_word(rt: &HostRuntime, word: u32) -> io::Result<()> {
    match decode(word) {
        _ if !agrees(word) => println!(rt; "differs"),
        None => println!(rt; "no row"),
        Some(instr) => {
            println!(rt;
                "{} {:?} {:#010x}",
                Fields(instr),
                flow(instr),
                encode(instr)
            )
        }
    }
}

/// The bits of a word by whose change it is not this instruction any more.
fn fixed_bits(word: u32, op: Op) -> u32 {
    let mut fixed = 0;
    for bit in 0..32u32 {
        let beside = word ^ (1u32 << bit);
        match decode(beside) {
            Some(instr) if instr.op == op => {}
            _ => fixed |= 1u32 << bit,
        }
    }
    fixed
}

/// Tells the bits and the mask of a word's row, and which bits can't be changed.
fn tell_beside(rt: &HostRuntime, word: u32) -> io::Result<()> {
    let Some(instr) = decode(word) else {
        return println!(rt; "no row");
    };
    let row = row_of(instr.op);
    println!(rt;
        "{:?} {:#010x} {:#010x} {:#010x}",
        row.op,
        row.bits,
        row.mask,
        fixed_bits(word, instr.op)
    )
}

/// The instruction with the fields of `greatest` where the bit of `choice` is set, and else of `least`.
fn chosen(least: Instr, greatest: Instr, choice: u32) -> Instr {
    Instr {
        op: least.op,
        rd: one_of(least.rd, greatest.rd, choice & 1),
        rs1: one_of(least.rs1, greatest.rs1, choice & 2),
        rs2: one_of(least.rs2, greatest.rs2, choice & 4),
        imm: if choice & 8 == 0 {
            least.imm
        } else {
            greatest.imm
        },
        order: one_of(least.order, greatest.order, choice & 16),
    }
}

fn one_of(least: u8, greatest: u8, bit: u32) -> u8 {
    if bit == 0 { least } else { greatest }
}

/// Whether an instruction has a word, which is decoded to it.
fn comes_back(instr: Instr) -> bool {
    is_in_range(instr) && decode(encode(instr)) == Some(instr)
}

/// Tells two instructions, and how many of the 32 that have the fields of the one or the other come back.
fn tell_ends(rt: &HostRuntime, least: Option<Instr>, greatest: Option<Instr>) -> io::Result<()> {
    let (Some(least), Some(greatest)) = (least, greatest) else {
        return println!(rt; "no row");
    };
    let mut back = 0u32;
    for choice in 0..32u32 {
        if comes_back(chosen(least, greatest, choice)) {
            back = back.wrapping_add(1);
        }
    }
    println!(rt;
        "{} to {}, {back} come back",
        Fields(least),
        Fields(greatest)
    )
}

/// Tells how many words of each opcode with one or two further bits have a row.
fn walk(rt: &HostRuntime) -> io::Result<()> {
    let mut decoded = 0u32;
    let mut differ = 0u32;
    for opcode in 0..128u32 {
        for high in 7..32u32 {
            for low in 7..32u32 {
                let word = opcode | 1u32 << high | 1u32 << low;
                decoded = decoded.wrapping_add(u32::from(decode(word).is_some()));
                differ = differ.wrapping_add(u32::from(!agrees(word)));
            }
        }
    }
    println!(rt; "{decoded} have a row, {differ} differ")
}
