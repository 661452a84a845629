//! Runs a loop of instructions, step by step.

ghost use Rattle.std.specs.Prelude.{◌≡◌, ◌%◌, slice_index};

use crate::memory::pages;
use event_costs::{Regs, STACK_POINTER};
use guest_mem::{EXECUTE, GuestMem, READ, WRITE};
use rv_step::{Stepped, step};
use std::alloc::Global;

/// Where the code begins.
pub const CODE: u32 = 0x1_0000;
/// Where the data begin.
const DATA: u32 = 0x2_0000;

/// A loop of arithmetic on registers.
pub static ARITHMETIC: [u32; 11] = [
    0x00b5_0533, // add x10, x10, x11
    0x00d5_4633, // xor x12, x10, x13
    0x0036_1693, // slli x13, x12, 3
    0x40a6_8733, // sub x14, x13, x10
    0x00c7_77b3, // and x15, x14, x12
    0x00b7_e833, // or x16, x15, x11
    0x0058_5893, // srli x17, x16, 5
    0x00e8_b933, // sltu x18, x17, x14
    0x0075_8593, // addi x11, x11, 7
    0x02a5_89b3, // mul x19, x11, x10
    0xfd9f_f06f, // jal x0, .-40
];

/// A loop of loads and stores at the address in x10.
static MEMORY: [u32; 10] = [
    0x0005_2583, // lw x11, 0(x10)
    0x0015_8593, // addi x11, x11, 1
    0x00b5_2023, // sw x11, 0(x10)
    0x0015_4603, // lbu x12, 1(x10)
    0x00c5_1323, // sh x12, 6(x10)
    0x0045_2683, // lw x13, 4(x10)
    0x0005_1703, // lh x14, 0(x10)
    0x00d5_04a3, // sb x13, 9(x10)
    0x0085_2783, // lw x15, 8(x10)
    0xfddf_f06f, // jal x0, .-36
];

/// A loop that calls a function, which keeps its return address on the stack.
static CALLS: [u32; 9] = [
    0x00c0_00ef, // jal x1, .+12
    0x0015_0513, // addi x10, x10, 1
    0xff9f_f06f, // jal x0, .-8
    0xff01_0113, // addi x2, x2, -16
    0x0011_2623, // sw x1, 12(x2)
    0x0005_1263, // bne x10, x0, .+4
    0x00c1_2083, // lw x1, 12(x2)
    0x0101_0113, // addi x2, x2, 16
    0x0000_8067, // jalr x0, 0(x1)
];

/// Puts words into memory, where it is mapped.
pub fn put_words(memory: &mut GuestMem, start: u32, words: &[u32]) {
    let mut at = start;
    for word in words {
        if memory.may(at, 4, 0) {
            memory.put_raw(at, &word.to_le_bytes());
        }
        at = at.wrapping_add(4);
    }
}

/// Makes so many steps, and sums up where they led.
fn run(regs: &mut Regs, memory: &mut GuestMem, steps: u32) -> u32
    requires aligned { regs.old.pc % 4 ≡ 0 }
    requires zero { slice_index regs.old.x 0 ≡ 0 }
{
    let mut held = None;
    let mut sum = 0u32;
    'steps: for _ in 0..steps {
        match step(regs, memory, &mut held) {
            Stepped::Retired(done) => sum = sum.wrapping_add(done.next),
            _ => return sum,
        }
    }
    sum
}

fn code_of(name: &str) -> Option<&'static [u32]> {
    match name {
        "arithmetic" => Some(&ARITHMETIC),
        "memory" => Some(&MEMORY),
        "calls" => Some(&CALLS),
        _ => None,
    }
}

/// `LOOP STEPS`: LOOP is `arithmetic`, `memory` or `calls`.
pub fn steps(alloc: Global, word: &str, numbers: &[u32]) -> Option<u64> {
    let &[steps] = numbers else {
        return None;
    };
    let code = code_of(word)?;
    let mut memory = pages(alloc, DATA, 16, READ | WRITE)?;
    memory.map(CODE, 1, READ | EXECUTE).ok()?;
    put_words(&mut memory, CODE, code);
    let mut regs = Regs {
        pc: CODE,
        x: [0; 32],
    };
    regs.x[STACK_POINTER] = DATA + 0x8000;
    regs.x[10] = DATA;
    Some(u64::from(run(&mut regs, &mut memory, steps)))
}
