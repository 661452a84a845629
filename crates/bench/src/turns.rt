//! Runs a machine whose threads execute a loop of arithmetic.

use crate::memory::pages;
use crate::steps::{ARITHMETIC, CODE, put_words};
use event_costs::{Regs, ThreadNo};
use guest_load::{Guest, Thread};
use guest_mem::{EXECUTE, GuestMem, READ, WRITE};
use guest_sched::{Machine, Turn, Turns};
use std::alloc::Global;

/// Makes as many threads as x8 tells. All of them go on behind these words, where the loop stands.
static MAKE_THREADS: [u32; 7] = [
    0x0004_0e63, // beq x8, x0, .+28
    0x0001_1537, // lui x10, 0x11
    0xf005_0513, // addi x10, x10, -256
    0x0dc0_0893, // addi x17, x0, 220
    0x0000_0073, // ecall
    0xfff4_0413, // addi x8, x8, -1
    0xfe05_14e3, // bne x10, x0, .-24
];

fn code(alloc: Global) -> Option<GuestMem> {
    let mut memory = pages(alloc, CODE, 1, READ | WRITE | EXECUTE)?;
    put_words(&mut memory, CODE, &MAKE_THREADS);
    put_words(&mut memory, CODE + 28, &ARITHMETIC);
    Some(memory)
}

/// A guest that makes so many threads.
fn guest(alloc: Global, threads: u32) -> Option<Guest> {
    let mut regs = Regs {
        pc: CODE,
        x: [0; 32],
    };
    regs.x[8] = threads.saturating_sub(1);
    let thread = Thread {
        no: ThreadNo(1),
        regs,
        clear: 0,
    };
    let threads = Vec::from_slice(alloc, &[thread]).ok()?;
    let mem = code(alloc)?;
    Some(Guest {
        mem,
        threads,
        first_break: 0,
        now_break: 0,
        input: Vec::new(alloc),
        place: 0,
        made: 1,
        steps: 0,
    })
}

/// Makes so many steps, and sums up where they led.
fn run(machine: &mut Machine, steps: u32) -> Option<u32> {
    let mut sum = 0u32;
    for _ in 0..steps {
        if machine.steps() == u64::MAX {
            return None;
        }
        match machine.next() {
            Ok(Turn::Retired(event)) => sum = sum.wrapping_add(event.done.next),
            _ => return None,
        }
    }
    Some(sum)
}

/// `THREADS QUANTUM SEED STEPS`: with the seed 0 there is none.
pub fn turns(alloc: Global, numbers: &[u32]) -> Option<u64> {
    let &[threads, quantum, seed, steps] = numbers else {
        return None;
    };
    if quantum == 0 {
        return None;
    }
    let seed = match seed {
        0 => None,
        _ => Some(u64::from(seed)),
    };
    let guest = guest(alloc, threads)?;
    let mut machine = Machine::new(alloc, guest, Turns { quantum, seed }).ok()?;
    Some(u64::from(run(&mut machine, steps)?))
}
