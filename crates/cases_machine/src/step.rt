//! Single steps (RISC-V unprivileged manual, chapters RV32I, M and A).

use crate::answer::Answer;
use crate::line::{Line, number};
use crate::memory::answer;
use crate::scene::Scene;
use event_costs::{Branch, Done, Regs, Touch};
use guest_mem::GuestMem;
use rv_step::{Stepped, step};
use script_lines::any_number;
use std::alloc::Global;
use std::io;

/// A hart, its memory, and what a line says of them.
#[derive(Drop)]
pub struct Hart {
    memory: GuestMem,
    regs: Regs,
    held: Option<u32>,
    /// Each register holds this times its number where a line does not name it.
    filler: u32,
    /// The address of eight bytes that are told after each step.
    watched: Option<u32>,
}

impl Scene for Hart {
    /// `filler` has a word. `step` has the word of an instruction and what it finds, as `pc=0x10000`, `x10=7`,
    /// `held=0x20000` for the reservation, and `0x20000=7` for the eight bytes from there on; `then` has a word alone,
    /// and is the step after the one before. What stands behind `;` is a note. Other lines are calls on the memory.
    fn follow(&mut self, rt: &HostRuntime, line: &Line) -> io::Result<()> {
        let [first, ..] = line.numbers;
        match line.word {
            "step" => {
                self.find_all(line.rest);
                self.make(rt, first)
            }
            "then" => self.make(rt, first),
            "filler" => {
                self.filler = first;
                println!(rt; "{}", Answer::Done)
            }
            _ => println!(rt; "{}", answer(&mut self.memory, line)),
        }
    }
}

impl Hart {
    pub fn new(alloc: Global) -> Hart {
        Hart {
            memory: GuestMem::new(alloc),
            regs: filled(0),
            held: None,
            filler: 0,
            watched: None,
        }
    }

    /// Sets all that a step finds.
    fn find_all(&mut self, line: &str) {
        let (found, _) = line.split_once(" ;").unwrap_or((line, ""));
        self.regs = filled(self.filler);
        self.held = None;
        for part in found.split_whitespace() {
            if let Some((key, value)) = part.split_once('=') {
                self.find(key, any_number(value));
            }
        }
    }

    fn find(&mut self, key: &str, value: u64) {
        let low = (value % 0x1_0000_0000) as u32;
        match key {
            "pc" => self.regs.pc = low,
            "held" => self.held = Some(low),
            _ => match key.strip_prefix('x') {
                Some(register) => self.set(number(register) as usize, low),
                None => self.put(number(key), low, (value >> 32) as u32),
            },
        }
    }

    fn set(&mut self, register: usize, value: u32) {
        if let Some(x) = self.regs.x.get_mut(register) {
            *x = value;
        }
    }

    /// Puts eight bytes, which are watched.
    fn put(&mut self, addr: u32, low: u32, high: u32) {
        let _ = self.memory.store32(addr, low);
        let _ = self.memory.store32(addr.wrapping_add(4), high);
        self.watched = Some(addr);
    }

    /// Makes the step of a word at the pc, and prints all that changed.
    fn make(&mut self, rt: &HostRuntime, word: u32) -> io::Result<()> {
        if self.memory.may(self.regs.pc, 4, 0) {
            self.memory.put_raw(self.regs.pc, &word.to_le_bytes());
        }
        if self.regs.pc % 4 != 0 || self.regs.x[0] != 0 {
            return println!(rt; "{}", Answer::NotMade);
        }
        let before = self.regs;
        let stepped = step(&mut self.regs, &mut self.memory, &mut self.held);
        print_stepped(rt, &stepped)?;
        print_changes(rt, &before, &self.regs)?;
        self.print_watched(rt)
    }

    /// Prints the bytes that are watched, and the reservation.
    fn print_watched(&self, rt: &HostRuntime) -> io::Result<()> {
        if let Some(addr) = self.watched {
            let low = self.memory.load32(addr).unwrap_or(0);
            let high = self.memory.load32(addr.wrapping_add(4)).unwrap_or(0);
            print!(rt; " mem={:#x}", u64::from(high) << 32 | u64::from(low))?;
        }
        if let Some(held) = self.held {
            print!(rt; " held={held:#x}")?;
        }
        println!(rt)
    }
}

/// Registers of which each holds so many times its number.
fn filled(filler: u32) -> Regs {
    let mut x = [0; 32];
    for number in 0..32u32 {
        x[number as usize] = filler.wrapping_mul(number);
    }
    Regs { pc: 0, x }
}

fn print_stepped(rt: &HostRuntime, stepped: &Stepped) -> io::Result<()> {
    match stepped {
        Stepped::Retired(done) => print_done(rt, done),
        Stepped::Call => print!(rt; "call:"),
        Stepped::Trap(signal) => print!(rt; "trap {signal}:"),
        Stepped::Unknown(word) => print!(rt; "unknown {word:#x}:"),
    }
}

/// Prints where an instruction was, where control goes and how, the stack pointer, and what it touches.
fn print_done(rt: &HostRuntime, done: &Done) -> io::Result<()> {
    print!(rt;
        "{:?} {:#x} to {:#x}, sp {:#x}",
        done.flow, done.pc, done.next, done.sp
    )?;
    match done.touch {
        Touch::Nothing => {}
        Touch::Read(addr, len) => print!(rt; ", reads {len} at {addr:#x}")?,
        Touch::Write(addr, len) => print!(rt; ", writes {len} at {addr:#x}")?,
    }
    print!(rt; "{}", branch(done.branch))
}

fn branch(branch: Branch) -> &'static str {
    match branch {
        Branch::Nothing => ":",
        Branch::Cond(true) => ", taken:",
        Branch::Cond(false) => ", not taken:",
        Branch::Indirect => ", indirect:",
    }
}

/// Prints the registers that have changed.
fn print_changes(rt: &HostRuntime, before: &Regs, after: &Regs) -> io::Result<()> {
    if before.pc != after.pc {
        print!(rt; " pc={:#x}", after.pc)?;
    }
    for number in 0..32usize {
        let new = after.x[number];
        if before.x[number] != new {
            print!(rt; " x{number}={new:#x}")?;
        }
    }
    Ok(())
}
