//! How a run of a machine goes.

use crate::runs::{print_bytes, print_steps, print_threads};
use event_costs::{End, ThreadNo};
use guest_sched::{Machine, Turn};
use std::alloc::Global;
use std::io;

#[derive(Drop)]
pub struct Course {
    /// The thread of each step.
    steps: Vec<ThreadNo>,
    /// The bytes that were output.
    output: Vec<u8>,
    /// The threads that were woken, in order of waking.
    woken: Vec<ThreadNo>,
    /// The addresses at which a thread began to wait.
    waits: Vec<u32>,
    /// How the run ended, if it did.
    end: Option<End>,
}

impl Course {
    fn new(alloc: Global) -> Course {
        Course {
            steps: Vec::new(alloc),
            output: Vec::new(alloc),
            woken: Vec::new(alloc),
            waits: Vec::new(alloc),
            end: None,
        }
    }

    /// Runs a machine for at most so many steps.
    pub fn of(alloc: Global, machine: &mut Machine, most: u32) -> Course {
        let mut course = Course::new(alloc);
        for _ in 0..most {
            if course.step(machine).is_none() {
                break;
            }
        }
        course
    }

    /// Makes a step. None where the run can't go on.
    fn step(&mut self, machine: &mut Machine) -> Option<()> {
        if machine.steps() == u64::MAX {
            return None;
        }
        match machine.next().ok()? {
            Turn::Retired(event) => self.note(machine, event.thread, &[]),
            Turn::RetiredOutput(event, _, text) => self.note(machine, event.thread, &text.bytes),
            Turn::Ended(end) => {
                self.end = Some(end);
                None
            }
        }
    }

    /// Notes a step of a thread, what it output, and what the machine tells of it.
    fn note(&mut self, machine: &Machine, thread: ThreadNo, output: &[u8]) -> Option<()> {
        self.steps.push(thread).ok()?;
        self.output.extend_from_slice(output).ok()?;
        self.woken.extend_from_slice(machine.last_woken()).ok()?;
        if let Some(addr) = machine.last_wait() {
            self.waits.push(addr).ok()?;
        }
        Some(())
    }

    /// Prints it: each thread in turn with its number of steps, and the rest as far as there is any.
    pub fn print(&self, rt: &HostRuntime) -> io::Result<()> {
        print_steps(rt, &self.steps)?;
        if !self.woken.is_empty() {
            print!(rt; "wakes")?;
            print_threads(rt, &self.woken)?;
            print!(rt; " ")?;
        }
        for addr in &self.waits {
            print!(rt; "waits at {addr:#x} ")?;
        }
        if !self.output.is_empty() {
            print!(rt; "output")?;
            print_bytes(rt, &self.output)?;
            print!(rt; " ")?;
        }
        print_end(rt, self.end)
    }
}

/// Prints how a run ended.
pub fn print_end(rt: &HostRuntime, end: Option<End>) -> io::Result<()> {
    match end {
        None => println!(rt; "runs on"),
        Some(End::Exited(code)) => println!(rt; "exited {code}"),
        Some(End::Killed(signal, pc)) => println!(rt; "killed {signal} at {pc:#x}"),
        Some(End::UnsupportedInstr(pc, word)) => println!(rt; "instruction {word:#x} at {pc:#x}"),
        Some(End::UnsupportedCall(pc, number)) => println!(rt; "call {number} at {pc:#x}"),
        Some(End::AllWaiting) => println!(rt; "all wait"),
        Some(End::Budget(_) | End::Frames) => println!(rt; "no end of a machine"),
    }
}
