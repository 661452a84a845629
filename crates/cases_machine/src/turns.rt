//! Threads that take turns.

ghost use Rattle.std.specs.Prelude.{◌≤◌};

use crate::answer::Answer;
use crate::course::{Course, print_end};
use crate::kernel::guest;
use crate::line::{Line, number};
use crate::scene::Scene;
use event_costs::ThreadNo;
use guest_mem::{EXECUTE, GuestMem, READ, WRITE};
use guest_sched::{Machine, Turns};
use script_lines::any_number;
use std::alloc::Global;
use std::io;

/// Where the code begins. Three pages there may be read, written and executed; the break is behind them.
const CODE: u32 = 0x1_0000;

const BREAK: u32 = 0x1_3000;

/// Where the data begin, sixteen pages of zeros.
const DATA: u32 = 0x2_0000;

/// The last page below 0x80000000, at whose end the first thread's stack begins.
const STACK: u32 = 0x7fff_f000;

const STACK_END: u32 = 0x8000_0000;

/// The words of a program, and a machine that runs it.
#[derive(Drop)]
pub struct Turning {
    code: Vec<u32>,
    machine: Option<Machine>,
}

impl Scene for Turning {
    /// `program` begins another program; a word, whatever stands behind it, is its next one; `machine` has the quantum
    /// and, perhaps, the seed of a machine that is to run it; `go` runs that machine for at most so many steps, and `look`
    /// looks at it.
    fn follow(&mut self, rt: &HostRuntime, line: &Line) -> io::Result<()> {
        match line.word {
            "program" => self.code.clear(),
            "machine" => self.machine = begun(rt.alloc(), &self.code, line),
            "go" | "look" => return self.run(rt, line),
            word => {
                if self.code.push(number(word)).is_err() {
                    return println!(rt; "{}", Answer::OutOfMemory);
                }
            }
        }
        println!(rt; "{}", line.word)
    }
}

impl Turning {
    pub fn new(alloc: Global) -> Turning {
        Turning {
            code: Vec::new(alloc),
            machine: None,
        }
    }

    fn run(&mut self, rt: &HostRuntime, line: &Line) -> io::Result<()> {
        match &mut self.machine {
            None => println!(rt; "no machine"),
            Some(machine) if line.word == "look" => look(rt, machine),
            Some(machine) => Course::of(rt.alloc(), machine, line.numbers[0]).print(rt),
        }
    }
}

/// What is seen of a machine.
#[derive(Clone, Copy)]
struct MachineView {
    running: Option<(ThreadNo, u32)>,
    threads: u32,
    steps: u64,
    wait: Option<u32>,
    woken: usize,
}

/// Prints what a machine shows, and how the run ended.
fn look(rt: &HostRuntime, machine: &Machine) -> io::Result<()> {
    let seen = MachineView {
        running: machine.running(),
        threads: machine.threads(),
        steps: machine.steps(),
        wait: machine.last_wait(),
        woken: machine.last_woken().len(),
    };
    print_view(rt, &seen)?;
    print_end(rt, machine.ended())
}

/// Prints who runs where, how many threads and steps were made, and what the last step did to those that wait.
fn print_view(rt: &HostRuntime, seen: &MachineView) -> io::Result<()> {
    if let Some((thread, pc)) = seen.running {
        print!(rt; "{} at {pc:#x}, ", thread.0)?;
    }
    print!(rt; "{} threads, {} steps, ", seen.threads, seen.steps)?;
    if let Some(addr) = seen.wait {
        print!(rt; "waits at {addr:#x}, ")?;
    }
    print!(rt; "{} woken, ", seen.woken)
}

/// A machine that is about to execute the first word of a program.
fn begun(alloc: Global, code: &[u32], line: &Line) -> Option<Machine> {
    let quantum = line.numbers[0];
    if quantum == 0 {
        return None;
    }
    let seed = match line.rest.split_once(' ') {
        Some((_, seed)) => Some(any_number(seed)),
        None => None,
    };
    machine(alloc, memory(alloc, code)?, Turns { quantum, seed })
}

fn machine(alloc: Global, memory: GuestMem, turns: Turns) -> Option<Machine>
    requires { 1 ≤ turns.quantum }
{
    let guest = guest(alloc, memory, STACK_END, BREAK, 1, 0, Vec::new(alloc)).ok()?;
    Machine::new(alloc, guest, turns).ok()
}

/// The memory of a program.
fn memory(alloc: Global, code: &[u32]) -> Option<GuestMem> {
    let mut memory = GuestMem::new(alloc);
    fill(&mut memory, code)?;
    Some(memory)
}

fn fill(memory: &mut GuestMem, code: &[u32]) -> Option<()> {
    memory.map(CODE, 3, READ | WRITE | EXECUTE).ok()?;
    memory.map(DATA, 16, READ | WRITE).ok()?;
    memory.map(STACK, 1, READ | WRITE).ok()?;
    let mut at = CODE;
    for word in code {
        memory.store32(at, *word).ok()?;
        at = at.wrapping_add(4);
    }
    Some(())
}
