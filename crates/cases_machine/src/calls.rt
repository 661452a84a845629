//! System calls.

use crate::answer::Answer;
use crate::kernel::{call, guest, in_memory, register, thread_of};
use crate::line::Line;
use crate::runs::{print_bytes, print_threads, print_words};
use crate::scene::Scene;
use guest_load::Thread;
use guest_mem::GuestMem;
use guest_sys::{Act, Effect, Kernel};
use script_lines::any_number;
use std::alloc::Global;
use std::io;

/// The register of the first argument and of the answer.
const A0: usize = 10;

/// A kernel, once there is one, whose guest has one thread and no page at first.
#[derive(Drop)]
pub struct Calls {
    kernel: Option<Kernel>,
}

impl Scene for Calls {
    /// `kernel` has the steps and the threads that were made so far, the break, and the input. `call` has a thread, the
    /// call's number and its arguments; `many` has how many such calls are made, and the step by which their answers
    /// rise. `map` and `poke` change the memory, and the rest are looks.
    fn follow(&mut self, rt: &HostRuntime, line: &Line) -> io::Result<()> {
        if line.word == "kernel" {
            self.kernel = begun(rt.alloc(), line);
        }
        match &mut self.kernel {
            Some(kernel) => tell(rt, kernel, line),
            None => println!(rt; "{}", Answer::NotMade),
        }
    }
}

impl Calls {
    pub fn new() -> Calls {
        Calls { kernel: None }
    }
}

/// A kernel after so many steps and so many threads, with its break and its input.
fn begun(alloc: Global, line: &Line) -> Option<Kernel> {
    let [_, made, first_break, ..] = line.numbers;
    if made == 0 || made > 65_535 || first_break > 0x4000_0000 {
        return None;
    }
    let (steps, rest) = line.rest.split_once(' ')?;
    let (_, rest) = rest.split_once(' ')?;
    let (_, input) = rest.split_once(' ').unwrap_or((rest, ""));
    let input = Vec::from_slice(alloc, input.as_bytes()).ok()?;
    let memory = GuestMem::new(alloc);
    let guest = guest(
        alloc,
        memory,
        0,
        first_break,
        made,
        any_number(steps),
        input,
    )
    .ok()?;
    Some(Kernel::new(alloc, guest))
}

fn tell(rt: &HostRuntime, kernel: &mut Kernel, line: &Line) -> io::Result<()> {
    let [thread, number, a0, a1, a2, a3, a4, a5] = line.numbers;
    match line.word {
        "call" => tell_call(rt, kernel, thread, number, [a0, a1, a2, a3, a4, a5]),
        "many" => tell_many(rt, kernel, line),
        "map" | "poke" | "peek" | "pages" => {
            println!(rt; "{}", in_memory(&mut kernel.guest, line))
        }
        _ => println!(rt; "{}", look(kernel, line)),
    }
}

/// Looks at the guest: how many threads live, how many bytes of the input were read, how many wait at a word, or at a
/// thread.
fn look(kernel: &Kernel, line: &Line) -> Answer {
    let [first, second, ..] = line.numbers;
    let guest = &kernel.guest;
    match line.word {
        "kernel" => Answer::Done,
        "live" => Answer::Count(guest.threads.len() as u64),
        "place" => Answer::Count(guest.place as u64),
        "waiting" => Answer::Count(u64::from(kernel.waiters.waiting(first))),
        "register" => found(register(kernel, first, second as usize)),
        word => match thread_of(&guest.threads, first) {
            Some(thread) => of_thread(&thread, word),
            None => Answer::NotMade,
        },
    }
}

fn of_thread(thread: &Thread, word: &str) -> Answer {
    match word {
        "pc" => Answer::Word(thread.regs.pc),
        "clear" => Answer::Word(thread.clear),
        _ => Answer::NotMade,
    }
}

fn found(value: Option<u32>) -> Answer {
    match value {
        Some(word) => Answer::Word(word),
        None => Answer::NotMade,
    }
}

/// Makes a call, and prints what it does.
fn tell_call(
    rt: &HostRuntime,
    kernel: &mut Kernel,
    thread: u32,
    number: u32,
    arguments: [u32; 6],
) -> io::Result<()> {
    match call(kernel, thread, number, arguments) {
        Some(Ok(effect)) => { print_effect(rt, &effect, register(kernel, thread, A0).unwrap_or(0)) }
        Some(Err(end)) => println!(rt; "{end}"),
        None => println!(rt; "{}", Answer::NotMade),
    }
}

/// Makes a call many times, and prints the answers.
fn tell_many(rt: &HostRuntime, kernel: &mut Kernel, line: &Line) -> io::Result<()> {
    match answers(rt.alloc(), kernel, line) {
        Some(answers) => {
            print!(rt; "answers")?;
            print_words(rt, &answers, line.numbers[1])?;
            println!(rt)
        }
        None => println!(rt; "{}", Answer::NotMade),
    }
}

/// The answers of a call that is made many times.
fn answers(alloc: Global, kernel: &mut Kernel, line: &Line) -> Option<Vec<u32>> {
    let [count, _, thread, number, a0, a1, a2, a3] = line.numbers;
    let mut answers = Vec::new(alloc);
    for _ in 0..count {
        let answer = answer(kernel, thread, number, [a0, a1, a2, a3, 0, 0])?;
        answers.push(answer).ok()?;
    }
    Some(answers)
}

/// The answer of a call that is made.
fn answer(kernel: &mut Kernel, thread: u32, number: u32, arguments: [u32; 6]) -> Option<u32> {
    call(kernel, thread, number, arguments)?.ok()?;
    register(kernel, thread, A0)
}

/// Prints what a call does, and its answer, where there is one.
fn print_effect(rt: &HostRuntime, effect: &Effect, answer: u32) -> io::Result<()> {
    match &effect.act {
        Act::Answer => print_answer(rt, answer)?,
        Act::Wait(addr) => print!(rt; "{answer:#x}, waits at {addr:#x}")?,
        Act::Yield => print!(rt; "{answer:#x}, yields")?,
        Act::Spawn(made) => print!(rt; "{answer:#x}, made {}", made.0)?,
        Act::Output(descriptor, text) => {
            print!(rt; "{answer:#x}, to {descriptor}:")?;
            print_bytes(rt, text.as_bytes())?;
        }
        Act::ThreadEnd => print!(rt; "the thread ends")?,
        Act::ProcessEnd(code) => print!(rt; "the process ends, {code}")?,
        Act::Killed(signal) => print!(rt; "killed, {signal}")?,
    }
    if !effect.woken.items.is_empty() {
        print!(rt; ", wakes")?;
        print_threads(rt, &effect.woken.items)?;
    }
    println!(rt)
}

/// Prints an answer, or the number of an error.
fn print_answer(rt: &HostRuntime, answer: u32) -> io::Result<()> {
    if answer > 0xffff_f000 {
        print!(rt; "error {}", answer.wrapping_neg())
    } else {
        print!(rt; "{answer:#x}")
    }
}
