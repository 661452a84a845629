//! Lists that may be long, printed run by run.

use event_costs::ThreadNo;
use std::io;

/// What the numbers of a list are.
#[derive(Clone, Copy)]
enum Kind {
    Byte,
    Thread,
    Word,
    /// The thread of a step.
    Step,
}

/// Numbers that follow each other, each by a step above the one before, which are not printed yet.
#[derive(Clone, Copy)]
struct Run {
    kind: Kind,
    step: u32,
    first: u32,
    last: u32,
    len: u32,
}

impl Run {
    fn new(kind: Kind, step: u32) -> Run {
        Run {
            kind,
            step,
            first: 0,
            last: 0,
            len: 0,
        }
    }

    /// Takes a number more. Where it doesn't follow them, the ones before are printed.
    fn add(&mut self, rt: &HostRuntime, number: u32) -> io::Result<()> {
        if self.len > 0 && number == self.last.wrapping_add(self.step) {
            self.last = number;
            self.len = self.len.wrapping_add(1);
            return Ok(());
        }
        self.print(rt)?;
        self.first = number;
        self.last = number;
        self.len = 1;
        Ok(())
    }

    fn print(&self, rt: &HostRuntime) -> io::Result<()> {
        let Run {
            kind,
            first,
            last,
            len,
            ..
        } = *self;
        match (kind, len) {
            (_, 0) => Ok(()),
            (Kind::Byte, 1) => print!(rt; " {first:02x}"),
            (Kind::Byte, _) => print!(rt; " {first:02x}*{len}"),
            (Kind::Thread, 1) => print!(rt; " {first}"),
            (Kind::Thread, _) => print!(rt; " {first}-{last}"),
            (Kind::Word, 1) => print!(rt; " {first:#x}"),
            (Kind::Word, _) => print!(rt; " {first:#x}-{last:#x}"),
            (Kind::Step, _) => print!(rt; "{first}*{len} "),
        }
    }
}

/// Prints bytes; equal ones side by side as one, and how many there are.
pub fn print_bytes(rt: &HostRuntime, bytes: &[u8]) -> io::Result<()> {
    let mut run = Run::new(Kind::Byte, 0);
    for byte in bytes {
        run.add(rt, u32::from(*byte))?;
    }
    run.print(rt)
}

/// Prints threads; those whose numbers follow each other as the first and the last of them.
pub fn print_threads(rt: &HostRuntime, threads: &[ThreadNo]) -> io::Result<()> {
    let mut run = Run::new(Kind::Thread, 1);
    for thread in threads {
        run.add(rt, thread.0)?;
    }
    run.print(rt)
}

/// Prints words; those that rise by a step as the first and the last of them.
pub fn print_words(rt: &HostRuntime, words: &[u32], step: u32) -> io::Result<()> {
    let mut run = Run::new(Kind::Word, step);
    for word in words {
        run.add(rt, *word)?;
    }
    run.print(rt)
}

/// Prints the threads of steps; one side by side with itself as one, and how many steps there are.
pub fn print_steps(rt: &HostRuntime, threads: &[ThreadNo]) -> io::Result<()> {
    let mut run = Run::new(Kind::Step, 0);
    for thread in threads {
        run.add(rt, thread.0)?;
    }
    run.print(rt)
}
