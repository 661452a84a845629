//! Threads that wait at futex words.

ghost use Rattle.std.specs.Prelude.{◌≡◌, ◌≤◌, ◌<◌, ◌+◌, length, ℕ};
ghost use Rattle.guest_futex.specs.Waits.{times_waiting};
ghost use Rattle.event_costs.specs.declared.numbers.ThreadNo.{ThreadNo};

use crate::answer::Answer;
use crate::line::Line;
use crate::runs::print_threads;
use crate::scene::Scene;
use byte_text::OutOfMemory;
use event_costs::ThreadNo;
use guest_futex::Waiters;
use std::alloc::Global;
use std::io;

/// Waiters, and how many threads wait at most.
#[derive(Drop)]
pub struct Crowd {
    alloc: Global,
    waiters: Waiters,
    total: u32,
    ghost counted: { length waiters.waits ≤ total },
}

impl Scene for Crowd {
    /// A line is a call by its name, with its arguments, threads and addresses. In `crowd` and a number the threads from 1
    /// to it wait at 0x100, in `crowd_apart` each at four times its number, and in `wake_apart` the threads from one to
    /// another are woken there, each by a call.
    fn follow(&mut self, rt: &HostRuntime, line: &Line) -> io::Result<()> {
        let [first, second, ..] = line.numbers;
        let woken = match line.word {
            "wake" => self.wake(first, first, 1, second),
            "wake_apart" => self.wake(first, second, 4, 1),
            _ => return println!(rt; "{}", self.answer(line)),
        };
        match woken {
            Ok(threads) => {
                print!(rt; "threads")?;
                print_threads(rt, &threads)?;
                println!(rt)
            }
            Err(_) => println!(rt; "{}", Answer::OutOfMemory),
        }
    }
}

impl Crowd {
    pub fn new(alloc: Global) -> Crowd {
        Crowd {
            alloc,
            waiters: Waiters::new(alloc),
            total: 0,
        }
    }

    fn answer(&mut self, line: &Line) -> Answer {
        let [first, second, third, ..] = line.numbers;
        match line.word {
            "wait" => self.wait(first, second),
            "requeue" => Answer::Count(u64::from(self.waiters.requeue(first, second, third))),
            "forget" => Answer::Truth(self.waiters.forget(ThreadNo(first))),
            "waiting" => Answer::Count(u64::from(self.waiters.waiting(first))),
            "crowd" => self.fill(first, false),
            "crowd_apart" => self.fill(first, true),
            _ => Answer::NotMade,
        }
    }

    /// The thread waits, unless it waits already.
    fn wait(&mut self, thread: u32, addr: u32) -> Answer {
        if self.total >= 65_534 || self.waiters.forget(ThreadNo(thread)) {
            return Answer::NotMade;
        }
        if self.waiters.reserve().is_err() {
            return Answer::OutOfMemory;
        }
        let total = self.total + 1;
        self.waiters.wait(ThreadNo(thread), addr);
        self.total = total;
        Answer::Done
    }

    fn fill(&mut self, count: u32, apart: bool) -> Answer {
        if count >= 65_535 {
            return Answer::NotMade;
        }
        match filled(self.alloc, count, apart) {
            Ok(crowd) => {
                *self = crowd;
                Answer::Done
            }
            Err(_) => Answer::OutOfMemory,
        }
    }

    /// The threads that are woken at the addresses that are so many times the numbers from one to another, of each so
    /// many.
    fn wake(
        &mut self,
        first: u32,
        last: u32,
        times: u32,
        count: u32,
    ) -> Result<Vec<ThreadNo>, OutOfMemory> {
        let mut woken = Vec::new(self.alloc);
        for number in first..=last {
            let threads = self.waiters.wake(number.wrapping_mul(times), count)?;
            woken.extend_from_slice(&threads.items)?;
        }
        Ok(woken)
    }
}

/// Waiters of which the threads from 1 to a count wait, at one address or each at one of its own.
fn filled(alloc: Global, count: u32, apart: bool) -> Result<Crowd, OutOfMemory>
    requires { count < 65535 }
{
    let mut waiters = Waiters::new(alloc);
    'arriving: for arrived in 0..count {
        waiters.reserve()?;
        let thread = arrived + 1;
        let addr = if apart { 4 * thread } else { 0x100 };
        waiters.wait(ThreadNo(thread), addr);
    }
    Ok(Crowd {
        alloc,
        waiters,
        total: count,
    })
}
