//! All that wait.

ghost use Rattle.std.specs.Prelude.{◌≡◌, ◌≢◌, ℕ, ◌+◌, ◌<◌, ◌≤◌, ◌++◌, ◌∷◌, [], ◌↔◌};
ghost use Rattle.std.specs.Prelude.{min, length, IsTrue, IfOk, OnOk, OnErr};
ghost use Rattle.guest_futex.specs.Waits.{waiters_at, times_waiting, IsWaiting, EachWaitsOnce};
ghost use Rattle.guest_futex.specs.Waits.{enqueue, woken_at, without_woken, requeue_at, forget_thread};

use crate::queue::{Wait, bring_in, end_of, list_threads, start_of, take_out};
use crate::thread_list::ThreadList;
use byte_text::OutOfMemory;
use event_costs::ThreadNo;
use std::alloc::Global;
use std::marker::Model;

/// The threads that wait, each at one address.
#[derive(Drop)]
pub struct Waiters {
    waits: Vec<Wait>,
    alloc: Global,
}

impl Model for Waiters {
    ghost use Rattle.std.specs.Prelude.{◌-◌, vec_len, vec_capacity};
    ghost use Rattle.guest_futex.specs.Waits.{Queue};
    ghost use Rattle.guest_futex.specs.inner.Order.{IsInOrder};

    ghost Value = { Queue };

    ghost view = { λ w. record { waits = w.waits.items; spare = vec_capacity w.waits - vec_len w.waits } };

    ghost invariant = { λ w. IsInOrder w.waits.items };
}

impl Waiters {
    /// No thread waits, and there is no room yet. It takes no memory.
    pub fn new(alloc: Global) -> Waiters
        ensures none { result.waits ≡ [] }
        ensures room { result.spare ≡ 0 }
    {
        Waiters {
            waits: Vec::new(alloc),
            alloc,
        }
    }

    /// Makes room for one more thread. It takes memory where there is none yet.
    pub fn reserve(&mut self) -> Result<(), OutOfMemory>
        ensures room { OnOk result (1 ≤ self.new.spare) }
        ensures memory { OnErr result (self.old.spare ≡ 0) }
        ensures kept { self.old.spare ≤ self.new.spare }
        ensures same { self.new.waits ≡ self.old.waits }
    {
        self.waits.reserve(1)?;
        Ok(())
    }

    /// The thread waits at the address, after those that wait there. It takes no memory.
    pub fn wait(&mut self, thread: ThreadNo, addr: u32)
        requires room { 1 ≤ self.old.spare }
        requires apart { times_waiting thread self.old.waits ≡ 0 }
        requires few { length self.old.waits < 65535 }
        ensures queued { self.new.waits ≡ enqueue thread addr self.old.waits }
        ensures last { waiters_at addr self.new.waits ≡ waiters_at addr self.old.waits ++ thread ∷ [] }
        ensures others { (other : ℕ) → other ≢ addr → waiters_at other self.new.waits
            ≡ waiters_at other self.old.waits }
        ensures once { EachWaitsOnce self.new.waits }
        ensures number { length self.new.waits ≡ length self.old.waits + 1 }
        ensures room { self.new.spare + 1 ≡ self.old.spare }
    {
        let rest = self.waits.len();
        self.waits.push_reserved(Wait { thread, addr });
        bring_in(&mut self.waits, rest, addr);
    }

    /// Takes the first `n` waiters of an address out, or all, and answers them in order of waiting. It takes memory
    /// where there are some.
    pub fn wake(&mut self, addr: u32, n: u32) -> Result<ThreadList, OutOfMemory>
        ensures first { IfOk result (λ threads. threads ≡ woken_at addr n self.old.waits) }
        ensures still { OnOk result (self.new.waits ≡ without_woken addr n self.old.waits) }
        ensures rest { OnOk result (waiters_at addr self.old.waits
            ≡ woken_at addr n self.old.waits ++ waiters_at addr self.new.waits) }
        ensures others { (other : ℕ) → other ≢ addr → waiters_at other self.new.waits
            ≡ waiters_at other self.old.waits }
        ensures once { EachWaitsOnce self.new.waits }
        ensures number { IfOk result (λ threads. length self.new.waits + length threads ≡ length self.old.waits) }
        ensures room { IfOk result (λ threads. self.new.spare ≡ self.old.spare + length threads) }
        ensures memory { OnErr result (1 ≤ length (woken_at addr n self.old.waits)) }
        ensures err { OnErr result (self.new ≡ self.old) }
    {
        let count = self.waiting(addr).min(n) as usize;
        let mut threads = Vec::with_capacity(self.alloc, count)?;
        let rest = self.waits.len() - count;
        take_out(&mut self.waits, addr, count);
        list_threads(&self.waits[rest..], &mut threads);
        self.waits.truncate(rest);
        Ok(ThreadList { items: threads })
    }

    /// Moves the first `n` waiters of an address, or all, in order to the end of another address or of the same one,
    /// and answers how many. It takes no memory.
    pub fn requeue(&mut self, from: u32, n: u32, to: u32) -> u32
        ensures count { result ≡ min (length (waiters_at from self.old.waits)) n }
        ensures moved { self.new.waits ≡ requeue_at from n to self.old.waits }
        ensures last { waiters_at to self.new.waits ≡ waiters_at to (without_woken from n self.old.waits)
            ++ woken_at from n self.old.waits }
        ensures rest { from ≢ to → waiters_at from self.old.waits
            ≡ woken_at from n self.old.waits ++ waiters_at from self.new.waits }
        ensures others { (other : ℕ) → other ≢ from → other ≢ to
            → waiters_at other self.new.waits ≡ waiters_at other self.old.waits }
        ensures once { EachWaitsOnce self.new.waits }
        ensures number { length self.new.waits ≡ length self.old.waits }
        ensures room { self.new.spare ≡ self.old.spare }
    {
        let count = self.waiting(from).min(n);
        let rest = self.waits.len() - count as usize;
        take_out(&mut self.waits, from, count as usize);
        bring_in(&mut self.waits, rest, to);
        count
    }

    /// Takes a thread out. False where it doesn't wait. It takes no memory, and looks through all that wait.
    pub fn forget(&mut self, thread: ThreadNo) -> bool
        ensures found { IsTrue result ↔ IsWaiting thread self.old.waits }
        ensures forgotten { self.new.waits ≡ forget_thread thread self.old.waits }
        ensures gone { times_waiting thread self.new.waits ≡ 0 }
        ensures once { EachWaitsOnce self.new.waits }
        ensures number { length self.new.waits + times_waiting thread self.old.waits ≡ length self.old.waits }
        ensures room { self.new.spare ≡ self.old.spare + times_waiting thread self.old.waits }
    {
        let before = self.waits.len();
        self.waits.retain(|wait| wait.thread != thread);
        self.waits.len() < before
    }

    /// How many threads wait at the address.
    pub fn waiting(&self, addr: u32) -> u32
        ensures count { result ≡ length (waiters_at addr self.now.waits) }
        ensures once { EachWaitsOnce self.now.waits }
        ensures few { length self.now.waits ≤ 65535 }
    {
        (end_of(&self.waits, addr) - start_of(&self.waits, addr)) as u32
    }
}
