//! The ready threads, and the turn of the first one.

ghost use Rattle.std.specs.Prelude.{◌≡◌, ◌==◌, ◌+◌, ◌<◌, ◌≤◌, [], ◌∷◌, ◌++◌, length, map, slice_get, IfOk};
ghost use Rattle.std.specs.Option.{is_none, option_map, option_to_list};
ghost use Rattle.guest_sched.specs.RunQueue.{with_new_turn, with_drawn_turn, ends_turn, with_threads, goes_on, without_turn, after_step, after_own_step, generator_of};

use crate::turns::{Fate, Turns};
use byte_text::OutOfMemory;
use event_costs::ThreadNo;
use guest_load::Thread;
use guest_sys::MAX_LIVE;
use rand_core::SeedableRng;
use rand_core::utils::NextWord;
use rand_pcg::Lcg64Xsh32;
use std::alloc::Global;
use std::collections::VecDeque;
use std::marker::Model;

/// A ready thread, and where it stood among the live ones when it last ran; before that, where it stands as long as no
/// thread has ended.
#[derive(Clone, Copy, Debug)]
pub struct Ready {
    pub thread: ThreadNo,
    pub place: usize,
}

/// The ready threads, in a circle that has room for all that may be live, and the turn of the first one. Contracts see
/// the threads alone.
#[derive(Drop)]
pub struct RunQueue {
    ready: VecDeque<Ready>,
    steps_left: u32,
    quantum: u32,
    generator: Option<Lcg64Xsh32>,
}

impl Model for RunQueue {
    ghost use Rattle.std.specs.Prelude.{◌≤◌};
    ghost use Rattle.std.specs.VecDeque.{deque_capacity};
    ghost use Rattle.guest_sched.specs.RunQueue.{RunQueue};

    ghost Value = { RunQueue };

    ghost use Rattle.guest_sched.specs.inner.Ring.{run_queue_of};

    ghost view = { run_queue_of };

    ghost invariant = { λ s. 1024 ≤ deque_capacity s.ready };
}

impl RunQueue {
    /// No thread is ready yet.
    pub fn new(alloc: Global, turns: Turns) -> Result<RunQueue, OutOfMemory>
        ensures { IfOk result (λ s.
            s ≡ record { ready = []; steps_left = 0; quantum = turns.quantum; generator = generator_of turns.seed }) }
    {
        Ok(RunQueue {
            ready: VecDeque::with_capacity(alloc, MAX_LIVE)?,
            steps_left: 0,
            quantum: turns.quantum,
            generator: generator_of(turns.seed),
        })
    }

    /// The first ready thread.
    #[inline(always)]
    pub fn first(&self) -> Option<Ready>
        ensures { option_map (λ r. r.thread) result ≡ slice_get self.now.ready 0 }
    {
        self.ready.front().copied()
    }

    /// Whether no thread is ready.
    #[inline(always)]
    pub fn is_empty(&self) -> bool
        ensures length { result ≡ (length self.now.ready == 0) }
        ensures first { result ≡ is_none (slice_get self.now.ready 0) }
    {
        self.ready.is_empty()
    }

    /// How many steps are left of the turn.
    #[inline(always)]
    pub fn steps_left(&self) -> u32
        ensures { result ≡ self.now.steps_left }
    {
        self.steps_left
    }

    /// A thread goes to the end.
    fn enter(&mut self, thread: ThreadNo)
        requires { length self.old.ready < 1024 }
        ensures { self.new ≡ with_threads (thread ∷ []) self.old }
    {
        let place = (thread.0 as usize).saturating_sub(1);
        self.ready.push_back_reserved(Ready { thread, place });
    }

    /// The threads that a step woke and the one that it made go to the end, in this order.
    fn enter_all(&mut self, woken: &[ThreadNo], made: Option<ThreadNo>)
        requires { length self.old.ready + length (woken.now ++ option_to_list made) ≤ 1024 }
        ensures { self.new ≡ with_threads (woken.now ++ option_to_list made) self.old }
    {
        self.enter_woken(woken);
        if let Some(thread) = made {
            self.enter(thread);
        }
    }

    /// Threads that were woken go to the end, in their order.
    fn enter_woken(&mut self, threads: &[ThreadNo])
        requires { length self.old.ready + length threads.now ≤ 1024 }
        ensures { self.new ≡ with_threads threads.now self.old }
    {
        'threads: for thread in threads {
            self.enter(*thread);
        }
    }

    /// All live threads go to the end, by rising number.
    pub fn enter_live(&mut self, threads: &[Thread])
        requires { length self.old.ready + length threads.now ≤ 1024 }
        ensures { self.new ≡ with_threads (map (λ t. t.no) threads.now) self.old }
    {
        'threads: for thread in threads {
            self.enter(thread.no);
        }
    }

    /// The turn of the running thread, whose place is this, ends, and it goes to the end.
    #[inline]
    fn send_back(&mut self, place: usize)
        ensures { self.new ≡ without_turn Fate.Yields self.old }
    {
        if let Some(Ready { thread, .. }) = self.ready.pop_front() {
            self.ready.push_back_reserved(Ready { thread, place });
        }
        self.steps_left = 0;
    }

    /// The turn of the running thread ends, and it goes away.
    fn send_away(&mut self)
        ensures { self.new ≡ without_turn Fate.Leaves self.old }
    {
        let _gone = self.ready.pop_front();
        self.steps_left = 0;
    }

    /// A step of the running thread, whose place is this, passes. True where its turn ends with it.
    #[inline(always)]
    pub fn pass(&mut self, place: usize) -> bool
        requires { 1 ≤ self.old.steps_left }
        ensures ended { result ≡ ends_turn Fate.Runs self.old }
        ensures ran { self.new ≡ after_own_step Fate.Runs self.old }
    {
        self.steps_left -= 1;
        if self.steps_left == 0 {
            self.send_back(place);
            return true;
        }
        false
    }

    /// A system call of the running thread, whose place is this, passes. True where its turn ends with it.
    pub fn pass_call(
        &mut self,
        fate: Fate,
        woken: &[ThreadNo],
        made: Option<ThreadNo>,
        place: usize,
    ) -> bool
        requires left { 1 ≤ self.old.steps_left }
        requires runs { 0 < length self.old.ready }
        requires room { length (after_step fate (woken.now ++ option_to_list made) self.old).ready ≤ 1024 }
        ensures ended { result ≡ ends_turn fate self.old }
        ensures passed { self.new ≡ after_step fate (woken.now ++ option_to_list made) self.old }
    {
        match fate {
            Fate::Runs => {
                self.enter_all(woken, made);
                self.pass(place)
            }
            Fate::Yields => {
                self.enter_all(woken, made);
                self.send_back(place);
                true
            }
            Fate::Leaves => {
                self.send_away();
                self.enter_all(woken, made);
                true
            }
        }
    }

    /// The next turn begins.
    #[inline]
    #[tactic(auto, unfolding(crate::specs::RunQueue::with_new_turn))]
    pub fn begin(&mut self)
        requires quantum { 1 ≤ self.old.quantum }
        requires ready { 0 < length self.old.ready }
        ensures { self.new ≡ with_new_turn self.old }
    {
        match &mut self.generator {
            Some(generator) => {
                let first = generator.next_word();
                let second = generator.next_word();
                self.draw(first, second);
            }
            None => self.steps_left = self.quantum,
        }
    }

    /// The turn that two words choose: the first the thread, and the second the length.
    fn draw(&mut self, first: u32, second: u32)
        requires quantum { 1 ≤ self.old.quantum }
        requires ready { 0 < length self.old.ready }
        ensures { self.new ≡ with_drawn_turn first second self.old }
    {
        let place = first as usize % self.ready.len();
        let chosen = self.ready.remove(place).unwrap();
        self.ready.push_front_reserved(chosen);
        self.steps_left = 1 + second % self.quantum;
    }
}

/// The generator that a seed makes.
fn generator_of(seed: Option<u64>) -> Option<Lcg64Xsh32>
    ensures { result ≡ generator_of seed }
{
    match seed {
        Some(seed) => Some(Lcg64Xsh32::seed_from_u64(seed)),
        None => None,
    }
}
