//! The machine, one step at a time.

ghost use Rattle.std.specs.Prelude.{◌≡◌, [], ◌+◌, ◌-◌, ◌<◌, ◌≤◌, ◌^◌, ◌↔◌, IfErr, IfOk};
ghost use Rattle.std.specs.Prelude.{IsNone, IsSome, None, Ok, OnOk, Some};
ghost use Rattle.guest_sys.specs.declared.caller.Caller.{Caller};
ghost use Rattle.guest_sched.specs.declared.turns.Halt.{Halt};
ghost use Rattle.guest_sched.specs.declared.turns.Turn.{Turn};
ghost use Rattle.guest_sched.specs.Engine.{runner};
ghost use Rattle.guest_sched.specs.Step.{call_step, output_of};
ghost use Rattle.guest_sched.specs.Machine.{IsTurn, ended, new_machine, halt_of, with_machine, next, running, machine_step, with_given};

use crate::acts::wait_of;
use crate::engine::{CallOutcome, Engine};
use crate::turns::{Halt, Turn, Turns};
use byte_text::{OutOfMemory, Text};
use event_costs::{Done, End, Event, ThreadNo};
use guest_futex::ThreadList;
use guest_load::Guest;
use guest_sys::{Act, Effect};
use rv_step::{Code, Stepped};
use std::alloc::Global;
use std::marker::Model;

/// A guest whose threads take turns, with the end that was given, if one was, and what its last step did to those that
/// wait. Contracts see it without the code that it keeps.
#[derive(Drop)]
pub struct Machine {
    engine: Engine,
    code: Code,
    given: Option<End>,
    wait: Option<u32>,
    woken: ThreadList,
}

impl Model for Machine {
    ghost use Rattle.guest_sched.specs.Machine.{Machine};
    ghost use Rattle.guest_sched.specs.inner.Codes.{machine_code};

    ghost Value = { Machine };

    ghost coded = { machine_code };

    ghost use Rattle.guest_sched.specs.inner.View.{machine_of};
    ghost use Rattle.guest_sched.specs.inner.Sound.{IsSound};

    ghost view = { machine_of };

    ghost use Rattle.rv_step.specs.Code.{IsCodeOf};

    // What is kept of the guest's code stands in its memory.
    ghost invariant = { λ m. IsSound m.engine × IsCodeOf m.code m.engine.kernel.guest.mem };
}

impl Machine {
    /// The machine of a guest before its first step. The live threads are ready, by rising number; where there is a
    /// seed, the generator is made by `seed_from_u64` of it. The first turn has begun.
    pub fn new(alloc: Global, guest: Guest, turns: Turns) -> Result<Machine, OutOfMemory>
        requires { 1 ≤ turns.quantum }
        ensures { IfOk result (λ m. m ≡ new_machine guest turns.quantum turns.seed) }
    {
        Ok(Machine {
            engine: Engine::new(alloc, guest, turns)?,
            code: Code::new(alloc)?,
            given: None,
            wait: None,
            woken: ThreadList {
                items: Vec::new(alloc),
            },
        })
    }

    /// The next step, or the end of the run. It takes memory for a system call alone, before anything changes. Once a
    /// run is over, the same end is given again.
    #[inline(always)]
    pub fn next(&mut self) -> Result<Turn, OutOfMemory>
        requires { self.old.engine.kernel.guest.steps < 2 ^ 64 - 1 }
        ensures { IsTurn (next self.old) self.old result self.new }
    {
        if let Some(end) = self.ended() {
            return Ok(self.give(end));
        }
        match self.try_instruction() {
            Ok(event) => Ok(Turn::Retired(event)),
            Err(halt) => {
                // Its answer apart, so that an instruction's stays in registers.
                let halted = self.next_halted(halt);
                halted
            }
        }
    }

    /// The next step, where it is an instruction that retires: its event. Else nothing changes, and `next_halted` makes
    /// the step.
    #[inline(always)]
    pub fn try_instruction(&mut self) -> Result<Event, Halt>
        requires few { self.old.engine.kernel.guest.steps < 2 ^ 64 - 1 }
        requires runs { ended self.old ≡ None }
        ensures retired { IfOk result (λ event. next self.old ≡ Ok (machine_step event None self.new, self.new)) }
        // As long as its turn lasts, its thread runs on.
        ensures turn { OnOk result (2 ≤ self.old.engine.run_queue.steps_left
            → self.new.engine.run_queue.steps_left + 1 ≡ self.old.engine.run_queue.steps_left) }
        ensures runs_on { IfOk result (λ event. 2 ≤ self.old.engine.run_queue.steps_left
            → running self.new ≡ Some (event.thread, event.done.next)) }
        ensures halted { IfErr result (λ halt. halt_of self.old ≡ Some halt) }
        ensures unchanged { IfErr result (λ halt. self.new ≡ self.old) }
    {
        let live = self.engine.running();
        let thread = live.no;
        match self.engine.advance(&mut self.code) {
            Stepped::Retired(done) => {
                self.forget();
                Ok(Event {
                    thread,
                    done: done.copied(),
                    ends: false,
                })
            }
            Stepped::Call => Err(Halt::Ecall),
            Stepped::Trap(signal) => Err(Halt::Trap(signal)),
            Stepped::Unknown(word) => Err(Halt::Unknown(word)),
        }
    }

    /// The next step, where the running thread's instruction doesn't retire: a system call, or the end of the run. It
    /// takes memory for a system call alone, before anything changes.
    #[cold]
    pub fn next_halted(&mut self, halt: Halt) -> Result<Turn, OutOfMemory>
        requires few { self.old.engine.kernel.guest.steps < 2 ^ 64 - 1 }
        requires runs { ended self.old ≡ None }
        requires halted { halt_of self.old ≡ Some halt }
        ensures { IsTurn (next self.old) self.old result self.new }
    {
        let live = self.engine.running();
        let pc = live.regs.pc;
        match halt {
            Halt::Ecall => self.call(),
            Halt::Trap(signal) => Ok(self.give(End::Killed(signal, pc))),
            Halt::Unknown(word) => Ok(self.give(End::UnsupportedInstr(pc, word))),
        }
    }

    /// Makes the system call at which the running thread stands.
    #[cold]
    fn call(&mut self) -> Result<Turn, OutOfMemory>
        requires few { self.old.engine.kernel.guest.steps < 2 ^ 64 - 1 }
        requires runs { ended self.old ≡ None }
        requires halted { halt_of self.old ≡ Some Halt.Ecall }
        ensures { (c : Caller) → runner self.old.engine ≡ Some c
            → IsTurn (with_machine (call_step self.old.engine c)) self.old result self.new }
    {
        let called = self.engine.call(&mut self.code);
        let (event, effect) = match called? {
            CallOutcome::Retired(event, effect) => (event, effect),
            CallOutcome::Refused(end) => return Ok(self.give(end)),
        };
        let Effect { act, woken } = effect;
        self.wait = wait_of(&act);
        self.woken = woken;
        if let Some((descriptor, bytes)) = output(act) {
            return Ok(Turn::RetiredOutput(event, descriptor, bytes));
        }
        Ok(Turn::Retired(event))
    }

    /// The run is over.
    #[cold]
    fn give(&mut self, end: End) -> Turn
        ensures end { result ≡ Turn.Ended end }
        ensures given { self.new ≡ with_given end self.old }
    {
        self.given = Some(end);
        Turn::Ended(end)
    }

    /// The last step began no wait, and woke no thread.
    #[inline(always)]
    fn forget(&mut self)
        ensures { self.new ≡ record self.old { wait = None; woken = [] } }
    {
        self.wait = None;
        let woken = &mut self.woken;
        woken.items.clear();
    }

    /// The end that `next` would give without trying an instruction: one that it gave before, that of an exit, or that
    /// no thread is ready.
    #[inline(always)]
    pub fn ended(&self) -> Option<End>
        ensures { result ≡ ended self.now }
    {
        if let Some(end) = self.given {
            return Some(end);
        }
        if let Some(code) = self.engine.exit {
            return Some(End::Exited(code));
        }
        if self.engine.run_queue.is_empty() {
            return Some(End::AllWaiting);
        }
        None
    }

    /// The running thread and its pc, where the run isn't over.
    #[inline(always)]
    pub fn running(&self) -> Option<(ThreadNo, u32)>
        ensures thread { result ≡ running self.now }
        ensures none { IsNone result ↔ IsSome (ended self.now) }
    {
        if self.ended().is_some() {
            return None;
        }
        let live = self.engine.running();
        Some((live.no, live.regs.pc))
    }

    /// How many steps have been made.
    #[inline(always)]
    pub fn steps(&self) -> u64
        ensures { result ≡ self.now.engine.kernel.guest.steps }
    {
        let kernel = &self.engine.kernel;
        let guest = &kernel.guest;
        guest.steps
    }

    /// How many steps are left of the running thread's turn.
    #[inline(always)]
    pub fn steps_left(&self) -> u32
        ensures { result ≡ self.now.engine.run_queue.steps_left }
    {
        self.engine.steps_left()
    }

    /// How many threads have been made.
    pub fn threads(&self) -> u32
        ensures { result ≡ self.now.engine.kernel.guest.made }
    {
        let kernel = &self.engine.kernel;
        let guest = &kernel.guest;
        guest.made
    }

    /// The address at which the thread of the last retired step began to wait in that step.
    #[inline(always)]
    pub fn last_wait(&self) -> Option<u32>
        ensures { result ≡ self.now.wait }
    {
        self.wait
    }

    /// The threads that the last retired step woke, in order of waking.
    #[inline(always)]
    pub fn last_woken(&self) -> &[ThreadNo]
        ensures { result.now ≡ self.now.woken }
    {
        let woken = &self.woken;
        &woken.items
    }
}

/// What a system call outputs, if it does: a descriptor, and the bytes.
fn output(act: Act) -> Option<(u32, Text)>
    ensures { result ≡ output_of act }
{
    match act {
        Act::Output(descriptor, bytes) => Some((descriptor, bytes)),
        _ => None,
    }
}
