//! A guest whose threads take turns, and the stages of its step.

ghost use Rattle.std.specs.Prelude.{◌≡◌, ◌+◌, ◌-◌, ◌<◌, ◌≤◌, ◌^◌, ◌++◌, [], ◌∷◌, length, map};
ghost use Rattle.std.specs.Prelude.{IfOk, IsSome, None, OnErr, Some, slice_get, slice_index};
ghost use Rattle.std.specs.Option.{option_map, option_to_list};
ghost use Rattle.std.specs.List.Sorted.{IsStrictlyIncreasing};
ghost use Rattle.rv_step.specs.Code.{IsCodeOf};
ghost use Rattle.guest_load.specs.Lawful.{IsLawful};
ghost use Rattle.guest_futex.specs.Waits.{times_waiting};
ghost use Rattle.guest_sys.specs.CallRow.{Calls, call_row, caller_of};
ghost use Rattle.guest_sys.specs.Common.{IsCaller, WhereRefused};
ghost use Rattle.guest_sys.specs.Laws.{ChangesNothing, IsBalanced, spawned_by};
ghost use Rattle.guest_sys.specs.Kernel.{EachWaiterLives, IsLive, Kernel, kernel_of};
ghost use Rattle.guest_sys.specs.Taking.{CallTakes};
ghost use Rattle.guest_sys.specs.declared.caller.Caller.{Caller};
ghost use Rattle.guest_sched.specs.declared.turns.Fate.{Fate};
ghost use Rattle.guest_sched.specs.RunQueue.{with_threads, ends_turn, after_step};
ghost use Rattle.guest_sched.specs.Engine.{begins, first_engine, next_turn, runner, engine_after_step};
ghost use Rattle.guest_sched.specs.Step.{call_done, call_step, with_step_more, ends_thread, exit_of, fate_of, with_call};
ghost use Rattle.guest_sched.specs.inner.Sound.{IsLively, IsSound, number_at, on_turn, engine_of};
ghost use Rattle.guest_sched.specs.inner.Stages.{IsAdvanced, IsCallOutcome, IsExecuted};

use crate::acts::{ends_thread, exit_of, fate_of, signal_of, spawned_by};
use crate::places::place_of;
use crate::run_queue::{Ready, RunQueue};
use crate::turns::{Fate, Turns};
use byte_text::OutOfMemory;
use event_costs::{Branch, Done, End, Event, Flow, Regs, STACK_POINTER, ThreadNo, Touch};
use guest_load::{Guest, Thread};
use guest_sys::{Act, Effect, Kernel, SysEnd};
use rv_step::{Code, Stepped, step_kept};
use std::alloc::Global;

/// A guest whose threads take turns.
#[derive(Drop)]
pub struct Engine {
    pub kernel: Kernel,
    pub run_queue: RunQueue,
    /// The place of the running thread among the live ones.
    pub place: usize,
    /// The address that the running thread has reserved.
    pub held: Option<u32>,
    /// The exit code, once the guest has exited.
    pub exit: Option<u8>,
}

/// What became of a system call.
#[derive(Debug, Drop)]
pub enum CallOutcome {
    /// It retired with this event.
    Retired(Event, Effect),
    /// It ends the run, and nothing changed.
    Refused(End),
}

/// Executes the instruction at which a live thread stands, and counts it where it retires.
#[inline(always)]
fn execute(guest: &mut Guest, place: usize, held: &mut Option<u32>, code: &mut Code) -> Stepped
    requires within { place < length guest.old.threads }
    requires few { guest.old.steps < 2 ^ 64 - 1 }
    requires code { IsCodeOf code.old guest.old.mem }
    ensures code { IsCodeOf code.new guest.new.mem }
    ensures executed { (c : Caller) → IsCaller guest.old c → c.place ≡ place
        → IsExecuted c guest.old held.old result guest.new held.new }
    ensures lawful { IsLawful guest.old }
    ensures numbers { map (λ t. t.no.0) guest.new.threads ≡ map (λ t. t.no.0) guest.old.threads }
{
    let thread = &mut guest.threads[place];
    let stepped = step_kept(&mut thread.regs, &mut guest.mem, held, code);
    if let Stepped::Retired(_) = stepped {
        guest.steps += 1;
    }
    stepped
}

/// The same for a thread of a kernel, in which nobody begins or ceases to wait by an instruction.
#[inline(always)]
fn execute_in(kernel: &mut Kernel, place: usize, held: &mut Option<u32>, code: &mut Code) -> Stepped
    requires within { place < length kernel.old.guest.threads }
    requires few { kernel.old.guest.steps < 2 ^ 64 - 1 }
    requires code { IsCodeOf code.old kernel.old.guest.mem }
    ensures code { IsCodeOf code.new kernel.new.guest.mem }
    ensures executed { (c : Caller) → IsCaller kernel.old.guest c → c.place ≡ place
        → IsExecuted c kernel.old.guest held.old result kernel.new.guest held.new }
    ensures lawful { IsLawful kernel.old.guest }
    ensures numbers { map (λ t. t.no.0) kernel.new.guest.threads ≡ map (λ t. t.no.0) kernel.old.guest.threads }
    ensures waits { kernel.new.waits ≡ kernel.old.waits }
{
    execute(&mut kernel.guest, place, held, code)
}

/// Makes the system call of a thread, and forgets the code that it may have changed.
fn call_in(kernel: &mut Kernel, thread: ThreadNo, code: &mut Code) -> Result<Effect, SysEnd>
    requires live { IsLive thread kernel.old.guest.threads }
    requires runs { times_waiting thread kernel.old.waits ≡ 0 }
    requires code { IsCodeOf code.old kernel.old.guest.mem }
    ensures row { Calls (call_row kernel.old thread) kernel.old result kernel.new }
    ensures refused { OnErr result (kernel.new ≡ kernel.old) }
    ensures memory { WhereRefused result (CallTakes kernel.old (caller_of thread kernel.old.guest.threads)) }
    ensures killed { IfOk result (λ effect. ChangesNothing effect.act kernel.old kernel.new) }
    ensures balance { IfOk result (λ effect. IsBalanced thread kernel.old effect kernel.new) }
    ensures code { IsCodeOf code.new kernel.new.guest.mem }
{
    let within = kernel.reach(thread);
    code.forget_within(within.address, within.bytes);
    kernel.call(thread)
}

/// The live threads.
#[inline(always)]
fn threads(kernel: &Kernel) -> &[Thread]
    ensures threads { result.now ≡ kernel.now.guest.threads }
    ensures lawful { IsLawful kernel.now.guest }
{
    let guest = &kernel.guest;
    &guest.threads
}

/// One step more has been made.
fn count_step(kernel: &mut Kernel)
    requires { kernel.old.guest.steps < 2 ^ 64 - 1 }
    ensures counted { kernel.new ≡ kernel_of (with_step_more kernel.old.guest) kernel.old.waits }
    ensures few { length kernel.new.guest.threads ≤ 1024 }
{
    let guest = &mut kernel.guest;
    guest.steps += 1;
}

/// What a system call does as an event: it goes on at the next instruction.
fn call_done(regs: &Regs) -> Done
    ensures { result ≡ call_done regs.now }
{
    Done {
        pc: regs.pc,
        next: regs.pc.wrapping_add(4),
        sp: regs.x[STACK_POINTER],
        flow: Flow::Plain,
        touch: Touch::Nothing,
        branch: Branch::Nothing,
    }
}

impl Engine {
    /// A guest whose live threads are all ready, by rising number. Its first turn has begun.
    pub fn new(alloc: Global, guest: Guest, turns: Turns) -> Result<Engine, OutOfMemory>
        requires { 1 ≤ turns.quantum }
        ensures first { IfOk result (λ e. engine_of e ≡ first_engine guest turns.quantum turns.seed) }
        ensures sound { IfOk result IsSound }
    {
        let mut run_queue = RunQueue::new(alloc, turns)?;
        run_queue.enter_live(&guest.threads);
        let mut engine = Engine {
            kernel: Kernel::new(alloc, guest),
            run_queue,
            place: 0,
            held: None,
            exit: None,
        };
        engine.begin_turn();
        Ok(engine)
    }

    /// The place of a thread that is ready is found, which last ran at this place.
    #[inline]
    fn find_place(&mut self, ready: Ready)
        requires lively { IsLively self.old.run_queue.ready self.old.kernel }
        requires first { slice_get self.old.run_queue.ready 0 ≡ Some ready.thread }
        ensures same { self.new ≡ record self.old { place = self.new.place } }
        ensures placed { number_at self.new.kernel.guest.threads self.new.place ≡ Some ready.thread.0 }
    {
        self.place = place_of(threads(&self.kernel), ready.thread, ready.place);
    }

    /// The first thread's turn begins, where the guest hasn't exited and a thread is ready.
    #[inline]
    fn begin(&mut self)
        requires { 1 ≤ self.old.run_queue.quantum }
        ensures { self.new
            ≡ record self.old { run_queue = begins self.old.exit self.old.run_queue.ready self.old.run_queue } }
    {
        if self.exit.is_some() || self.run_queue.is_empty() {
            return;
        }
        self.run_queue.begin();
    }

    /// The next turn begins, if one does. The end of the last one clears the reservation.
    #[inline]
    fn begin_turn(&mut self)
        requires lively { IsLively self.old.run_queue.ready self.old.kernel }
        requires quantum { 1 ≤ self.old.run_queue.quantum }
        ensures turn { engine_of self.new ≡ next_turn (record (engine_of self.old) { held = None }) }
        ensures sound { IsSound self.new }
    {
        self.held = None;
        self.begin();
        if let Some(ready) = self.run_queue.first() {
            self.find_place(ready);
        }
    }

    /// An instruction of the running thread has retired.
    #[inline(always)]
    fn pass(&mut self)
        requires sound { IsSound self.old }
        requires runs { IsSome (on_turn self.old.exit self.old.run_queue.ready) }
        ensures turn { engine_of self.new ≡ engine_after_step Fate.Runs [] (engine_of self.old) }
        ensures sound { IsSound self.new }
    {
        if self.run_queue.pass(self.place) {
            self.begin_turn();
        }
    }

    /// Executes the instruction at which the running thread stands.
    #[inline(always)]
    pub fn advance(&mut self, code: &mut Code) -> Stepped
        requires sound { IsSound self.old }
        requires runs { IsSome (on_turn self.old.exit self.old.run_queue.ready) }
        requires few { self.old.kernel.guest.steps < 2 ^ 64 - 1 }
        requires code { IsCodeOf code.old self.old.kernel.guest.mem }
        ensures code { IsCodeOf code.new self.new.kernel.guest.mem }
        ensures step { (c : Caller) → runner (engine_of self.old) ≡ Some c
            → IsAdvanced c (engine_of self.old) result (engine_of self.new) }
        ensures sound { IsSound self.new }
    {
        let stepped = execute_in(&mut self.kernel, self.place, &mut self.held, code);
        if let Stepped::Retired(_) = stepped {
            self.pass();
        }
        stepped
    }

    /// A system call of the running thread has retired.
    fn turn(&mut self, fate: Fate, woken: &[ThreadNo], made: Option<ThreadNo>)
        requires lively { let line = after_step fate (woken.now ++ option_to_list made) self.old.run_queue in
            IsLively line.ready self.old.kernel }
        requires quantum { 1 ≤ self.old.run_queue.quantum }
        requires left { 1 ≤ self.old.run_queue.steps_left }
        requires runs { 0 < length self.old.run_queue.ready }
        requires few { length self.old.kernel.guest.threads ≤ 1024 }
        ensures turn { engine_of self.new ≡ engine_after_step fate (woken.now ++ option_to_list made) (engine_of self.old) }
        ensures sound { IsSound self.new }
    {
        let place = self.place;
        if self.run_queue.pass_call(fate, woken, made, place) {
            return self.begin_turn();
        }
        if let Some(Ready { thread, .. }) = self.run_queue.first() {
            self.find_place(Ready { thread, place });
        }
    }

    /// A system call with this effect has retired.
    fn settle(&mut self, effect: &Effect)
        requires lively { let threads = effect.now.woken ++ spawned_by effect.now.act in
            IsLively (after_step (fate_of effect.now.act) threads self.old.run_queue).ready self.old.kernel }
        requires quantum { 1 ≤ self.old.run_queue.quantum }
        requires left { 1 ≤ self.old.run_queue.steps_left }
        requires runs { 0 < length self.old.run_queue.ready }
        requires few { self.old.kernel.guest.steps < 2 ^ 64 - 1 }
        ensures turn { let threads = effect.now.woken ++ spawned_by effect.now.act in
            let after = with_call (engine_of self.old) effect.now.act self.old.kernel in
            engine_of self.new ≡ engine_after_step (fate_of effect.now.act) threads after }
        ensures sound { IsSound self.new }
    {
        count_step(&mut self.kernel);
        self.exit = exit_of(&effect.act);
        let woken = &effect.woken;
        self.turn(fate_of(&effect.act), &woken.items, spawned_by(&effect.act));
    }

    /// How many steps are left of the running thread's turn.
    #[inline(always)]
    pub fn steps_left(&self) -> u32
        ensures { result ≡ self.now.run_queue.steps_left }
    {
        self.run_queue.steps_left()
    }

    /// The running thread.
    #[inline(always)]
    pub fn running(&self) -> &Thread
        requires sound { IsSound self.now }
        requires runs { IsSome (on_turn self.now.exit self.now.run_queue.ready) }
        ensures first { slice_get self.now.run_queue.ready 0 ≡ Some result.now.no }
        ensures lawful { IsLawful self.now.kernel.guest }
        ensures thread { (c : Caller) → runner (engine_of self.now) ≡ Some c → result.now ≡ c.thread }
    {
        &threads(&self.kernel)[self.place]
    }

    /// Makes the system call at which the running thread stands.
    pub fn call(&mut self, code: &mut Code) -> Result<CallOutcome, OutOfMemory>
        requires sound { IsSound self.old }
        requires runs { IsSome (on_turn self.old.exit self.old.run_queue.ready) }
        requires few { self.old.kernel.guest.steps < 2 ^ 64 - 1 }
        requires code { IsCodeOf code.old self.old.kernel.guest.mem }
        ensures code { IsCodeOf code.new self.new.kernel.guest.mem }
        ensures step { (c : Caller) → runner (engine_of self.old) ≡ Some c
            → IsCallOutcome (call_step (engine_of self.old) c) (engine_of self.old) result (engine_of self.new) }
        ensures sound { IsSound self.new }
    {
        let live = self.running();
        let thread = live.no;
        let done = call_done(&live.regs);
        match call_in(&mut self.kernel, thread, code) {
            Ok(effect) => {
                if let Some(signal) = signal_of(&effect.act) {
                    return Ok(CallOutcome::Refused(End::Killed(signal, done.pc)));
                }
                self.settle(&effect);
                let ends = ends_thread(&effect.act);
                Ok(CallOutcome::Retired(Event { thread, done, ends }, effect))
            }
            Err(SysEnd::Unsupported(number)) => {
                Ok(CallOutcome::Refused(End::UnsupportedCall(done.pc, number)))
            }
            Err(SysEnd::OutOfMemory(refused)) => Err(refused),
        }
    }
}
