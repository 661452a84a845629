//! What counts the steps of a run.

ghost use Rattle.std.specs.Prelude.{◌≡◌, ◌<◌, ◌≤◌, ◌^◌, ◌+◌, ◌-◌, ◌++◌, ◌∷◌, []};
ghost use Rattle.std.specs.Prelude.{ℕ, ◌==◌, List, None, OnOk, Some, if◌then◌else◌, is_some, length, nat_le, option_map, slice_get, true};
ghost use Rattle.std.specs.Option.{option_map_or, option_or};
ghost use Rattle.event_costs.specs.declared.outcome.End.TheVariants.{AllWaiting, Budget, Exited, Frames};
ghost use Rattle.shadow_stack.specs.Stacks.{most_frames};
ghost use Rattle.part_dump.specs.Cuts.{every_cut};
ghost use Rattle.event_costs.specs.declared.numbers.ThreadNo.{ThreadNo as ThreadNoValue};
ghost use Rattle.cache_lru.specs.Costs.{RunCosts as RunCostsValue};
ghost use Rattle.recorder.specs.Accounts.{account, live};
ghost use Rattle.profile_run.specs.Program.{Program as ProgramValue};
ghost use Rattle.profile_run.specs.Trace.{RunStep, run_step};
ghost use Rattle.profile_run.specs.inner.Standing.{Begins, CanCount, CanTell, IsCostOf, IsCounted, IsMade};
ghost use Rattle.profile_run.specs.inner.Standing.{OnlyAdds, Prepares, is_exit};
ghost use Rattle.guest_sched.specs.Machine.{ended};

use byte_text::OutOfMemory;
use cache_lru::RunCosts;
use event_costs::{End, Event, Noted, Ones, ThreadNo};
use guest_sched::Machine;
use part_dump::{DumpRule, Watch};
use recorder::{MOST_FRAMES, Recorder};
use std::alloc::Global;
use sym_map::SymMap;

/// What a step did to the stack of its thread, and whether it is known that it only added to numbers.
#[derive(Clone, Copy, Debug)]
pub struct CountedStep {
    pub noted: Noted,
    pub plain: bool,
}

/// The machine, the costs of its events, and the accounts of its threads.
#[derive(Drop)]
pub struct Counting {
    pub machine: Machine,
    pub costs: RunCosts,
    pub recorder: Recorder,
}

impl Counting {
    /// Whether an end stands before a step is tried: `end_before` says which.
    #[inline(always)]
    pub fn is_over(&self, budget: u64) -> bool
        ensures over { self.now.machine.given ≡ None → result ≡ is_some (option_or
            (option_map Exited self.now.machine.engine.exit)
            (option_or (if self.now.machine.engine.kernel.guest.steps == budget then Some (Budget budget) else None)
            (option_or (if nat_le most_frames (live self.now.recorder) then Some Frames else None)
            (option_map_or (λ first. None) (slice_get self.now.machine.engine.run_queue.ready 0) (Some AllWaiting))))) }
        ensures shallow { (thread : ThreadNoValue)
            → length (account self.now.recorder thread).frames ≤ live self.now.recorder + 1 }
    {
        let steps = self.machine.steps();
        let live = self.recorder.live_frames();
        if steps == budget {
            return true;
        }
        if live >= MOST_FRAMES {
            return true;
        }
        self.machine.ended().is_some()
    }

    /// The end that stands before a step is tried: the guest has exited, the budget is spent, as many frames are live
    /// as may be, or no thread is ready. The room for it is made where this is called, and not at each step.
    #[inline(always)]
    pub fn end_before(&self, budget: u64) -> Option<End>
        ensures { self.now.machine.given ≡ None → result ≡ option_or
            (option_map Exited self.now.machine.engine.exit)
            (option_or (if self.now.machine.engine.kernel.guest.steps == budget then Some (Budget budget) else None)
            (option_or (if nat_le most_frames (live self.now.recorder) then Some Frames else None)
            (option_map_or (λ first. None) (slice_get self.now.machine.engine.run_queue.ready 0) (Some AllWaiting)))) }
    {
        let end = self.end_before_cold(budget);
        end
    }

    /// What `end_before` answers.
    #[cold]
    fn end_before_cold(&self, budget: u64) -> Option<End>
        ensures { self.now.machine.given ≡ None → result ≡ option_or
            (option_map Exited self.now.machine.engine.exit)
            (option_or (if self.now.machine.engine.kernel.guest.steps == budget then Some (Budget budget) else None)
            (option_or (if nat_le most_frames (live self.now.recorder) then Some Frames else None)
            (option_map_or (λ first. None) (slice_get self.now.machine.engine.run_queue.ready 0) (Some AllWaiting)))) }
    {
        let ended = self.machine.ended();
        let frames = self.recorder.live_frames();
        if is_exit(ended) {
            return ended;
        }
        if self.machine.steps() == budget {
            return Some(End::Budget(budget));
        }
        if frames >= MOST_FRAMES {
            return Some(End::Frames);
        }
        ended
    }

    /// How many steps of the running thread may follow its next one before an end or a cut has to be looked for, if
    /// each only adds to numbers: its turn and the budget leave one more at least, and so does the next cut that stands
    /// for a number of steps. One that stands for a function stands at no such step.
    #[inline(always)]
    pub fn more(&self, rule: &DumpRule, budget: u64) -> u64
        requires { self.now.machine.engine.kernel.guest.steps < budget }
        ensures turn { result ≤ self.now.machine.engine.run_queue.steps_left - 1 }
        ensures budget { self.now.machine.engine.kernel.guest.steps + result < budget }
        ensures uncut { (n : ℕ) → self.now.machine.engine.kernel.guest.steps < n
            → n ≤ self.now.machine.engine.kernel.guest.steps + result → every_cut rule.now.dump_points.every n ≡ None }
    {
        let steps = self.machine.steps();
        let turn = u64::from(self.machine.steps_left()).saturating_sub(1);
        let spare = budget - steps - 1;
        turn.min(spare).min(rule.steps_to_cut(steps))
    }

    /// The running thread is about to step: it is known from here on, its next note takes no memory, and the watch is
    /// told.
    #[inline(always)]
    pub fn begin<W: Watch>(&mut self, watch: &mut W, syms: &SymMap) -> Result<(), OutOfMemory>
        requires { ended self.old.machine ≡ None }
        ensures begins { OnOk result (Begins W.meaning syms.now self.old.machine self.old.recorder self.new.recorder
            watch.old watch.new) }
        ensures machine { self.new.machine ≡ self.old.machine }
        ensures costs { self.new.costs ≡ self.old.costs }
    {
        let Some((thread, pc)) = self.machine.running() else {
            unreachable!()
        };
        prepare(&mut self.recorder, thread, pc, syms)?;
        watch.ready(thread, pc, syms)
    }

    /// Counts a step that was made, and tells the watch. Most steps only add to numbers that are found at once: these
    /// call nothing.
    #[inline(always)]
    pub fn count<W: Watch>(
        &mut self,
        event: &Event,
        rule: &DumpRule,
        watch: &mut W,
        syms: &SymMap,
    ) -> CountedStep
        requires { CanCount W.meaning W.fresh syms.now event.now self.old.machine self.old.costs self.old.recorder
            watch.old }
        ensures counted { (guest : ProgramValue) (first : W) (past : List RunStep)
            → (made : IsMade W.meaning guest first past event.now self.old.machine self.old.costs self.old.recorder
            watch.old)
            → guest.syms ≡ syms.now → guest.options.budget ≤ 10 ^ 12
            → IsCounted W.meaning guest first past (run_step guest past made.outcome) rule.now.after result.noted
            self.new.machine self.new.costs self.new.recorder watch.new }
        ensures machine { self.new.machine ≡ self.old.machine }
        ensures plain { result.plain ≡ true
            → OnlyAdds event.now.thread result.noted self.old.recorder self.new.recorder }
    {
        let Some(ones) = self.costs.plain_ones(event) else {
            let noted = self.count_shell(event, rule, watch, syms);
            return CountedStep {
                noted,
                plain: false,
            };
        };
        if !self.recorder.is_plain(event, syms) {
            let noted = self.count_shell(event, rule, watch, syms);
            return CountedStep {
                noted,
                plain: false,
            };
        }
        let noted = self
            .recorder
            .note_event(event, &ones, syms, rule.after_set());
        let numbers = ones.cost();
        watch.seen(
            event,
            &numbers,
            self.machine.last_wait(),
            self.machine.last_woken(),
            syms,
        );
        CountedStep { noted, plain: true }
    }

    /// What `count` does, with a copy of the event, whose address the loop of a run needn't keep then. What seldom comes
    /// calls it, so that `count` is laid into that loop: it is called there alone.
    #[inline(always)]
    pub fn count_shell<W: Watch>(
        &mut self,
        event: &Event,
        rule: &DumpRule,
        watch: &mut W,
        syms: &SymMap,
    ) -> Noted
        requires { CanCount W.meaning W.fresh syms.now event.now self.old.machine self.old.costs self.old.recorder
            watch.old }
        ensures counted { (guest : ProgramValue) (first : W) (past : List RunStep)
            → (made : IsMade W.meaning guest first past event.now self.old.machine self.old.costs self.old.recorder
            watch.old)
            → guest.syms ≡ syms.now → guest.options.budget ≤ 10 ^ 12
            → IsCounted W.meaning guest first past (run_step guest past made.outcome) rule.now.after result
            self.new.machine self.new.costs self.new.recorder watch.new }
        ensures machine { self.new.machine ≡ self.old.machine }
    {
        let event = event.copied();
        let noted = self.count_cold(&event, rule, watch, syms);
        noted
    }

    /// What `count` does. It has a frame of its own, so that a step which calls nothing needs none; and it is called
    /// seldom, so that such a step has the registers.
    #[cold]
    #[inline(never)]
    fn count_cold<W: Watch>(
        &mut self,
        event: &Event,
        rule: &DumpRule,
        watch: &mut W,
        syms: &SymMap,
    ) -> Noted
        requires { CanCount W.meaning W.fresh syms.now event.now self.old.machine self.old.costs self.old.recorder
            watch.old }
        ensures counted { (guest : ProgramValue) (first : W) (past : List RunStep)
            → (made : IsMade W.meaning guest first past event.now self.old.machine self.old.costs self.old.recorder
            watch.old)
            → guest.syms ≡ syms.now → guest.options.budget ≤ 10 ^ 12
            → IsCounted W.meaning guest first past (run_step guest past made.outcome) rule.now.after result
            self.new.machine self.new.costs self.new.recorder watch.new }
        ensures machine { self.new.machine ≡ self.old.machine }
    {
        let ones = self.costs.ones(event);
        // It is told either way: what is known of a plain event needn't be asked again then.
        if self.recorder.is_plain(event, syms) {
            return self.tell(event, &ones, rule, watch, syms);
        }
        self.tell(event, &ones, rule, watch, syms)
    }

    /// Notes a step whose cost is known, and tells the watch.
    #[inline(always)]
    fn tell<W: Watch>(
        &mut self,
        event: &Event,
        ones: &Ones,
        rule: &DumpRule,
        watch: &mut W,
        syms: &SymMap,
    ) -> Noted
        requires { CanTell W.meaning W.fresh syms.now event.now self.old.machine self.old.costs self.old.recorder
            watch.old ones.now }
        ensures counted { (before : RunCostsValue) (guest : ProgramValue) (first : W) (past : List RunStep)
            → (made : IsMade W.meaning guest first past event.now self.old.machine before self.old.recorder watch.old)
            → IsCostOf event.now before self.old.costs ones.now
            → guest.syms ≡ syms.now → guest.options.budget ≤ 10 ^ 12
            → IsCounted W.meaning guest first past (run_step guest past made.outcome) rule.now.after result
            self.new.machine self.new.costs self.new.recorder watch.new }
        ensures machine { self.new.machine ≡ self.old.machine }
    {
        let noted = self
            .recorder
            .note_event(event, ones, syms, rule.after_set());
        let cost = ones.cost();
        watch.seen(
            event,
            &cost,
            self.machine.last_wait(),
            self.machine.last_woken(),
            syms,
        );
        noted
    }
}

/// Whether it is the end of a guest that has exited.
fn is_exit(end: Option<End>) -> bool
    ensures { result ≡ is_exit end }
{
    match end {
        Some(End::Exited(_)) => true,
        _ => false,
    }
}

/// Begins the account of a thread where it is new, and makes room for a note of it.
#[inline(always)]
fn prepare(
    recorder: &mut Recorder,
    thread: ThreadNo,
    pc: u32,
    syms: &SymMap,
) -> Result<(), OutOfMemory>
    ensures { OnOk result (Prepares syms.now thread pc recorder.old recorder.new) }
{
    if recorder.is_remembered(thread) {
        return Ok(());
    }
    prepare_cold(recorder, thread, pc, syms)
}

/// What `prepare` does where the thread isn't remembered as ready. It has a frame of its own, so that a thread which is
/// needs none.
#[cold]
#[inline(never)]
fn prepare_cold(
    recorder: &mut Recorder,
    thread: ThreadNo,
    pc: u32,
    syms: &SymMap,
) -> Result<(), OutOfMemory>
    ensures { OnOk result (Prepares syms.now thread pc recorder.old recorder.new) }
{
    if recorder.remember(thread) {
        return Ok(());
    }
    if recorder.knows(thread) {
        return recorder.ready(thread);
    }
    recorder.start(thread, pc, syms)?;
    recorder.ready(thread)
}
