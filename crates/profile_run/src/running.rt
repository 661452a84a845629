//! The run.

ghost use Rattle.std.specs.Prelude.{◌≡◌, ◌+◌, ◌<◌, ◌≤◌, ◌^◌, ◌++◌, ◌∷◌, [], List};
ghost use Rattle.std.specs.Prelude.{Some, IfOk, IfSome, is_some, length, map, true};
ghost use Rattle.std.specs.Prelude.{string_bytes};
ghost use Rattle.outside.specs.Outside.{Shelf, Stream, outside_of, outside_with, shelf_of};
ghost use Rattle.part_dump.specs.Watching.{after_calls};
ghost use Rattle.profile_run.specs.Program.{Program as ProgramValue};
ghost use Rattle.profile_run.specs.Parts.{calls_of, plain_parts, watched_parts};
ghost use Rattle.profile_run.specs.Runs.{Answers};
ghost use Rattle.profile_run.specs.Trace.{IsTraceOf, Stop, RunStep, steps_of};
ghost use Rattle.event_costs.specs.declared.numbers.ThreadNo.{ThreadNo};
ghost use Rattle.recorder.specs.Accounts.{knows, live};
ghost use Rattle.guest_sched.specs.Machine.{halt_of};
ghost use Rattle.part_dump.specs.Cuts.{DumpPoints, cut_after};
ghost use Rattle.part_dump.specs.Rules.{IsNotedOf, IsRuleOf, due_after};
ghost use Rattle.shadow_stack.specs.Traces.{EventOnStack};
ghost use Rattle.sym_map.specs.SymbolMap.{SymbolMap};
ghost use Rattle.profile_run.specs.inner.Standing.{Advances, CanCut, CanPut, CutsAny, GoesOn, HasPut, IsJob, IsPutting};
ghost use Rattle.profile_run.specs.inner.Standing.{IsStarted, IsUncut, IsWritten, Job, MayFollow};
ghost use Rattle.profile_run.specs.inner.Standing.{Plan, PutsThreads, RunsJob, RunsToEnd};
ghost use Rattle.profile_run.specs.inner.Standing.{Standing, calls_below, files_after, files_at};

use crate::options::RunOptions;
use crate::output::write_output;
use crate::run_end::RunEnd;
use crate::run_fault::RunFault;
use crate::started_run::{StartedRun, begin, rule_of};
use byte_text::OutOfMemory;
use cg_format::Trigger;
use elf_read::Elf;
use event_costs::{Branch, Done, End, Event, Noted, Touch};
use guest_sched::{Halt, Turn};
use outside::{Folder, Sink};
use part_dump::{DumpRule, NoWatch, Watch};
use std::alloc::Global;
use sym_map::{SymMap, maps_are_sound};

/// Only the first so many cuts count.
const MOST_CUTS: u32 = 4_095;

/// What is run: a program with its map, its arguments and its input, and what is asked of its run.
#[derive(Drop)]
struct Program<'a> {
    elf: &'a Elf<'a>,
    syms: &'a SymMap,
    args: &'a [String],
    input: Vec<u8>,
    options: &'a RunOptions,
}

/// What is asked of a run, with its rule of cuts and the map of its program.
#[derive(Drop)]
pub struct Order<'a> {
    pub rule: DumpRule,
    pub options: &'a RunOptions,
    pub syms: &'a SymMap,
}

/// Loads a program and runs it, as `run_watched` does, and nobody watches: the files are the parts of the segments.
pub fn run<F: Folder, O: Sink, E: Sink>(
    alloc: Global,
    elf: &Elf<'_>,
    syms: &SymMap,
    args: &[String],
    input: Vec<u8>,
    options: &RunOptions,
    folder: &mut F,
    out: &mut O,
    err: &mut E,
) -> Result<RunEnd, RunFault>
    requires named { 0 < length args.now }
    requires some_steps { 1 ≤ options.now.budget }
    requires few_steps { options.now.budget ≤ 10 ^ 12 }
    requires turns { 1 ≤ options.now.quantum }
    requires every { IfSome options.now.dump_points.every (λ n. 0 < n) }
    ensures answer { let guest : ProgramValue = record {
      image = elf.now;
      syms = syms.now;
      args = map string_bytes args.now;
      input = input.items;
      options = options.now;
    } in
        Answers (plain_parts guest) guest
        (outside_of F.Folder O.Sink E.Sink folder.old out.old err.old)
        result
        (outside_of F.Folder O.Sink E.Sink folder.new out.new err.new) }
    ensures same_load_faults { F.load_faults folder.new ≡ F.load_faults folder.old }
    ensures put_faults_never_fall { F.put_faults folder.old ≤ F.put_faults folder.new }
    ensures out_faults_never_fall { O.faults out.old ≤ O.faults out.new }
    ensures err_faults_never_fall { E.faults err.old ≤ E.faults err.new }
{
    let mut watch = NoWatch::new(alloc);
    run_watched(
        alloc, elf, syms, args, input, options, &mut watch, folder, out, err,
    )
}

/// Loads a program with its arguments, of which the first is its name, and its input, and runs it within a budget of
/// steps. The watch is told that a thread is ready before each step, and of the step after it. The guest's bytes go to
/// the sinks as they are written. After a cut and at the end the parts of the segment are put, each with the text that
/// the watch answers.
///
/// # Errors
///
/// `ArgsTooLong` and `GuestFull` where the program can't be loaded; nothing was put out then. `PutFault` and `OutFault`
/// where the folder refused a part or a sink the guest's output; what was put out before stands.
pub fn run_watched<F: Folder, O: Sink, E: Sink, W: Watch>(
    alloc: Global,
    elf: &Elf<'_>,
    syms: &SymMap,
    args: &[String],
    input: Vec<u8>,
    options: &RunOptions,
    watch: &mut W,
    folder: &mut F,
    out: &mut O,
    err: &mut E,
) -> Result<RunEnd, RunFault>
    requires named { 0 < length args.now }
    requires some_steps { 1 ≤ options.now.budget }
    requires few_steps { options.now.budget ≤ 10 ^ 12 }
    requires turns { 1 ≤ options.now.quantum }
    requires every { IfSome options.now.dump_points.every (λ n. 0 < n) }
    requires fresh { W.fresh watch.old syms.now }
    ensures answer { let guest : ProgramValue = record {
      image = elf.now;
      syms = syms.now;
      args = map string_bytes args.now;
      input = input.items;
      options = options.now;
    } in
        Answers (watched_parts W.meaning watch.old guest) guest
        (outside_of F.Folder O.Sink E.Sink folder.old out.old err.old)
        result
        (outside_of F.Folder O.Sink E.Sink folder.new out.new err.new) }
    ensures same_load_faults { F.load_faults folder.new ≡ F.load_faults folder.old }
    ensures put_faults_never_fall { F.put_faults folder.old ≤ F.put_faults folder.new }
    ensures out_faults_never_fall { O.faults out.old ≤ O.faults out.new }
    ensures err_faults_never_fall { E.faults err.old ≤ E.faults err.new }
    // The watch was told of the whole run.
    ensures watched { IfOk result (λ _. (trace : List RunStep) (stop : Stop) →
        let guest : ProgramValue = record {
          image = elf.now;
          syms = syms.now;
          args = map string_bytes args.now;
          input = input.items;
          options = options.now;
        } in
        IsTraceOf guest trace stop
        → watch.new ≡ after_calls W.meaning syms.now watch.old (calls_of guest (steps_of trace) stop.tried)) }
{
    let program = Program {
        elf,
        syms,
        args,
        input,
        options,
    };
    begin_and_run(alloc, program, watch, folder, out, err)
}

/// Loads a program and runs it: a job is what it is of, and what the outside and the watch were before it.
fn begin_and_run<F: Folder, O: Sink, E: Sink, W: Watch>(
    alloc: Global,
    program: Program<'_>,
    watch: &mut W,
    folder: &mut F,
    out: &mut O,
    err: &mut E,
) -> Result<RunEnd, RunFault>
    ghost job: { Job W }
    requires named { 0 < length program.args.now }
    requires few_steps { program.options.now.budget ≤ 10 ^ 12 }
    requires turns { 1 ≤ program.options.now.quantum }
    requires every { IfSome program.options.now.dump_points.every (λ n. 0 < n) }
    requires fresh { W.fresh watch.old program.syms.now }
    requires guest { job.guest ≡ record {
      image = program.elf.now;
      syms = program.syms.now;
      args = map string_bytes program.args.now;
      input = program.input.items;
      options = program.options.now;
    } }
    requires untold { job.first ≡ watch.old }
    requires before { job.old ≡ outside_of F.Folder O.Sink E.Sink folder.old out.old err.old }
    ensures { RunsJob W.meaning job result watch.new
        (outside_of F.Folder O.Sink E.Sink folder.new out.new err.new) }
{
    let syms = program.syms;
    let order = Order {
        rule: rule_of(alloc, program.options, syms)?,
        options: program.options,
        syms,
    };
    let mut begun = begin(
        alloc,
        program.elf,
        program.args,
        program.input,
        program.options,
    )?;
    maps_are_sound(syms);
    let end = run_to_end(&mut begun, &order, watch, folder, out, err);
    begun.answer(end)
}

/// Runs a guest to its end, and puts its parts.
fn run_to_end<F: Folder, O: Sink, E: Sink, W: Watch>(
    begun: &mut StartedRun,
    order: &Order<'_>,
    watch: &mut W,
    folder: &mut F,
    out: &mut O,
    err: &mut E,
) -> Result<End, RunFault>
    ghost job: { Job W }
    requires job { IsJob W.fresh job order.now }
    requires stands { Standing W.meaning job begun.old.counting begun.old.parts watch.old
        (outside_of F.Folder O.Sink E.Sink folder.old out.old err.old) }
    ensures { RunsToEnd W.meaning job result begun.new.counting begun.new.parts watch.new
        (outside_of F.Folder O.Sink E.Sink folder.new out.new err.new) }
{
    'run: loop {
        let over = advance(begun, order, watch, folder, out, err)?;
        if let Some(end) = over {
            begun.parts.head.trigger = Trigger::Termination;
            put_segment(begun, order, watch, folder)?;
            return Ok(end);
        }
    }
}

/// Makes one step or more, with all that belongs to them, or says how the run ends.
#[inline(always)]
fn advance<F: Folder, O: Sink, E: Sink, W: Watch>(
    begun: &mut StartedRun,
    order: &Order<'_>,
    watch: &mut W,
    folder: &mut F,
    out: &mut O,
    err: &mut E,
) -> Result<Option<End>, RunFault>
    ghost job: { Job W }
    requires job { IsJob W.fresh job order.now }
    requires stands { Standing W.meaning job begun.old.counting begun.old.parts watch.old
        (outside_of F.Folder O.Sink E.Sink folder.old out.old err.old) }
    ensures { Advances W.meaning job (begun.old.counting.machine.engine.kernel.guest.steps + 1) result begun.new.counting
        begun.new.parts
        watch.new
        (outside_of F.Folder O.Sink E.Sink folder.new out.new err.new) }
{
    let options = order.options;
    if begun.counting.is_over(options.budget) {
        let end = begun.counting.end_before(options.budget);
        return Ok(end);
    }
    if let Err(refused) = begun.counting.begin(watch, order.syms) {
        return Err(RunFault::OutOfMemory(refused));
    }
    run_stretch(begun, order, watch, folder, out, err)
}

/// Makes the step that its thread has begun, and those of its turn after it up to one that does more than add to
/// numbers, so that ends and cuts are looked for once for all of them.
#[inline(always)]
fn run_stretch<F: Folder, O: Sink, E: Sink, W: Watch>(
    begun: &mut StartedRun,
    order: &Order<'_>,
    watch: &mut W,
    folder: &mut F,
    out: &mut O,
    err: &mut E,
) -> Result<Option<End>, RunFault>
    ghost job: { Job W }
    requires job { IsJob W.fresh job order.now }
    requires started { IsStarted W.meaning job begun.old.counting begun.old.parts watch.old
        (outside_of F.Folder O.Sink E.Sink folder.old out.old err.old) }
    ensures { Advances W.meaning job (begun.old.counting.machine.engine.kernel.guest.steps + 1) result begun.new.counting
        begun.new.parts
        watch.new
        (outside_of F.Folder O.Sink E.Sink folder.new out.new err.new) }
{
    let options = order.options;
    let mut more = begun.counting.more(&order.rule, options.budget);
    'steps: loop {
        let stepped = step(begun, order, more, watch, folder, out, err)?;
        match stepped {
            Stretch::Lasts => more -= 1,
            Stretch::Ends(over) => return Ok(over),
        }
    }
}

/// What a step of a stretch leaves.
#[derive(Drop)]
pub enum Stretch {
    /// Its thread has begun the next step.
    Lasts,
    /// All is done that belongs to the step; and the run is over, where there is an end.
    Ends(Option<End>),
}

/// Makes the step that its thread has begun. Where it only adds to numbers and more of them may follow, its thread
/// begins the next one.
#[inline(always)]
fn step<F: Folder, O: Sink, E: Sink, W: Watch>(
    begun: &mut StartedRun,
    order: &Order<'_>,
    more: u64,
    watch: &mut W,
    folder: &mut F,
    out: &mut O,
    err: &mut E,
) -> Result<Stretch, RunFault>
    ghost job: { Job W }
    requires job { IsJob W.fresh job order.now }
    requires started { IsStarted W.meaning job begun.old.counting begun.old.parts watch.old
        (outside_of F.Folder O.Sink E.Sink folder.old out.old err.old) }
    requires may { MayFollow order.now.options.now begun.old.counting.machine more }
    ensures { GoesOn W.meaning job order.now.options.now more (begun.old.counting.machine.engine.kernel.guest.steps + 1)
        result begun.new.counting
        begun.new.parts watch.new
        (outside_of F.Folder O.Sink E.Sink folder.new out.new err.new) }
{
    match begun.counting.machine.try_instruction() {
        Ok(event) => {
            let event = event.copied();
            let counted = begun.counting.count(&event, &order.rule, watch, order.syms);
            if counted.plain && more != 0 {
                if let Err(refused) = watch.ready(event.thread, event.done.next, order.syms) {
                    return Err(RunFault::OutOfMemory(refused));
                }
                return Ok(Stretch::Lasts);
            }
            let over = finish_step(begun, order, &counted.noted, watch, folder)?;
            Ok(Stretch::Ends(over))
        }
        Err(halt) => {
            let over = step_halted(begun, order, halt, watch, folder, out, err)?;
            Ok(Stretch::Ends(over))
        }
    }
}

/// What `step_halted_cold` does. The room for its answer is made where it is called, and not at each step.
#[inline(always)]
fn step_halted<F: Folder, O: Sink, E: Sink, W: Watch>(
    begun: &mut StartedRun,
    order: &Order<'_>,
    halt: Halt,
    watch: &mut W,
    folder: &mut F,
    out: &mut O,
    err: &mut E,
) -> Result<Option<End>, RunFault>
    ghost job: { Job W }
    requires job { IsJob W.fresh job order.now }
    requires started { IsStarted W.meaning job begun.old.counting begun.old.parts watch.old
        (outside_of F.Folder O.Sink E.Sink folder.old out.old err.old) }
    requires halted { halt_of begun.old.counting.machine ≡ Some halt }
    ensures { Advances W.meaning job (begun.old.counting.machine.engine.kernel.guest.steps + 1) result begun.new.counting
        begun.new.parts
        watch.new
        (outside_of F.Folder O.Sink E.Sink folder.new out.new err.new) }
{
    let halted = step_halted_cold(begun, order, halt, watch, folder, out, err);
    halted
}

/// Makes the step that its thread has begun, where its instruction doesn't retire. Apart, so that the loop of a run
/// keeps no room for what a system call answers.
#[cold]
fn step_halted_cold<F: Folder, O: Sink, E: Sink, W: Watch>(
    begun: &mut StartedRun,
    order: &Order<'_>,
    halt: Halt,
    watch: &mut W,
    folder: &mut F,
    out: &mut O,
    err: &mut E,
) -> Result<Option<End>, RunFault>
    ghost job: { Job W }
    requires job { IsJob W.fresh job order.now }
    requires started { IsStarted W.meaning job begun.old.counting begun.old.parts watch.old
        (outside_of F.Folder O.Sink E.Sink folder.old out.old err.old) }
    requires halted { halt_of begun.old.counting.machine ≡ Some halt }
    ensures { Advances W.meaning job (begun.old.counting.machine.engine.kernel.guest.steps + 1) result begun.new.counting
        begun.new.parts
        watch.new
        (outside_of F.Folder O.Sink E.Sink folder.new out.new err.new) }
{
    match begun.counting.machine.next_halted(halt) {
        Ok(Turn::Retired(event)) => {
            let noted = begun
                .counting
                .count_shell(&event, &order.rule, watch, order.syms);
            finish_step(begun, order, &noted, watch, folder)
        }
        Ok(Turn::RetiredOutput(event, descriptor, bytes)) => {
            let noted = begun
                .counting
                .count_shell(&event, &order.rule, watch, order.syms);
            write_output(out, err, descriptor, bytes.as_bytes())?;
            finish_step(begun, order, &noted, watch, folder)
        }
        Ok(Turn::Ended(end)) => Ok(Some(end)),
        Err(refused) => Err(RunFault::OutOfMemory(refused)),
    }
}

/// Cuts the run where that is due after a step of which all else is done.
#[inline(always)]
fn finish_step<F: Folder, W: Watch>(
    begun: &mut StartedRun,
    order: &Order<'_>,
    noted: &Noted,
    watch: &mut W,
    folder: &mut F,
) -> Result<Option<End>, RunFault>
    ghost job: { Job W }
    requires job { IsJob W.fresh job order.now }
    requires cut { CanCut W.meaning W.fresh order.now noted.now begun.old watch.old }
    ensures { (out err : Stream) → IsWritten W.meaning job order.now.rule.after noted.now begun.old.counting
        begun.old.parts watch.old
        (outside_with F.Folder folder.old out err)
        → Advances W.meaning job begun.old.counting.machine.engine.kernel.guest.steps result begun.new.counting
        begun.new.parts watch.new
        (outside_with F.Folder folder.new out err) }
{
    cut(begun, order, noted, watch, folder)?;
    Ok(None)
}

/// Cuts the run after a step where that is due: puts the parts of the segment that ends there.
#[inline(always)]
fn cut<F: Folder, W: Watch>(
    begun: &mut StartedRun,
    order: &Order<'_>,
    noted: &Noted,
    watch: &mut W,
    folder: &mut F,
) -> Result<(), RunFault>
    requires { CanCut W.meaning W.fresh order.now noted.now begun.old watch.old }
    ensures cuts { CutsAny W.meaning order.now noted.now begun.old watch.old (shelf_of F.Folder folder.old)
        (F.put_faults folder.old) result begun.new watch.new (shelf_of F.Folder folder.new)
        (F.put_faults folder.new) }
    ensures machine { begun.new.counting.machine ≡ begun.old.counting.machine }
    ensures never_falls { F.put_faults folder.old ≤ F.put_faults folder.new }
    ensures loads { F.load_faults folder.new ≡ F.load_faults folder.old }
{
    let steps = begun.counting.machine.steps();
    if !order.rule.due(steps, noted) {
        return Ok(());
    }
    if begun.parts.head.part > MOST_CUTS {
        return Ok(());
    }
    cut_shell(begun, order, steps, *noted, watch, folder)
}

/// What `cut_cold` does. The room for its answer is made where it is called, and not at each step.
#[inline(always)]
fn cut_shell<F: Folder, W: Watch>(
    begun: &mut StartedRun,
    order: &Order<'_>,
    steps: u64,
    noted: Noted,
    watch: &mut W,
    folder: &mut F,
) -> Result<(), RunFault>
    requires can { CanCut W.meaning W.fresh order.now noted begun.old watch.old }
    requires few { begun.old.parts.head.part ≤ 4095 }
    requires made { steps ≡ begun.old.counting.machine.engine.kernel.guest.steps }
    requires due { is_some (due_after order.now.rule steps noted) ≡ true }
    requires cut { (symbols : SymbolMap) (asked : DumpPoints) (x : EventOnStack) → IsRuleOf symbols asked order.now.rule
        → IsNotedOf symbols order.now.rule.after x noted → is_some (cut_after symbols asked steps x) ≡ true }
    ensures cuts { CutsAny W.meaning order.now noted begun.old watch.old (shelf_of F.Folder folder.old)
        (F.put_faults folder.old) result begun.new watch.new (shelf_of F.Folder folder.new)
        (F.put_faults folder.new) }
    ensures machine { begun.new.counting.machine ≡ begun.old.counting.machine }
    ensures never_falls { F.put_faults folder.old ≤ F.put_faults folder.new }
    ensures loads { F.load_faults folder.new ≡ F.load_faults folder.old }
{
    let made = cut_cold(begun, order, steps, noted, watch, folder);
    made
}

/// Cuts the run after so many steps, where that is due.
#[cold]
fn cut_cold<F: Folder, W: Watch>(
    begun: &mut StartedRun,
    order: &Order<'_>,
    steps: u64,
    noted: Noted,
    watch: &mut W,
    folder: &mut F,
) -> Result<(), RunFault>
    requires can { CanCut W.meaning W.fresh order.now noted begun.old watch.old }
    requires few { begun.old.parts.head.part ≤ 4095 }
    requires made { steps ≡ begun.old.counting.machine.engine.kernel.guest.steps }
    requires due { is_some (due_after order.now.rule steps noted) ≡ true }
    requires cut { (symbols : SymbolMap) (asked : DumpPoints) (x : EventOnStack) → IsRuleOf symbols asked order.now.rule
        → IsNotedOf symbols order.now.rule.after x noted → is_some (cut_after symbols asked steps x) ≡ true }
    ensures cuts { CutsAny W.meaning order.now noted begun.old watch.old (shelf_of F.Folder folder.old)
        (F.put_faults folder.old) result begun.new watch.new (shelf_of F.Folder folder.new)
        (F.put_faults folder.new) }
    ensures machine { begun.new.counting.machine ≡ begun.old.counting.machine }
    ensures never_falls { F.put_faults folder.old ≤ F.put_faults folder.new }
    ensures loads { F.load_faults folder.new ≡ F.load_faults folder.old }
{
    let trigger = match order.rule.trigger(steps, &noted) {
        Ok(trigger) => trigger,
        Err(refused) => return Err(RunFault::OutOfMemory(refused)),
    };
    begun.parts.head.trigger = trigger;
    put_segment(begun, order, watch, folder)?;
    begun.parts.head.part += 1;
    Ok(())
}

/// Puts the parts of the segment that ends after the last step.
#[cold]
fn put_segment<F: Folder, W: Watch>(
    begun: &mut StartedRun,
    order: &Order<'_>,
    watch: &mut W,
    folder: &mut F,
) -> Result<(), RunFault>
    requires { CanPut W.meaning W.fresh order.now.syms.now order.now.options.now 1 begun.old.parts.head
        begun.old.counting.recorder watch.old }
    ensures puts { (plan : Plan W) → plan.guest.syms ≡ order.now.syms.now → plan.guest.options ≡ order.now.options.now
        → IsPutting W.meaning plan 1 begun.old.parts.head begun.old.counting.recorder watch.old
        → HasPut order.now.options.now.base
        (files_after W.meaning plan (calls_below plan begun.old.parts.head.part begun.old.parts.head.trigger 1))
        plan.folder (shelf_of F.Folder folder.old) begun.old.parts.put.items
        → PutsThreads W.meaning plan begun.old.parts.head.part begun.old.parts.head.trigger
        (begun.old.counting.machine.engine.kernel.guest.made + 1) (F.put_faults folder.old)
        result begun.new.parts begun.new.counting.recorder watch.new (shelf_of F.Folder folder.new) (F.put_faults
        folder.new) }
    ensures known { (other : ThreadNo) → knows begun.new.counting.recorder other ≡ knows begun.old.counting.recorder
        other }
    ensures live { live begun.new.counting.recorder ≡ live begun.old.counting.recorder }
    ensures part { begun.new.parts.head.part ≡ begun.old.parts.head.part }
    ensures machine { begun.new.counting.machine ≡ begun.old.counting.machine }
    ensures costs { begun.new.counting.costs ≡ begun.old.counting.costs }
    ensures never_falls { F.put_faults folder.old ≤ F.put_faults folder.new }
    ensures loads { F.load_faults folder.new ≡ F.load_faults folder.old }
{
    let threads = begun.counting.machine.threads();
    begun.parts.put_segment(
        order.options,
        threads,
        &mut begun.counting.recorder,
        watch,
        folder,
        order.syms,
    )
}
