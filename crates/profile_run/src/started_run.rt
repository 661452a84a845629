//! What a run has before its first step.

ghost use Rattle.std.specs.Prelude.{◌≡◌, ◌<◌, ◌≤◌, [], Ok, Err, IfErr, IfOk, IfSome, OnOk, length, map, string_bytes};
ghost use Rattle.cache_lru.specs.Costs.{StandForRun};
ghost use Rattle.guest_load.specs.Arguments.{arguments_len, arguments_limit};
ghost use Rattle.guest_load.specs.First.{guest_at_start};
ghost use Rattle.guest_load.specs.Lawful.{IsLawful};
ghost use Rattle.guest_load.specs.Segments.{pages_of};
ghost use Rattle.guest_mem.specs.Memory.{page_limit};
ghost use Rattle.guest_sched.specs.Machine.{new_machine};
ghost use Rattle.part_dump.specs.Rules.{IsRuleOf};
ghost use Rattle.event_costs.specs.declared.outcome.End.{End as EndValue};
ghost use Rattle.profile_run.specs.declared.run_fault.RunFault.{RunFault as Fault};
ghost use Rattle.profile_run.specs.inner.Begun.{Stops};
ghost use Rattle.profile_run.specs.inner.Standing.{IsHeadOf};
ghost use Rattle.byte_text.specs.Memory.{memory};

use crate::counting::Counting;
use crate::options::RunOptions;
use crate::parts::Parts;
use crate::run_end::{PartFile, RunEnd};
use crate::run_fault::RunFault;
use byte_text::OutOfMemory;
use cache_lru::RunCosts;
use elf_read::Elf;
use event_costs::End;
use guest_load::{Guest, GuestError, load};
use guest_sched::Machine;
use part_dump::DumpRule;
use recorder::Recorder;
use std::alloc::Global;
use sym_map::SymMap;

/// A run that has begun: the guest with its counts, and the parts that were put.
#[derive(Drop)]
pub struct StartedRun {
    pub counting: Counting,
    pub parts: Parts,
}

impl StartedRun {
    /// What a run answers that ended so, or that stopped. All else that it had is dropped here.
    pub fn answer(self, end: Result<End, RunFault>) -> Result<RunEnd, RunFault>
        ensures end { (last : EndValue) → end ≡ Ok last → result ≡ Ok (record {
          end = last;
          steps = self.counting.machine.engine.kernel.guest.steps;
          threads = self.counting.machine.engine.kernel.guest.made;
          parts = self.parts.put.items;
        }) }
        ensures fault { (fault : Fault) → end ≡ Err fault → result ≡ Err fault }
    {
        let steps = self.counting.machine.steps();
        let threads = self.counting.machine.threads();
        let parts = self.parts;
        answer_of(end, steps, threads, parts.put)
    }
}

/// What a run answers that ended so, or that stopped.
fn answer_of(
    end: Result<End, RunFault>,
    steps: u64,
    threads: u32,
    parts: Vec<PartFile>,
) -> Result<RunEnd, RunFault>
    ensures end { (last : EndValue) → end ≡ Ok last
        → result ≡ Ok (record { end = last; steps = steps; threads = threads; parts = parts.items }) }
    ensures fault { (fault : Fault) → end ≡ Err fault → result ≡ Err fault }
{
    match end {
        Ok(end) => Ok(RunEnd {
            end,
            steps,
            threads,
            parts,
        }),
        Err(fault) => Err(fault),
    }
}

/// Loads a program, or says why it can't be run.
fn guest_of(
    alloc: Global,
    elf: &Elf<'_>,
    args: &[String],
    input: Vec<u8>,
) -> Result<Guest, RunFault>
    ensures first { IfOk result (λ guest. guest ≡ guest_at_start elf.now (map string_bytes args.now) input.items) }
    ensures lawful { IfOk result IsLawful }
    ensures few { OnOk result (arguments_len (map string_bytes args.now) ≤ arguments_limit) }
    ensures small { OnOk result (pages_of elf.now ≤ page_limit) }
    ensures stops { IfErr result (λ fault. Stops elf.now (map string_bytes args.now) fault) }
{
    match load(alloc, elf, args, input) {
        Ok(guest) => Ok(guest),
        Err(GuestError::ArgsTooLong(len)) => Err(RunFault::ArgsTooLong(len)),
        Err(GuestError::Full) => Err(RunFault::GuestFull),
        Err(GuestError::OutOfMemory(refused)) => Err(RunFault::OutOfMemory(refused)),
    }
}

/// A guest before its first step, with empty caches, of which no thread is known.
fn counting_from(alloc: Global, guest: Guest, options: &RunOptions) -> Result<Counting, OutOfMemory>
    requires { 1 ≤ options.now.quantum }
    ensures machine { IfOk result (λ c. c.machine ≡ new_machine guest options.now.quantum options.now.seed) }
    ensures costs { IfOk result (λ c. StandForRun options.now.branch options.now.shapes c.costs []) }
    ensures recorder { IfOk result (λ c. c.recorder.threads ≡ []) }
{
    let costs = RunCosts::new(alloc, options.i1, options.d1, options.ll, options.branch)?;
    let machine = Machine::new(alloc, guest, options.turns)?;
    Ok(Counting {
        machine,
        costs,
        recorder: Recorder::new(alloc),
    })
}

/// The rule of a run's cuts.
pub fn rule_of(alloc: Global, options: &RunOptions, syms: &SymMap) -> Result<DumpRule, RunFault>
    requires { IfSome options.now.dump_points.every (λ n. 0 < n) }
    ensures rule { IfOk result (λ rule. IsRuleOf syms.now options.now.dump_points rule) }
    ensures stops { IfErr result (λ fault. fault ≡ Fault.OutOfMemory memory) }
{
    match DumpRule::new(
        alloc,
        options.every,
        options.before.as_deref(),
        options.after.as_deref(),
        syms,
    ) {
        Ok(rule) => Ok(rule),
        Err(refused) => Err(RunFault::OutOfMemory(refused)),
    }
}

/// What the run of a loaded guest begins with.
fn begun_from(
    alloc: Global,
    guest: Guest,
    args: &[String],
    options: &RunOptions,
) -> Result<StartedRun, OutOfMemory>
    requires named { 0 < length args.now }
    requires turns { 1 ≤ options.now.quantum }
    ensures machine { IfOk result (λ b. b.counting.machine ≡ new_machine guest options.now.quantum options.now.seed) }
    ensures costs { IfOk result (λ b. StandForRun options.now.branch options.now.shapes b.counting.costs []) }
    ensures recorder { IfOk result (λ b. b.counting.recorder.threads ≡ []) }
    ensures head { IfOk result (λ b. IsHeadOf (map string_bytes args.now) options.now b.parts.head) }
    ensures put { IfOk result (λ b. b.parts.put.items ≡ []) }
{
    let parts = Parts::new(alloc, args, options)?;
    let counting = counting_from(alloc, guest, options)?;
    Ok(StartedRun { counting, parts })
}

/// Loads a program, and makes what its run begins with.
pub fn begin(
    alloc: Global,
    elf: &Elf<'_>,
    args: &[String],
    input: Vec<u8>,
    options: &RunOptions,
) -> Result<StartedRun, RunFault>
    requires named { 0 < length args.now }
    requires turns { 1 ≤ options.now.quantum }
    ensures machine { IfOk result (λ b. b.counting.machine
        ≡ new_machine (guest_at_start elf.now (map string_bytes args.now) input.items) options.now.quantum
        options.now.seed) }
    ensures lawful { OnOk result (IsLawful (guest_at_start elf.now (map string_bytes args.now) input.items)) }
    ensures costs { IfOk result (λ b. StandForRun options.now.branch options.now.shapes b.counting.costs []) }
    ensures recorder { IfOk result (λ b. b.counting.recorder.threads ≡ []) }
    ensures head { IfOk result (λ b. IsHeadOf (map string_bytes args.now) options.now b.parts.head) }
    ensures put { IfOk result (λ b. b.parts.put.items ≡ []) }
    ensures few { OnOk result (arguments_len (map string_bytes args.now) ≤ arguments_limit) }
    ensures small { OnOk result (pages_of elf.now ≤ page_limit) }
    ensures stops { IfErr result (λ fault. Stops elf.now (map string_bytes args.now) fault) }
{
    let guest = guest_of(alloc, elf, args, input)?;
    match begun_from(alloc, guest, args, options) {
        Ok(begun) => Ok(begun),
        Err(refused) => Err(RunFault::OutOfMemory(refused)),
    }
}
