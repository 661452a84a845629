//! The command `run`.

ghost use Rattle.std.specs.Prelude.{◌≡◌, ◌≤◌, IfOk, IfSome, None, Some};
ghost use Rattle.part_dump.specs.Files.{part_name};
ghost use Rattle.outside.specs.Outside.{outside_of};
ghost use Rattle.command_words.specs.Request.{Addresses, Run};
ghost use Rattle.sym_map.specs.SymbolMap.{SymbolMap};
ghost use Rattle.run_laws.specs.Addresses.{addr_parts};
ghost use Rattle.profile_run.specs.Parts.{watched_parts};
ghost use Rattle.command_words.specs.Meaning.{job_of, watching_of};
ghost use Rattle.command_words.specs.Within.{AreFew, IsJob};
ghost use Rattle.profile_cli.specs.Reply.{Works};
ghost use Rattle.run_watches.specs.Watching.{IsFresh};
ghost use Rattle.profile_cli.specs.inner.RunStages.{DidWork, IsAny, HasWatched, RunsElf, RunsJob, WritesAsked};
ghost use Rattle.command_steps.specs.Loading.{HasStatus};
ghost use Rattle.profile_cli.specs.Order.{fault_status};
ghost use Rattle.profile_cli.specs.Watching.{parts_asked};

use crate::program::{options_of, program_name, read_program, read_symbols};
use crate::waiting::run_with_waits;
use addr_costs::AddrTexts;
use byte_text::{OutOfMemory, Text};
use command_status::Status;
use command_steps::{load_file, load_input};
use command_words::{Job, Watching};
use ctx_costs::CtxCosts;
use elf_read::Elf;
use event_costs::ThreadNo;
use outside::{FILE_LIMIT, Folder, Sink};
use part_dump::{NoWatch, Watch, part_name};
use profile_run::{RunEnd, RunFault, run_watched};
use run_watches::RunWatch;
use std::alloc::Global;

/// `run`.
pub fn run_command<F: Folder, O: Sink, E: Sink>(
    alloc: Global,
    job: &Job<'_>,
    watching: Watching,
    folder: &mut F,
    out: &mut O,
    err: &mut E,
) -> Status
    requires within { IsJob (job_of job.now) }
    requires callers { AreFew (watching_of watching) }
    ensures works { Works
        (outside_of F.Folder O.Sink E.Sink folder.old out.old err.old)
        (Run (job_of job.now) (watching_of watching)) result
        (outside_of F.Folder O.Sink E.Sink folder.new out.new err.new) }
    ensures told { DidWork
        (outside_of F.Folder O.Sink E.Sink folder.old out.old err.old)
        (Run (job_of job.now) (watching_of watching)) result
        (outside_of F.Folder O.Sink E.Sink folder.new out.new err.new) }
    ensures never_falls { E.faults err.old ≤ E.faults err.new }
{
    match watching {
        Watching::Waits => match run_with_waits(alloc, job, folder, out, err) {
            Ok(end) => Status::from(end),
            Err(status) => status,
        },
        _ => match run_parts(alloc, job, watching, folder, out, err) {
            Ok(run) => Status::from(run.end),
            Err(status) => status,
        },
    }
}

/// Loads a program and its input, and runs it to its end, with the parts that are asked for. Whatever stops this before
/// the end is a status.
pub fn run_parts<F: Folder, O: Sink, E: Sink>(
    alloc: Global,
    job: &Job<'_>,
    watching: Watching,
    folder: &mut F,
    out: &mut O,
    err: &mut E,
) -> Result<RunEnd, Status>
    requires within { IsJob (job_of job.now) }
    requires callers { AreFew (watching_of watching) }
    ensures ran { RunsJob (parts_asked (watching_of watching)) IsAny
        (outside_of F.Folder O.Sink E.Sink folder.old out.old err.old)
        (job_of job.now) result
        (outside_of F.Folder O.Sink E.Sink folder.new out.new err.new) }
    ensures load_faults_never_fall { F.load_faults folder.old ≤ F.load_faults folder.new }
    ensures out_faults_never_fall { O.faults out.old ≤ O.faults out.new }
    ensures err_faults_never_fall { E.faults err.old ≤ E.faults err.new }
{
    match watch_for(alloc, watching) {
        Some(watch) => {
            let mut watch = watch;
            load_and_run(alloc, job, &mut watch, folder, out, err)
        }
        None => run_by_address(alloc, job, folder, out, err),
    }
}

/// A watch that writes the parts that are asked for; none where they are by address, which no watch counts.
fn watch_for(alloc: Global, watching: Watching) -> Option<RunWatch>
    requires { AreFew (watching_of watching) }
    ensures fresh { IfSome result (λ watch. (syms : SymbolMap) → IsFresh watch syms) }
    ensures parts { IfSome result (WritesAsked (watching_of watching)) }
    ensures none { result ≡ None → watching_of watching ≡ Addresses }
{
    match watching {
        Watching::Nothing => Some(RunWatch::Nobody(NoWatch::new(alloc))),
        Watching::Waits => Some(RunWatch::Nobody(NoWatch::new(alloc))),
        Watching::Contexts(callers) => Some(RunWatch::Contexts(CtxCosts::new(alloc, callers))),
        Watching::Addresses => None,
    }
}

/// Loads a program and its input, and runs it to its end, with the parts that the watch answers. Whatever stops this
/// before the end is a status.
pub fn load_and_run<F: Folder, O: Sink, E: Sink, W: Watch>(
    alloc: Global,
    job: &Job<'_>,
    watch: &mut W,
    folder: &mut F,
    out: &mut O,
    err: &mut E,
) -> Result<RunEnd, Status>
    requires within { IsJob (job_of job.now) }
    requires fresh { (syms : SymbolMap) → W.fresh watch.old syms }
    ensures ran { RunsJob (watched_parts W.meaning watch.old) (HasWatched W.meaning watch.old watch.new)
        (outside_of F.Folder O.Sink E.Sink folder.old out.old err.old)
        (job_of job.now) result
        (outside_of F.Folder O.Sink E.Sink folder.new out.new err.new) }
    ensures load_faults_never_fall { F.load_faults folder.old ≤ F.load_faults folder.new }
    ensures put_faults_never_fall { F.put_faults folder.old ≤ F.put_faults folder.new }
    ensures out_faults_never_fall { O.faults out.old ≤ O.faults out.new }
    ensures err_faults_never_fall { E.faults err.old ≤ E.faults err.new }
{
    let program = load_file(alloc, program_name(&job.args), FILE_LIMIT, folder)?;
    let elf = read_program(alloc, &program)?;
    let input = load_input(alloc, job.input, folder)?;
    let loaded = Loaded { elf: &elf, input };
    run_elf(alloc, job, loaded, watch, folder, out, err)
}

/// A program that was read, and the input that it is given.
pub struct Loaded<'a> {
    pub elf: &'a Elf<'a>,
    pub input: Vec<u8>,
}

/// Reads the symbols of a program, and runs it to its end.
pub fn run_elf<F: Folder, O: Sink, E: Sink, W: Watch>(
    alloc: Global,
    job: &Job<'_>,
    loaded: Loaded<'_>,
    watch: &mut W,
    folder: &mut F,
    out: &mut O,
    err: &mut E,
) -> Result<RunEnd, Status>
    requires within { IsJob (job_of job.now) }
    requires fresh { (syms : SymbolMap) → W.fresh watch.old syms }
    ensures ran { RunsElf (watched_parts W.meaning watch.old) (HasWatched W.meaning watch.old watch.new)
        (job_of job.now) loaded.entry.elf.now loaded.entry.input.items
        (outside_of F.Folder O.Sink E.Sink folder.old out.old err.old)
        result
        (outside_of F.Folder O.Sink E.Sink folder.new out.new err.new) }
    ensures same_load_faults { F.load_faults folder.new ≡ F.load_faults folder.old }
    ensures put_faults_never_fall { F.put_faults folder.old ≤ F.put_faults folder.new }
    ensures out_faults_never_fall { O.faults out.old ≤ O.faults out.new }
    ensures err_faults_never_fall { E.faults err.old ≤ E.faults err.new }
{
    let Loaded { elf, input } = loaded;
    let syms = read_symbols(alloc, elf)?;
    let options = options_of(alloc, job)?;
    match run_watched(
        alloc, elf, &syms, &job.args, input, &options, watch, folder, out, err,
    ) {
        Ok(run) => Ok(run),
        Err(fault) => Err(fault_status(alloc, job.base, fault)),
    }
}

/// Loads a program and its input, and runs it to its end, with the parts by address. Whatever stops this before the end is
/// a status.
fn run_by_address<F: Folder, O: Sink, E: Sink>(
    alloc: Global,
    job: &Job<'_>,
    folder: &mut F,
    out: &mut O,
    err: &mut E,
) -> Result<RunEnd, Status>
    requires { IsJob (job_of job.now) }
    ensures ran { RunsJob addr_parts IsAny
        (outside_of F.Folder O.Sink E.Sink folder.old out.old err.old)
        (job_of job.now) result
        (outside_of F.Folder O.Sink E.Sink folder.new out.new err.new) }
    ensures load_faults_never_fall { F.load_faults folder.old ≤ F.load_faults folder.new }
    ensures out_faults_never_fall { O.faults out.old ≤ O.faults out.new }
    ensures err_faults_never_fall { E.faults err.old ≤ E.faults err.new }
{
    let bytes = load_file(alloc, program_name(&job.args), FILE_LIMIT, folder)?;
    let image = read_program(alloc, &bytes)?;
    let given = load_input(alloc, job.input, folder)?;
    let read = Loaded {
        elf: &image,
        input: given,
    };
    run_elf_by_address(alloc, job, read, folder, out, err)
}

/// Runs a program to its end over the map that tells code by its addresses.
fn run_elf_by_address<F: Folder, O: Sink, E: Sink>(
    alloc: Global,
    job: &Job<'_>,
    loaded: Loaded<'_>,
    folder: &mut F,
    out: &mut O,
    err: &mut E,
) -> Result<RunEnd, Status>
    requires { IsJob (job_of job.now) }
    ensures ran { RunsElf addr_parts IsAny
        (job_of job.now) loaded.entry.elf.now loaded.entry.input.items
        (outside_of F.Folder O.Sink E.Sink folder.old out.old err.old)
        result
        (outside_of F.Folder O.Sink E.Sink folder.new out.new err.new) }
    ensures same_load_faults { F.load_faults folder.new ≡ F.load_faults folder.old }
    ensures out_faults_never_fall { O.faults out.old ≤ O.faults out.new }
    ensures err_faults_never_fall { E.faults err.old ≤ E.faults err.new }
{
    let Loaded { elf, input } = loaded;
    let syms = read_symbols(alloc, elf)?;
    let places = syms.try_clone(alloc)?;
    let texts = AddrTexts::new(alloc, places)?;
    let addresses = syms.by_address();
    let options = options_of(alloc, job)?;
    let mut watch = RunWatch::Addresses(texts);
    match run_watched(
        alloc, elf, &addresses, &job.args, input, &options, &mut watch, folder, out, err,
    ) {
        Ok(end) => Ok(end),
        Err(fault) => Err(fault_status(alloc, job.base, fault)),
    }
}

/// The status of a run that stopped so.
fn fault_status(alloc: Global, base: &str, fault: RunFault) -> Status
    ensures { HasStatus (Some (fault_status base.now fault)) result }
{
    match fault {
        RunFault::GuestFull => Status::GuestFull,
        RunFault::ArgsTooLong(len) => Status::ArgsTooLong(len),
        RunFault::PutFault(part, thread) => match put_fault(alloc, base, part, thread) {
            Ok(status) => status,
            Err(refused) => Status::OutOfMemory(refused),
        },
        RunFault::OutFault => Status::OutFault,
        RunFault::OutOfMemory(refused) => Status::OutOfMemory(refused),
    }
}

/// The status where a part can't be put.
fn put_fault(alloc: Global, base: &str, part: u32, thread: ThreadNo) -> Result<Status, OutOfMemory>
    ensures { IfOk result (λ status. status ≡ Status.PutFault (part_name base.now part thread.0)) }
{
    let name = part_name(alloc, base, part, thread)?;
    Ok(Status::PutFault(Text::from_bytes(alloc, name.as_bytes())?))
}
