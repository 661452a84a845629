//! The command `demo`.

ghost use Rattle.std.specs.Prelude.{◌≡◌, ◌≤◌, None, IfOk};
ghost use Rattle.outside.specs.Outside.{Stream, outside_of, outside_with, stream_of};
ghost use Rattle.elf_read.specs.Refusal.{refusal};
ghost use Rattle.command_words.specs.Request.{Demo};
ghost use Rattle.command_words.specs.Meaning.{job_of};
ghost use Rattle.profile_cli.specs.Demo.{demo_job, figures_of};
ghost use Rattle.profile_cli.specs.Reply.{Works};
ghost use Rattle.profile_cli.specs.Calls as calls;
ghost use Rattle.profile_cli.specs.Calls.{DoesDemo};
ghost use Rattle.command_steps.specs.Stages.{Did, final_status};
ghost use Rattle.profile_cli.specs.inner.DemoStages.{DidRunDemo, RunsDemo, SumsUp, code_of};
ghost use Rattle.profile_cli.specs.inner.RunStages.{DidWork};

use crate::parts::read_parts;
use crate::program::read_program;
use crate::run::{Loaded, run_elf};
use byte_text::OutOfMemory;
use command_status::Status;
use command_steps::{Figures, show_summary};
use command_words::{Job, default_job};
use demo_make::demo_program;
use event_costs::End;
use outside::{Folder, Sink};
use part_dump::NoWatch;
use profile_run::RunEnd;
use run_watches::RunWatch;
use std::alloc::Global;

/// What the names of its files begin with.
const BASE: &str = "demo.out";

/// `demo`.
pub fn demo_command<F: Folder, O: Sink, E: Sink>(
    alloc: Global,
    size: u32,
    folder: &mut F,
    out: &mut O,
    err: &mut E,
) -> Status
    requires least { 1 ≤ size }
    requires most { size ≤ 100000 }
    ensures works { Works
        (outside_of F.Folder O.Sink E.Sink folder.old out.old err.old)
        (Demo size) result
        (outside_of F.Folder O.Sink E.Sink folder.new out.new err.new) }
    ensures told { DidWork
        (outside_of F.Folder O.Sink E.Sink folder.old out.old err.old)
        (Demo size) result
        (outside_of F.Folder O.Sink E.Sink folder.new out.new err.new) }
    ensures never_falls { E.faults err.old ≤ E.faults err.new }
{
    match run_and_sum(alloc, size, folder, out, err) {
        Ok(status) => status,
        Err(status) => status,
    }
}

/// Runs the demonstration program of a size to its end. Where it exits, its parts are read again, and their totals are
/// shown with the rest of the summary. Whatever stops this is a status.
fn run_and_sum<F: Folder, O: Sink, E: Sink>(
    alloc: Global,
    size: u32,
    folder: &mut F,
    out: &mut O,
    err: &mut E,
) -> Result<Status, Status>
    requires least { 1 ≤ size }
    requires most { size ≤ 100000 }
    ensures works { Works
        (outside_of F.Folder O.Sink E.Sink folder.old out.old err.old)
        (Demo size) (final_status result)
        (outside_of F.Folder O.Sink E.Sink folder.new out.new err.new) }
    ensures told { Did (DoesDemo size)
        (outside_of F.Folder O.Sink E.Sink folder.old out.old err.old)
        result
        (outside_of F.Folder O.Sink E.Sink folder.new out.new err.new) }
    ensures never_falls { E.faults err.old ≤ E.faults err.new }
{
    let job = demo_job(alloc)?;
    let program = demo_program(alloc, size)?;
    let run = run_program(alloc, &job, &program, folder, out, err)?;
    match exit_code(run.end) {
        Some(code) => {
            sum_up(alloc, size, program.len() as u64, code, &run, folder, out)?;
            Ok(Status::Done)
        }
        None => Ok(Status::from(run.end)),
    }
}

/// The code of an exit.
fn exit_code(end: End) -> Option<u8>
    ensures { result ≡ code_of end }
{
    match end {
        End::Exited(code) => Some(code),
        _ => None,
    }
}

/// Reads the parts of a run that exited with a code, and writes the summary of it.
fn sum_up<F: Folder, O: Sink>(
    alloc: Global,
    size: u32,
    len: u64,
    code: u8,
    run: &RunEnd,
    folder: &mut F,
    out: &mut O,
) -> Result<(), Status>
    ensures sums { (err : Stream) → SumsUp
        (outside_with F.Folder folder.old (stream_of O.Sink out.old) err)
        (figures_of size len code run.now) run.now.parts result
        (outside_with F.Folder folder.new (stream_of O.Sink out.new) err) }
    ensures told { (err : Stream) → Did (calls.SumsUp size len code run.now)
        (outside_with F.Folder folder.old (stream_of O.Sink out.old) err)
        result
        (outside_with F.Folder folder.new (stream_of O.Sink out.new) err) }
    ensures never_falls { F.load_faults folder.old ≤ F.load_faults folder.new }
{
    let profile = read_parts(alloc, BASE, false, &run.parts, folder)?;
    let figures = Figures {
        size,
        len,
        code,
        steps: run.steps,
        threads: run.threads,
        files: run.parts.len() as u64,
    };
    show_summary(alloc, &figures, &profile, out)
}

/// The run of the demonstration: without arguments, and with every option's default but the beginning of the files'
/// names.
fn demo_job(alloc: Global) -> Result<Job<'static>, OutOfMemory>
    ensures { IfOk result (λ job. job_of job ≡ demo_job) }
{
    let mut args = Vec::new(alloc);
    args.push(String::from_str(alloc, "demo")?)?;
    Ok(default_job(BASE, args))
}

/// Runs a program from the bytes of its file, without input.
fn run_program<F: Folder, O: Sink, E: Sink>(
    alloc: Global,
    job: &Job<'_>,
    program: &[u8],
    folder: &mut F,
    out: &mut O,
    err: &mut E,
) -> Result<RunEnd, Status>
    requires job { job_of job.now ≡ demo_job }
    requires accepted { refusal program.now ≡ None }
    ensures ran { RunsDemo
        (outside_of F.Folder O.Sink E.Sink folder.old out.old err.old)
        program.now result
        (outside_of F.Folder O.Sink E.Sink folder.new out.new err.new) }
    ensures told { DidRunDemo
        (outside_of F.Folder O.Sink E.Sink folder.old out.old err.old)
        program.now result
        (outside_of F.Folder O.Sink E.Sink folder.new out.new err.new) }
    ensures same_load_faults { F.load_faults folder.new ≡ F.load_faults folder.old }
    ensures out_faults_never_fall { O.faults out.old ≤ O.faults out.new }
    ensures err_faults_never_fall { E.faults err.old ≤ E.faults err.new }
{
    let elf = read_program(alloc, program)?;
    let input = Vec::new(alloc);
    let loaded = Loaded { elf: &elf, input };
    let mut watch = RunWatch::Nobody(NoWatch::new(alloc));
    run_elf(alloc, job, loaded, &mut watch, folder, out, err)
}
