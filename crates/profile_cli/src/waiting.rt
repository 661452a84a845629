//! The command `run` where it counts what waiting costs.

ghost use Rattle.std.specs.Prelude.{◌≡◌, ◌≤◌, IfOk, Some, map, string_bytes};
ghost use Rattle.outside.specs.Outside.{Stream, outside_of, outside_with};
ghost use Rattle.command_words.specs.Request.{Run, Waits as asked_waits};
ghost use Rattle.command_words.specs.Meaning.{job_of};
ghost use Rattle.command_words.specs.Within.{IsJob};
ghost use Rattle.profile_cli.specs.Reply.{Works};
ghost use Rattle.profile_cli.specs.Watching.{put_status, waits_name};
ghost use Rattle.command_steps.specs.Loading.{HasStatus};
ghost use Rattle.profile_cli.specs.Calls.{DoesRun};
ghost use Rattle.command_steps.specs.Stages.{Did, final_status};
ghost use Rattle.profile_cli.specs.inner.RunStages.{end_result};
ghost use Rattle.profile_cli.specs.inner.WaitStages.{CanReport, IsTextOf, PutsText, PutsWaits, unwaited};

use crate::run::load_and_run;
use byte_text::{OutOfMemory, Text};
use command_status::Status;
use command_words::Job;
use event_costs::End;
use outside::{Folder, PutError, Sink};
use profile_run::command_line;
use run_watches::RunWatch;
use std::alloc::Global;
use wait_report::{Waits, write_waits};

/// Runs a program to its end, and then puts the report on what waiting cost. Whatever stops this is a status.
pub fn run_with_waits<F: Folder, O: Sink, E: Sink>(
    alloc: Global,
    job: &Job<'_>,
    folder: &mut F,
    out: &mut O,
    err: &mut E,
) -> Result<End, Status>
    requires { IsJob (job_of job.now) }
    ensures works { Works
        (outside_of F.Folder O.Sink E.Sink folder.old out.old err.old)
        (Run (job_of job.now) asked_waits) (final_status (end_result result))
        (outside_of F.Folder O.Sink E.Sink folder.new out.new err.new) }
    ensures told { Did (DoesRun (job_of job.now) asked_waits)
        (outside_of F.Folder O.Sink E.Sink folder.old out.old err.old)
        (end_result result)
        (outside_of F.Folder O.Sink E.Sink folder.new out.new err.new) }
    ensures never_falls { E.faults err.old ≤ E.faults err.new }
{
    let mut watch = RunWatch::Waits(Waits::new(alloc));
    run_and_put(alloc, job, &mut watch, folder, out, err)
}

/// The same with a watch that was told of nothing yet.
fn run_and_put<F: Folder, O: Sink, E: Sink>(
    alloc: Global,
    job: &Job<'_>,
    watch: &mut RunWatch,
    folder: &mut F,
    out: &mut O,
    err: &mut E,
) -> Result<End, Status>
    requires within { IsJob (job_of job.now) }
    requires fresh { watch.old ≡ unwaited }
    ensures works { Works
        (outside_of F.Folder O.Sink E.Sink folder.old out.old err.old)
        (Run (job_of job.now) asked_waits) (final_status (end_result result))
        (outside_of F.Folder O.Sink E.Sink folder.new out.new err.new) }
    ensures told { Did (DoesRun (job_of job.now) asked_waits)
        (outside_of F.Folder O.Sink E.Sink folder.old out.old err.old)
        (end_result result)
        (outside_of F.Folder O.Sink E.Sink folder.new out.new err.new) }
    ensures never_falls { E.faults err.old ≤ E.faults err.new }
{
    let run = load_and_run(alloc, job, watch, folder, out, err)?;
    let RunWatch::Waits(waits) = &*watch else {
        unreachable!()
    };
    put_waits(alloc, job, waits, folder)?;
    Ok(run.end)
}

/// Puts the report on waiting.
fn put_waits<F: Folder>(
    alloc: Global,
    job: &Job<'_>,
    watch: &Waits,
    folder: &mut F,
) -> Result<(), Status>
    requires { CanReport watch.now.books }
    ensures answer { PutsWaits watch.now.books (job_of job.now) (F.contents folder.old) (F.put_faults folder.old)
        (F.put_faults folder.new) result (F.contents folder.new) }
    ensures told { (out err : Stream) → Did (PutsText watch.now.books (job_of job.now))
        (outside_with F.Folder folder.old out err) result (outside_with F.Folder folder.new out err) }
    ensures same_load_faults { F.load_faults folder.new ≡ F.load_faults folder.old }
    ensures never_falls { F.put_faults folder.old ≤ F.put_faults folder.new }
{
    let text = text_of(alloc, job, watch)?;
    let name = waits_name(alloc, job.base)?;
    match folder.put(name.as_str(), text.as_bytes()) {
        Ok(()) => Ok(()),
        Err(error) => Err(put_status(alloc, name.as_str(), error)),
    }
}

/// The text of the report on waiting.
fn text_of(alloc: Global, job: &Job<'_>, watch: &Waits) -> Result<Text, OutOfMemory>
    requires { CanReport watch.now.books }
    ensures { IfOk result (λ text. IsTextOf watch.now.books (job_of job.now) text) }
{
    let rows = watch.rows()?;
    let command = command_line(alloc, &job.args)?;
    write_waits(alloc, &command, job.branches, &rows)
}

/// The name of the report on waiting.
fn waits_name(alloc: Global, base: &str) -> Result<String, OutOfMemory>
    ensures { IfOk result (λ name. string_bytes name ≡ waits_name base.now) }
{
    let mut name = String::from_str(alloc, base)?;
    name.push_str(".waits")?;
    Ok(name)
}

/// The status where the file of this name can't be put.
fn put_status(alloc: Global, name: &str, error: PutError) -> Status
    ensures { HasStatus (Some (put_status name.now error)) result }
{
    let name = match Text::from_bytes(alloc, name.as_bytes()) {
        Ok(name) => name,
        Err(refused) => return Status::OutOfMemory(refused),
    };
    match error {
        PutError::Failed => Status::PutFault(name),
        PutError::OutOfMemory(refused) => Status::OutOfMemory(refused),
    }
}
