//! The command `report`.

ghost use Rattle.std.specs.Prelude.{◌≤◌};
ghost use Rattle.outside.specs.Outside.{outside_of};
ghost use Rattle.command_words.specs.Request.{Report};
ghost use Rattle.command_words.specs.Meaning.{job_of, positions_of, view_of};
ghost use Rattle.command_words.specs.Within.{IsJob, IsSortShown};
ghost use Rattle.profile_cli.specs.Reply.{Works};
ghost use Rattle.profile_cli.specs.Calls.{DoesReport};
ghost use Rattle.command_steps.specs.Stages.{Did, final_status};
ghost use Rattle.profile_cli.specs.inner.RunStages.{DidWork, end_result};

use crate::parts::read_parts;
use crate::run::run_parts;
use command_status::Status;
use command_steps::show_report;
use command_words::{Job, Positions, View};
use event_costs::End;
use outside::{Folder, Sink};
use std::alloc::Global;

/// `report`.
pub fn report_command<F: Folder, O: Sink, E: Sink>(
    alloc: Global,
    job: &Job<'_>,
    positions: Positions,
    view: &View<'_>,
    folder: &mut F,
    out: &mut O,
    err: &mut E,
) -> Status
    requires within { IsJob (job_of job.now) }
    requires sort { IsSortShown (job_of job.now) (view_of view.now) }
    ensures works { Works
        (outside_of F.Folder O.Sink E.Sink folder.old out.old err.old)
        (Report (job_of job.now) (positions_of positions) (view_of view.now)) result
        (outside_of F.Folder O.Sink E.Sink folder.new out.new err.new) }
    ensures told { DidWork
        (outside_of F.Folder O.Sink E.Sink folder.old out.old err.old)
        (Report (job_of job.now) (positions_of positions) (view_of view.now)) result
        (outside_of F.Folder O.Sink E.Sink folder.new out.new err.new) }
    ensures never_falls { E.faults err.old ≤ E.faults err.new }
{
    match run_and_report(alloc, job, positions, view, folder, out, err) {
        Ok(end) => Status::from(end),
        Err(status) => status,
    }
}

/// Runs a program to its end, reads its parts again, and writes the report on them. However the program ends, this goes
/// on; whatever else stops it is a status.
fn run_and_report<F: Folder, O: Sink, E: Sink>(
    alloc: Global,
    job: &Job<'_>,
    positions: Positions,
    view: &View<'_>,
    folder: &mut F,
    out: &mut O,
    err: &mut E,
) -> Result<End, Status>
    requires within { IsJob (job_of job.now) }
    requires sort { IsSortShown (job_of job.now) (view_of view.now) }
    ensures works { Works
        (outside_of F.Folder O.Sink E.Sink folder.old out.old err.old)
        (Report (job_of job.now) (positions_of positions) (view_of view.now)) (final_status (end_result result))
        (outside_of F.Folder O.Sink E.Sink folder.new out.new err.new) }
    ensures told { Did (DoesReport (job_of job.now) (positions_of positions) (view_of view.now))
        (outside_of F.Folder O.Sink E.Sink folder.old out.old err.old)
        (end_result result)
        (outside_of F.Folder O.Sink E.Sink folder.new out.new err.new) }
    ensures never_falls { E.faults err.old ≤ E.faults err.new }
{
    let run = run_parts(alloc, job, positions.watching(), folder, out, err)?;
    let profile = read_parts(alloc, job.base, job.branches, &run.parts, folder)?;
    show_report(alloc, view, &profile, folder, out)?;
    Ok(run.end)
}
