//! The command `annotate`.

ghost use Rattle.std.specs.Prelude.{◌≡◌, ◌≤◌, ◌<◌, IfOk, [], length, map};
ghost use Rattle.outside.specs.Outside.{Stream, outside_with, stream_of};
ghost use Rattle.profile_files.specs.Joined.{no_rows};
ghost use Rattle.profile_files.specs.WantedFile.{with_limit};
ghost use Rattle.command_status.specs.declared.status.Status.TheVariants.{Done};
ghost use Rattle.command_words.specs.Meaning.{view_of};
ghost use Rattle.command_steps.specs.Annotate.{Annotates, profile_limit};
ghost use Rattle.command_steps.specs.Stages.{CameTo, Did, DoesAnnotate, ReadsAll};
ghost use Rattle.command_steps.specs.ReportStages.{ReadsFiles, report_status, reported};

use crate::reporting::{read_status, show_report};
use byte_text::OutOfMemory;
use cg_read::Profile;
use command_status::Status;
use command_words::View;
use outside::{FILE_LIMIT, Folder, Sink};
use profile_files::{WantedFile, read_profiles};
use std::alloc::Global;

/// `annotate`. The folder never changes.
pub fn annotate_command<F: Folder, O: Sink>(
    alloc: Global,
    names: &[&str],
    view: &View<'_>,
    folder: &mut F,
    out: &mut O,
) -> Status
    requires { 0 < length names.now }
    ensures works { (err : Stream) → Annotates
        (outside_with F.Folder folder.old (stream_of O.Sink out.old) err)
        (map (λ name. name.now) names.now) (view_of view.now) result
        (outside_with F.Folder folder.new (stream_of O.Sink out.new) err) }
    ensures told { (err : Stream) → CameTo
        (DoesAnnotate (map (λ name. name.now) names.now) (view_of view.now))
        (outside_with F.Folder folder.old (stream_of O.Sink out.old) err) result
        (outside_with F.Folder folder.new (stream_of O.Sink out.new) err) }
{
    match report_on(alloc, names, view, folder, out) {
        Ok(()) => Status::Done,
        Err(status) => status,
    }
}

/// Reads and joins the files, and writes the report on them. Whatever stops this is a status.
fn report_on<F: Folder, O: Sink>(
    alloc: Global,
    names: &[&str],
    view: &View<'_>,
    folder: &mut F,
    out: &mut O,
) -> Result<(), Status>
    requires { 0 < length names.now }
    ensures works { (err : Stream) → Annotates
        (outside_with F.Folder folder.old (stream_of O.Sink out.old) err)
        (map (λ name. name.now) names.now) (view_of view.now) (report_status Done result)
        (outside_with F.Folder folder.new (stream_of O.Sink out.new) err) }
    ensures told { (err : Stream) → Did (DoesAnnotate (map (λ name. name.now) names.now) (view_of view.now))
        (outside_with F.Folder folder.old (stream_of O.Sink out.old) err)
        (reported result)
        (outside_with F.Folder folder.new (stream_of O.Sink out.new) err) }
{
    let profile = read_files(alloc, names, folder)?;
    show_report(alloc, view, &profile, folder, out)
}

/// Reads and joins the files of these names.
fn read_files<F: Folder>(alloc: Global, names: &[&str], folder: &mut F) -> Result<Profile, Status>
    requires { 0 < length names.now }
    ensures answer { ReadsFiles (F.contents folder.old) (F.load_faults folder.old) (F.load_faults folder.new) []
        (map (with_limit profile_limit) (map (λ name. name.now) names.now)) result }
    ensures told { (out err : Stream) → Did (ReadsAll (no_rows [])
        (map (with_limit profile_limit) (map (λ name. name.now) names.now)))
        (outside_with F.Folder folder.old out err) result (outside_with F.Folder folder.new out err) }
    ensures events { IfOk result (λ profile. 0 < length profile.events) }
    ensures same_contents { F.contents folder.new ≡ F.contents folder.old }
    ensures never_falls { F.load_faults folder.old ≤ F.load_faults folder.new }
    ensures same_put_faults { F.put_faults folder.new ≡ F.put_faults folder.old }
{
    let files = wanted(alloc, names)?;
    match read_profiles(alloc, &[], &files, folder) {
        Ok(profile) => Ok(profile),
        Err(fault) => Err(read_status(fault)),
    }
}

/// The files of these names, each with the limit of a profile.
fn wanted<'a>(alloc: Global, names: &[&'a str]) -> Result<Vec<WantedFile<'a>>, OutOfMemory>
    ensures { IfOk result (λ files. files.items ≡ map (with_limit profile_limit) (map (λ name. name.now) names.now)) }
{
    let mut files = Vec::with_capacity(alloc, names.len())?;
    'names: for name in names {
        files.push(WantedFile {
            name: *name,
            limit: FILE_LIMIT,
        })?;
    }
    Ok(files)
}
