//! The stages of a report on a profile. What stops one is a status.

ghost use Rattle.std.specs.Prelude.{◌≡◌, ◌≤◌, ◌<◌, true, IfOk, length, map, option_map};
ghost use Rattle.outside.specs.Outside.{Outside, Stream, outside_with, stream_of, with_out};
ghost use Rattle.annotate.specs.Files.{AreFilesShown};
ghost use Rattle.command_words.specs.Meaning as requests;
ghost use Rattle.command_words.specs.Meaning.{view_of};
ghost use Rattle.command_steps.specs.Annotate.{AreTextsFor, MakesReport, SettlesOptions, read_status, tree_of};
ghost use Rattle.command_steps.specs.Stages.{Did, LoadsTexts, Reports, WritesText};
ghost use Rattle.command_steps.specs.inner.ReportStages.{FindsSort, WritesReport, or_wanting};
ghost use Rattle.command_steps.specs.ReportStages.{ShowsReport};

use annotate::{ReportError, ReportOptions, Texts, Tree, files, report};
use byte_text::{OutOfMemory, Text};
use cg_read::Profile;
use command_status::Status;
use command_words::View;
use outside::{Folder, Sink, WriteError, write_all};
use profile_files::ReadFault;
use source_files::load_sources;
use std::alloc::Global;

/// The status of files that can't be read and joined.
pub fn read_status(fault: ReadFault) -> Status
    ensures { result ≡ read_status fault }
{
    match fault {
        ReadFault::LoadFault(name) => Status::LoadFault(name),
        ReadFault::TooLong(name, len) => Status::TooLong(name, len),
        ReadFault::FormatRefused(name, error) => Status::FormatRefused(name, error),
        ReadFault::EventsDiffer(name) => Status::EventsDiffer(name),
        ReadFault::OutOfMemory(refused) => Status::OutOfMemory(refused),
    }
}

/// Writes the report on a profile. Whatever stops this is a status.
pub fn show_report<F: Folder, O: Sink>(
    alloc: Global,
    view: &View<'_>,
    profile: &Profile,
    folder: &mut F,
    out: &mut O,
) -> Result<(), Status>
    requires { 0 < length profile.now.events }
    ensures report { (err : Stream) → ShowsReport
        (outside_with F.Folder folder.old (stream_of O.Sink out.old) err)
        (view_of view.now) profile.now result
        (outside_with F.Folder folder.new (stream_of O.Sink out.new) err) }
    ensures told { (err : Stream) → Did (Reports (view_of view.now) profile.now)
        (outside_with F.Folder folder.old (stream_of O.Sink out.old) err)
        result
        (outside_with F.Folder folder.new (stream_of O.Sink out.new) err) }
    ensures never_falls { F.load_faults folder.old ≤ F.load_faults folder.new }
{
    let options = settle_options(view, profile)?;
    let texts = load_texts(alloc, view.auto, profile, folder)?;
    let text = make_report(alloc, profile, &options, &texts)?;
    write_report(out, &text)
}

/// What a report is to show. An event to sort by that isn't in the profile is a faulty command line.
fn settle_options(view: &View<'_>, profile: &Profile) -> Result<ReportOptions, Status>
    requires { 0 < length profile.now.events }
    ensures answer { SettlesOptions (view_of view.now) profile.now result }
    ensures sort { IfOk result (λ options. options.sort < length profile.now.events) }
{
    let Some(sort) = sort_place(view.sort, profile) else {
        return Err(Status::Usage);
    };
    Ok(ReportOptions {
        sort,
        threshold: view.threshold,
        tree: tree_of(view.tree),
        auto: view.auto,
    })
}

/// The place of the event to sort by, if it is in the profile; without a name it is the first.
fn sort_place(event: Option<&str>, profile: &Profile) -> Option<usize>
    requires { 0 < length profile.now.events }
    ensures { FindsSort (option_map (λ e. e.now) event.entry) profile.now result }
{
    match event {
        Some(event) => profile.event_index(event),
        None => Some(0),
    }
}

/// Which calls a report shows.
fn tree_of(tree: command_words::Tree) -> Tree
    ensures { result ≡ tree_of (requests.tree_of tree) }
{
    match tree {
        command_words::Tree::Off => Tree::Off,
        command_words::Tree::Caller => Tree::Caller,
        command_words::Tree::Calling => Tree::Calling,
        command_words::Tree::Both => Tree::Both,
    }
}

/// The source texts of a profile, where they are asked for.
fn load_texts<F: Folder>(
    alloc: Global,
    asked: bool,
    profile: &Profile,
    folder: &mut F,
) -> Result<Texts, OutOfMemory>
    ensures texts { IfOk result (λ texts. AreTextsFor asked (F.contents folder.old) (F.load_faults folder.old)
        (F.load_faults folder.new) profile.now texts) }
    ensures told { (out err : Stream) → Did (LoadsTexts asked profile.now) (outside_with F.Folder folder.old out err)
        (or_wanting result) (outside_with F.Folder folder.new out err) }
    ensures same_contents { F.contents folder.new ≡ F.contents folder.old }
    ensures never_falls { F.load_faults folder.old ≤ F.load_faults folder.new }
    ensures same_put_faults { F.put_faults folder.new ≡ F.put_faults folder.old }
{
    if !asked {
        return Ok(Texts {
            items: Vec::new(alloc),
        });
    }
    let names = files(alloc, profile)?;
    load_sources(alloc, &names, folder)
}

/// The text of a report.
fn make_report(
    alloc: Global,
    profile: &Profile,
    options: &ReportOptions,
    texts: &Texts,
) -> Result<Text, Status>
    requires sort { options.now.sort < length profile.now.events }
    requires files { options.now.auto ≡ true → AreFilesShown profile.now (map (λ t. t.0) texts.now) }
    ensures { MakesReport profile.now options.now texts.now result }
{
    match report(alloc, profile, options, texts) {
        Ok(text) => Ok(text),
        Err(ReportError::SumLimit(position)) => Err(Status::SumLimit(position)),
        Err(ReportError::OutOfMemory(refused)) => Err(Status::OutOfMemory(refused)),
    }
}

/// Writes a report.
pub fn write_report<O: Sink>(out: &mut O, text: &Text) -> Result<(), Status>
    ensures written { WritesReport (O.taken out.old) text.now (O.faults out.old) (O.faults out.new) result
        (O.taken out.new) }
    ensures told { (beside : Outside) → Did (WritesText text.now) (with_out beside (stream_of O.Sink out.old)) result
        (with_out beside (stream_of O.Sink out.new)) }
{
    match write_all(out, text.as_bytes()) {
        Ok(()) => Ok(()),
        Err(WriteError::Failed) => Err(Status::OutFault),
        Err(WriteError::OutOfMemory(refused)) => Err(Status::OutOfMemory(refused)),
    }
}
