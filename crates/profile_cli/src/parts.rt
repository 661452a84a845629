//! The parts of a run, read again.

ghost use Rattle.std.specs.Prelude.{◌≡◌, ◌≤◌, ◌<◌, IfOk, length, map};
ghost use Rattle.event_costs.specs.Costs.{event_names, events_shown};
ghost use Rattle.cg_read.specs.Profiles.{IsProfile};
ghost use Rattle.report_laws.specs.Exact.{part_wanted, parts_wanted};
ghost use Rattle.outside.specs.Outside.{Stream, outside_with};
ghost use Rattle.profile_files.specs.Joined.{no_rows};
ghost use Rattle.command_steps.specs.Stages.{Did, ReadsAll};
ghost use Rattle.command_steps.specs.ReportStages.{HasEvents, ReadsFiles};

use byte_text::OutOfMemory;
use cg_read::Profile;
use command_status::Status;
use command_steps::read_run_files;
use outside::Folder;
use part_dump::part_name;
use profile_files::WantedFile;
use profile_run::PartFile;
use std::alloc::Global;
use std::marker::Model;

/// The file of a part: its name, and its length in bytes.
#[derive(Debug, Drop)]
struct OwnPart {
    name: String,
    len: u64,
}

impl Model for OwnPart {
    ghost use Rattle.std.specs.Prelude.{string_bytes};
    ghost use Rattle.profile_files.specs.WantedFile.{WantedFile as View};

    ghost Value = { View };

    ghost view = { λ p. record { name = string_bytes p.name; limit = p.len } };
}

/// Reads and joins the parts of a run in the order in which they were put, each with its length as the limit.
pub fn read_parts<F: Folder>(
    alloc: Global,
    base: &str,
    branches: bool,
    parts: &[PartFile],
    folder: &mut F,
) -> Result<Profile, Status>
    ensures answer { ReadsFiles (F.contents folder.old) (F.load_faults folder.old) (F.load_faults folder.new)
        (events_shown branches event_names) (parts_wanted base.now parts.now) result }
    ensures told { (out err : Stream) → Did (ReadsAll (no_rows (events_shown branches event_names))
        (parts_wanted base.now parts.now))
        (outside_with F.Folder folder.old out err) result (outside_with F.Folder folder.new out err) }
    ensures profile { IfOk result (λ p. IsProfile p) }
    ensures some { IfOk result (λ p. 0 < length p.events) }
    ensures events { IfOk result (HasEvents (events_shown branches event_names)) }
    ensures same_contents { F.contents folder.new ≡ F.contents folder.old }
    ensures never_falls { F.load_faults folder.old ≤ F.load_faults folder.new }
    ensures same_put_faults { F.put_faults folder.new ≡ F.put_faults folder.old }
{
    let parts = own_parts(alloc, base, parts)?;
    let files = wanted(alloc, &parts)?;
    read_run_files(alloc, branches, &files, folder)
}

/// The files of parts whose names begin with the base.
fn own_parts(alloc: Global, base: &str, parts: &[PartFile]) -> Result<Vec<OwnPart>, OutOfMemory>
    ensures { IfOk result (λ own. own.items ≡ map (part_wanted base.now) parts.now) }
{
    let mut own = Vec::with_capacity(alloc, parts.len())?;
    'parts: for part in parts {
        let name = part_name(alloc, base, part.part, part.thread)?;
        own.push(OwnPart {
            name,
            len: part.len,
        })?;
    }
    Ok(own)
}

/// These files, each with its length as the limit.
fn wanted(alloc: Global, parts: &[OwnPart]) -> Result<Vec<WantedFile<'_>>, OutOfMemory>
    ensures { IfOk result (λ files. files.items ≡ parts.now) }
{
    let mut files = Vec::with_capacity(alloc, parts.len())?;
    'parts: for part in parts {
        files.push(WantedFile {
            name: part.name.as_str(),
            limit: part.len,
        })?;
    }
    Ok(files)
}
