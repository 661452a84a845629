//! The files of a run, read and joined.

ghost use Rattle.std.specs.Prelude.{◌≡◌, ◌≤◌, ◌<◌, IfOk, length};
ghost use Rattle.event_costs.specs.Costs.{event_names, events_shown};
ghost use Rattle.cg_read.specs.Profiles.{IsProfile};
ghost use Rattle.outside.specs.Outside.{Stream, outside_with};
ghost use Rattle.profile_files.specs.Joined.{no_rows};
ghost use Rattle.command_steps.specs.Stages.{Did, ReadsAll};
ghost use Rattle.command_steps.specs.ReportStages.{HasEvents, ReadsFiles};

use crate::reporting::read_status;
use cg_read::Profile;
use command_status::Status;
use event_costs::event_names_shown;
use outside::Folder;
use profile_files::{WantedFile, read_profiles};
use std::alloc::Global;

/// Reads and joins the files of a run, with branches or without, in their order.
pub fn read_run_files<F: Folder>(
    alloc: Global,
    branches: bool,
    files: &[WantedFile<'_>],
    folder: &mut F,
) -> Result<Profile, Status>
    ensures answer { ReadsFiles (F.contents folder.old) (F.load_faults folder.old) (F.load_faults folder.new)
        (events_shown branches event_names) files.now result }
    ensures told { (out err : Stream) → Did (ReadsAll (no_rows (events_shown branches event_names)) files.now)
        (outside_with F.Folder folder.old out err) result (outside_with F.Folder folder.new out err) }
    ensures profile { IfOk result (λ p. IsProfile p) }
    ensures some { IfOk result (λ p. 0 < length p.events) }
    ensures events { IfOk result (HasEvents (events_shown branches event_names)) }
    ensures same_contents { F.contents folder.new ≡ F.contents folder.old }
    ensures never_falls { F.load_faults folder.old ≤ F.load_faults folder.new }
    ensures same_put_faults { F.put_faults folder.new ≡ F.put_faults folder.old }
{
    match read_profiles(alloc, event_names_shown(branches), files, folder) {
        Ok(profile) => Ok(profile),
        Err(fault) => Err(read_status(fault)),
    }
}
