//! Profile files, each loaded, read and joined before the next.

ghost use Rattle.std.specs.Prelude.{◌≡◌, ◌≤◌, ◌⊎◌, length, map};
ghost use Rattle.cg_read.specs.Profiles.{AreApart, most_events};
ghost use Rattle.profile_files.specs.Calls.{HasFault, TellsReading};
ghost use Rattle.profile_files.specs.Joined.{no_rows};
ghost use Rattle.profile_files.specs.Reading.{IsComplete, IsReading, load_fault, refusal_of};
ghost use Rattle.profile_files.specs.inner.Stages.{Asks, JoinsFile, LoadsFile, ReadsFile};
ghost use Rattle.byte_text.specs.Memory.{memory};

use crate::fault::ReadFault;
use crate::wanted::WantedFile;
use byte_text::Text;
use cg_read::{FormatError, Joined, MergeError, Profile, read_any};
use outside::{Folder, LoadError};
use std::alloc::Global;

/// Loads, reads and joins profile files in their order, each before the next is loaded, to a profile that begins with
/// these events and no rows. There are at most 64 names, and they differ; where there are none, the first file's events
/// are those that the others have to agree with. The first file that is refused stops it.
pub fn read_profiles<F: Folder>(
    alloc: Global,
    events: &[&str],
    files: &[WantedFile<'_>],
    folder: &mut F,
) -> Result<Profile, ReadFault>
    requires limit { length events.now ≤ most_events }
    requires differ { AreApart (map (λ name. name.now) events.now) }
    // What is answered follows from what the loads gave.
    ensures reading { IsReading (F.contents folder.old) (F.load_faults folder.old) (F.load_faults folder.new)
        (no_rows (map (λ name. name.now) events.now)) files.now result }
    // The folder is asked for each file once, in their order, up to the one that stops it.
    ensures told { TellsReading (no_rows (map (λ name. name.now) events.now)) files.now result (F.calls folder.old)
        (F.calls folder.new) }
    // Where no load failed and memory wasn't wanting, it follows from what the folder holds.
    ensures complete { IsComplete (F.contents folder.old) (F.load_faults folder.old) (F.load_faults folder.new)
        (no_rows (map (λ name. name.now) events.now)) files.now result }
    ensures same_contents { F.contents folder.new ≡ F.contents folder.old }
    ensures never_falls { F.load_faults folder.old ≤ F.load_faults folder.new }
    ensures same_put_faults { F.put_faults folder.new ≡ F.put_faults folder.old }
{
    read_in_order(alloc, events, files, folder)
}

/// The same. Where there are no events before the first file, what it reads as is taken as it is.
fn read_in_order<F: Folder>(
    alloc: Global,
    events: &[&str],
    files: &[WantedFile<'_>],
    folder: &mut F,
) -> Result<Profile, ReadFault>
    requires limit { length events.now ≤ most_events }
    requires differ { AreApart (map (λ name. name.now) events.now) }
    ensures reading { IsReading (F.contents folder.old) (F.load_faults folder.old) (F.load_faults folder.new)
        (no_rows (map (λ name. name.now) events.now)) files.now result }
    ensures told { TellsReading (no_rows (map (λ name. name.now) events.now)) files.now result (F.calls folder.old)
        (F.calls folder.new) }
    ensures same_contents { F.contents folder.new ≡ F.contents folder.old }
    ensures never_falls { F.load_faults folder.old ≤ F.load_faults folder.new }
    ensures same_put_faults { F.put_faults folder.new ≡ F.put_faults folder.old }
{
    if !events.is_empty() {
        let before = Profile::empty(alloc, events)?;
        return join_files(alloc, before, files, folder);
    }
    let Some((first, rest)) = files.split_first() else {
        return Ok(Profile::empty(alloc, events)?);
    };
    let profile = read_one(alloc, first, folder)?;
    join_files(alloc, profile, rest, folder)
}

/// Joins files to a profile, each loaded and read before the next is loaded.
fn join_files<F: Folder>(
    alloc: Global,
    profile: Profile,
    files: &[WantedFile<'_>],
    folder: &mut F,
) -> Result<Profile, ReadFault>
    ensures reading { IsReading (F.contents folder.old) (F.load_faults folder.old) (F.load_faults folder.new) profile
        files.now result }
    ensures told { TellsReading profile files.now result (F.calls folder.old) (F.calls folder.new) }
    ensures same_contents { F.contents folder.new ≡ F.contents folder.old }
    ensures never_falls { F.load_faults folder.old ≤ F.load_faults folder.new }
    ensures same_put_faults { F.put_faults folder.new ≡ F.put_faults folder.old }
{
    let mut joined = Joined::new(alloc, profile);
    'files: for file in files {
        let read = read_one(alloc, file, folder)?;
        join(alloc, file, &mut joined, &read)?;
    }
    Ok(joined.into_profile())
}

/// Loads a file and reads it, and lets its bytes go.
fn read_one<F: Folder>(
    alloc: Global,
    file: &WantedFile<'_>,
    folder: &mut F,
) -> Result<Profile, ReadFault>
    ensures answer { ReadsFile (Asks (F.contents folder.old) (F.load_faults folder.old) (F.load_faults folder.new)
        (F.calls folder.old) (F.calls folder.new) file.now) file.now result }
    ensures same_contents { F.contents folder.new ≡ F.contents folder.old }
    ensures never_falls { F.load_faults folder.old ≤ F.load_faults folder.new }
    ensures same_put_faults { F.put_faults folder.new ≡ F.put_faults folder.old }
{
    let bytes = load_one(alloc, file, folder)?;
    match read_any(alloc, &bytes) {
        Ok(profile) => Ok(profile),
        Err(error) => Err(format_fault(alloc, file.name, error)),
    }
}

/// Loads a file.
fn load_one<F: Folder>(
    alloc: Global,
    file: &WantedFile<'_>,
    folder: &mut F,
) -> Result<Vec<u8>, ReadFault>
    ensures answer { LoadsFile (Asks (F.contents folder.old) (F.load_faults folder.old) (F.load_faults folder.new)
        (F.calls folder.old) (F.calls folder.new) file.now) file.now result }
    ensures same_contents { F.contents folder.new ≡ F.contents folder.old }
    ensures never_falls { F.load_faults folder.old ≤ F.load_faults folder.new }
    ensures same_put_faults { F.put_faults folder.new ≡ F.put_faults folder.old }
{
    match folder.load(file.name, file.limit) {
        Ok(bytes) => Ok(bytes),
        Err(error) => Err(load_fault(alloc, file.name, error)),
    }
}

/// Joins what a file reads as.
fn join(
    alloc: Global,
    file: &WantedFile<'_>,
    joined: &mut Joined,
    read: &Profile,
) -> Result<(), ReadFault>
    ensures { JoinsFile file.now joined.old read.now result joined.new }
{
    match joined.merge(alloc, read) {
        Ok(()) => Ok(()),
        Err(MergeError::EventsDiffer) => {
            let name = Text::from_bytes(alloc, file.name.as_bytes())?;
            Err(ReadFault::EventsDiffer(name))
        }
        Err(MergeError::OutOfMemory(refused)) => Err(ReadFault::OutOfMemory(refused)),
    }
}

/// Why a load of this name stops the reading.
fn load_fault(alloc: Global, name: &str, error: LoadError) -> ReadFault
    ensures { HasFault (load_fault name.now (Err error)) result }
{
    let name = match Text::from_bytes(alloc, name.as_bytes()) {
        Ok(name) => name,
        Err(refused) => return ReadFault::OutOfMemory(refused),
    };
    match error {
        LoadError::Failed => ReadFault::LoadFault(name),
        LoadError::TooLong(len) => ReadFault::TooLong(name, len),
        LoadError::OutOfMemory(refused) => ReadFault::OutOfMemory(refused),
    }
}

/// Why bytes under this name, which are refused so, stop the reading.
fn format_fault(alloc: Global, name: &str, error: FormatError) -> ReadFault
    ensures { (result ≡ ReadFault.OutOfMemory memory) ⊎ (result ≡ refusal_of name.now error) }
{
    let name = match Text::from_bytes(alloc, name.as_bytes()) {
        Ok(name) => name,
        Err(refused) => return ReadFault::OutOfMemory(refused),
    };
    match error {
        FormatError::OutOfMemory(refused) => ReadFault::OutOfMemory(refused),
        _ => ReadFault::FormatRefused(name, error),
    }
}
