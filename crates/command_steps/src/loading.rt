//! Files that are loaded. What stops this is a status.

ghost use Rattle.std.specs.Prelude.{◌≡◌, ◌≤◌, option_map};
ghost use Rattle.outside.specs.Outside.{Stream, outside_with};
ghost use Rattle.command_steps.specs.Stages.{Did, Loads, LoadsIf};
ghost use Rattle.command_steps.specs.Loading.{HasStatus, LoadsFile, LoadsInput, bytes_loaded, load_fault};

use byte_text::Text;
use command_status::Status;
use outside::{Folder, LoadError, TEXT_LIMIT};
use std::alloc::Global;

/// Loads a file of at most `limit` bytes.
pub fn load_file<F: Folder>(
    alloc: Global,
    name: &str,
    limit: u64,
    folder: &mut F,
) -> Result<Vec<u8>, Status>
    ensures answer { LoadsFile (F.contents folder.old) name.now limit (F.load_faults folder.old)
        (F.load_faults folder.new)
        result }
    ensures told { (out err : Stream) → Did (Loads name.now limit) (outside_with F.Folder folder.old out err)
        (bytes_loaded result) (outside_with F.Folder folder.new out err) }
    ensures same_contents { F.contents folder.new ≡ F.contents folder.old }
    ensures never_falls { F.load_faults folder.old ≤ F.load_faults folder.new }
    ensures same_put_faults { F.put_faults folder.new ≡ F.put_faults folder.old }
{
    match folder.load(name, limit) {
        Ok(bytes) => Ok(bytes),
        Err(error) => Err(load_status(alloc, name, error)),
    }
}

/// The status of a load of this name that was refused.
fn load_status(alloc: Global, name: &str, error: LoadError) -> Status
    ensures { HasStatus (load_fault name.now (Err error)) result }
{
    let name = match Text::from_bytes(alloc, name.as_bytes()) {
        Ok(name) => name,
        Err(refused) => return Status::OutOfMemory(refused),
    };
    match error {
        LoadError::Failed => Status::LoadFault(name),
        LoadError::TooLong(len) => Status::TooLong(name, len),
        LoadError::OutOfMemory(refused) => Status::OutOfMemory(refused),
    }
}

/// Loads the input of a guest; without a name it is empty.
pub fn load_input<F: Folder>(
    alloc: Global,
    name: Option<&str>,
    folder: &mut F,
) -> Result<Vec<u8>, Status>
    ensures answer { LoadsInput (F.contents folder.old) (option_map (λ n. n.now) name.entry) (F.load_faults folder.old)
        (F.load_faults folder.new) result }
    ensures told { (out err : Stream) → Did (LoadsIf (option_map (λ n. n.now) name.entry))
        (outside_with F.Folder folder.old out err) (bytes_loaded result) (outside_with F.Folder folder.new out err) }
    ensures same_contents { F.contents folder.new ≡ F.contents folder.old }
    ensures never_falls { F.load_faults folder.old ≤ F.load_faults folder.new }
    ensures same_put_faults { F.put_faults folder.new ≡ F.put_faults folder.old }
{
    match name {
        Some(name) => load_file(alloc, name, TEXT_LIMIT, folder),
        None => Ok(Vec::new(alloc)),
    }
}
