//! The calls that a command made of a folder.

use anyhow::{Result, ensure};
use outside::{FolderCall, LoadError, PutError};
use script_lines::file_bytes;

/// Prints the calls of the folder that a program runs in, and how many bytes each moved or are too many. What was put
/// and what was loaded is compared with the files, so that a part which was read again was read as it was put.
pub fn print_calls(rt: &HostRuntime, calls: &[FolderCall]) -> Result<()> {
    for call in calls {
        match call {
            FolderCall::Loaded(name, limit, answer) => {
                print!(rt; "load {} {limit}: ", name.as_str())?;
                print_load(rt, name.as_str(), answer)?;
            }
            FolderCall::Put(name, bytes, answer) => {
                print!(rt; "put {}: ", name.as_str())?;
                print_put(rt, name.as_str(), bytes, *answer)?;
            }
        }
    }
    Ok(())
}

fn print_load(rt: &HostRuntime, name: &str, answer: &Result<Vec<u8>, LoadError>) -> Result<()> {
    match answer {
        Ok(bytes) => print_moved(rt, name, bytes),
        Err(LoadError::TooLong(len)) => Ok(println!(rt; "{len} bytes, too long")?),
        Err(_) => Ok(println!(rt; "failed")?),
    }
}

fn print_put(
    rt: &HostRuntime,
    name: &str,
    bytes: &[u8],
    answer: Result<(), PutError>,
) -> Result<()> {
    match answer {
        Ok(()) => print_moved(rt, name, bytes),
        Err(_) => Ok(println!(rt; "failed")?),
    }
}

/// Prints how many bytes were moved, and compares them with the file as it stands behind the command.
fn print_moved(rt: &HostRuntime, name: &str, bytes: &[u8]) -> Result<()> {
    println!(rt; "{} bytes", bytes.len())?;
    let file = file_bytes(rt, name)?;
    ensure!(file.as_slice() == bytes, "a file has other bytes");
    Ok(())
}
