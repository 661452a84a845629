//! A command as a process does it.

use anyhow::{Context, Result};
use outside::{Folder, Sink};
use profile_cli::command;
use std::alloc::Global;
use std::process::ExitCode;

/// Does a command, and answers what a process ends with. It stands alone since the contract of a command is long: it is
/// read here, and not where files and sinks are owned.
pub fn exit_of<F: Folder, O: Sink, E: Sink>(
    alloc: Global,
    words: Vec<String>,
    folder: &mut F,
    out: &mut O,
    err: &mut E,
) -> ExitCode {
    command(alloc, Ok(words.into_iter()), folder, out, err)
}

/// The number that a process ends with.
pub fn status_of(code: ExitCode) -> Result<u8> {
    (0..=u8::MAX)
        .find(|number| ExitCode::from(*number) == code)
        .context("a status")
}
