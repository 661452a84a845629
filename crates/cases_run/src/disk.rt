//! Commands over the folder that this program runs in.

use crate::process::{exit_of, status_of};
use anyhow::{Context, Result};
use cases_script::{Leavings, print_calls, words_of_line};
use outside::{DirFolder, FolderCall, Traced};
use std::process::ExitCode;

/// Does a command as a process does it. Prints what it ends with, which calls it made of the folder, and what it wrote
/// to the sinks.
pub fn run(rt: &HostRuntime, line: &str) -> Result<()> {
    let alloc = rt.alloc();
    let words = words_of_line(alloc, line)?;
    let mut folder = Traced::new(alloc, DirFolder::new(rt));
    let mut left = Leavings::new(alloc);
    let code = exit_of(alloc, words, &mut folder, &mut left.out, &mut left.err);
    print(rt, code, folder.calls(), &left)
}

fn print(
    rt: &HostRuntime,
    code: ExitCode,
    calls: Option<&[FolderCall]>,
    left: &Leavings,
) -> Result<()> {
    println!(rt; "status {}", status_of(code)?)?;
    print_calls(rt, calls.context("a call could not be kept")?)?;
    left.print_writes(rt)
}
