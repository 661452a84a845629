//! The command as a process: from its arguments to its exit status.

ghost use Rattle.std.specs.Prelude.{◌≡◌, IfOk};
ghost use Rattle.std.specs.Process.{exit_status};
ghost use Rattle.std.specs.Vec.Iter.{into_iter_items};
ghost use Rattle.command_status.specs.Numbers.{number_of};
ghost use Rattle.outside.specs.Outside.{outside_of};
ghost use Rattle.profile_cli.specs.Exit.{ExitsWith};
ghost use Rattle.profile_cli.specs.inner.ProcessWords.{AreWords};

use crate::work::profile;
use byte_text::OutOfMemory;
use command_status::Status;
use outside::{Folder, Sink};
use std::alloc::Global;
use std::env::Args;
use std::io;
use std::process::ExitCode;

/// Does what the arguments of a process ask for, the program's own name first, and answers what the process ends with:
/// the number of its status. Arguments that can't be read as text are faulty.
pub fn command<F: Folder, O: Sink, E: Sink>(
    alloc: Global,
    args: io::Result<Args>,
    folder: &mut F,
    out: &mut O,
    err: &mut E,
) -> ExitCode
    ensures { ExitsWith (outside_of F.Folder O.Sink E.Sink folder.old out.old err.old) args (exit_status result)
        (outside_of F.Folder O.Sink E.Sink folder.new out.new err.new) }
{
    match words_of(alloc, args) {
        Ok(words) => exit_code(&profile(alloc, &words, folder, out, err)),
        Err(refused) => exit_code(&Status::OutOfMemory(refused)),
    }
}

/// The words that the arguments are: none, which is faulty, where they can't be read.
fn words_of(alloc: Global, args: io::Result<Args>) -> Result<Vec<String>, OutOfMemory>
    ensures { AreWords args result }
{
    match args {
        Ok(args) => listed(alloc, args),
        Err(error) => match OutOfMemory::of_io(&error) {
            Some(refused) => Err(refused),
            None => Ok(Vec::new(alloc)),
        },
    }
}

/// The arguments as a list.
fn listed(alloc: Global, args: Args) -> Result<Vec<String>, OutOfMemory>
    ensures { IfOk result (λ words. words.items ≡ into_iter_items args) }
{
    let mut words = Vec::new(alloc);
    'each: for word in args {
        words.push(word)?;
    }
    Ok(words)
}

/// What a process ends with.
fn exit_code(status: &Status) -> ExitCode
    ensures { exit_status result ≡ number_of status.now }
{
    ExitCode::from(status.number())
}
