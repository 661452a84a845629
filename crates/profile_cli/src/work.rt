//! The top call: the words are read, what they ask for is done, and the user is told how it ended.

ghost use Rattle.std.specs.Prelude.{◌≤◌, map, string_bytes};
ghost use Rattle.outside.specs.Outside.{outside_of};
ghost use Rattle.command_words.specs.Request.{read_request};
ghost use Rattle.profile_cli.specs.Profile.{IsReply};
ghost use Rattle.profile_cli.specs.Reply.{Works};
ghost use Rattle.profile_cli.specs.inner.RunStages.{DidWorkOrWants};

use crate::demo::demo_command;
use crate::report::report_command;
use crate::run::run_command;
use byte_text::OutOfMemory;
use command_status::Status;
use command_steps::{annotate_command, say};
use command_words::{Request, read_words};
use outside::{Folder, Sink};
use std::alloc::Global;

/// Does what the words ask for; the first one is the program's own name. `run [OPTIONS] PROG [ARGS]` loads PROG from
/// the folder, runs it with its arguments and its input, and puts a part file for each thread at each cut and at the
/// end. The guest's bytes go to `out` and `err` as it writes them. With `--waits=yes` a report on what waiting cost is
/// put behind the last part; with `--separate-callers=N` the parts show what functions cost by their callers, and with
/// `--dump-instr=yes` what instructions cost by their addresses. How it ended is told on `err`, behind the guest's
/// bytes. `report [OPTIONS] PROG [ARGS]` does what `run` does, reads the parts again and joins them, and writes the
/// report on them to `out`: the same report, whether the parts have addresses or not. `annotate [OPTIONS] FILE ..`
/// reads and joins profiles, and writes the report on these. `demo N` runs the demonstration program of size N with
/// `--base=demo.out`, reads its parts again, and writes seven lines to `out`.
pub fn profile<F: Folder, O: Sink, E: Sink>(
    alloc: Global,
    words: &[String],
    folder: &mut F,
    out: &mut O,
    err: &mut E,
) -> Status
    ensures { IsReply
        (outside_of F.Folder O.Sink E.Sink folder.old out.old err.old)
        (read_request (map (λ word. string_bytes word) words.now)) result
        (outside_of F.Folder O.Sink E.Sink folder.new out.new err.new) }
{
    let found = work(alloc, words, folder, out, err);
    say(alloc, found, err)
}

/// Does what the words ask for, without a word on how it ended.
fn work<F: Folder, O: Sink, E: Sink>(
    alloc: Global,
    words: &[String],
    folder: &mut F,
    out: &mut O,
    err: &mut E,
) -> Status
    ensures works { Works
        (outside_of F.Folder O.Sink E.Sink folder.old out.old err.old)
        (read_request (map (λ word. string_bytes word) words.now)) result
        (outside_of F.Folder O.Sink E.Sink folder.new out.new err.new) }
    ensures told { DidWorkOrWants
        (outside_of F.Folder O.Sink E.Sink folder.old out.old err.old)
        (read_request (map (λ word. string_bytes word) words.now)) result
        (outside_of F.Folder O.Sink E.Sink folder.new out.new err.new) }
    ensures never_falls { E.faults err.old ≤ E.faults err.new }
{
    match read_words(alloc, words) {
        Ok(Request::Run(job, watching)) => run_command(alloc, &job, watching, folder, out, err),
        Ok(Request::Report(job, positions, view)) => {
            report_command(alloc, &job, positions, &view, folder, out, err)
        }
        Ok(Request::Annotate(names, view)) => annotate_command(alloc, &names, &view, folder, out),
        Ok(Request::Demo(size)) => demo_command(alloc, size, folder, out, err),
        Ok(Request::Usage) => Status::Usage,
        Err(refused) => Status::OutOfMemory(refused),
    }
}
