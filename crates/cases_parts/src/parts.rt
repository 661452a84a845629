//! Parts of a run: their texts, their names, and how they are put.

ghost use Rattle.cg_format.specs.Part.{AreKnown};

use crate::rows::{many_rows, rows_of};
use crate::words::levels;
use anyhow::{Context, Result, bail};
use arc_costs::TableRows;
use cg_format::{PartHead, Trigger, write_part};
use part_dump::{DumpError, NoWatch, Watch, dump, dump_text, part_name};
use prof_base::{Branch, Cost, Done, Event, Flow, MemFolder, OutOfMemory, Text, ThreadNo, Touch};
use program_map::Chosen;
use script_lines::{Scene, any_number, first_word, small_numbers, text_of};
use std::alloc::{AllocError, Global};
use sym_map::SymMap;

/// The event of a call.
const CALL: Event = Event {
    thread: ThreadNo(1),
    done: Done {
        pc: 0x1_0000,
        next: 0x1_0008,
        sp: 0x7000,
        flow: Flow::Call,
        touch: Touch::Nothing,
        branch: Branch::Nothing,
    },
    ends: false,
};

#[derive(Drop)]
struct Stage {
    chosen: Chosen,
    folder: MemFolder,
}

/// Plays the scene.
pub fn scene(rt: &HostRuntime, lines: &str) -> Result<()> {
    let alloc = rt.alloc();
    let mut stage = Stage {
        chosen: Chosen::none(),
        folder: MemFolder::new(alloc, Vec::new(alloc), Vec::new(alloc)),
    };
    script_lines::play(rt, &mut stage, lines)
}

impl Stage {
    fn use_part(&mut self, rt: &HostRuntime, word: &str, rest: &str) -> Result<()> {
        let map = &self.chosen.program()?.map;
        let (arg, part) = first_word(rest)?;
        let (head, rows) = part.split_once(" | ").unwrap_or((part, ""));
        let rows = rows_of(rt.alloc(), map, rows)?;
        use_rows(rt, map, head, &rows, &mut self.folder, word, arg)
    }

    /// Begins with a folder whose call of this number fails.
    fn begin(&mut self, alloc: Global, number: &str) -> Result<()> {
        let fails = Vec::from_slice(alloc, &[any_number(number)])?;
        self.folder = MemFolder::new(alloc, Vec::new(alloc), fails);
        Ok(())
    }
}

impl Scene for Stage {
    /// Follows a line. `program` takes another program, and `folder` begins with one whose call of this number fails, 0
    /// for none. `file` prints a file of it, and `name` a part's name, of the base, the part and the thread. The others
    /// have an argument, what a part says before its rows and, behind a bar, they. `write` prints the part's text, and
    /// `watch` that of the watch of a run that nobody watches; `many` prints how many lines a part of so many rows has;
    /// `put` puts the part with such a name, and `text` a text in its place.
    fn follow(&mut self, rt: &HostRuntime, line: &str) -> Result<()> {
        let (word, rest) = first_word(line)?;
        match word {
            "program" => self.chosen.take(rt, rest),
            "folder" => self.begin(rt.alloc(), rest),
            "file" => print_file(rt, &self.folder, rest),
            "name" => print_name(rt, rest),
            _ => self.use_part(rt, word, rest),
        }
    }
}

fn use_rows(
    rt: &HostRuntime,
    map: &SymMap,
    head: &str,
    rows: &TableRows,
    folder: &mut MemFolder,
    word: &str,
    arg: &str,
) -> Result<()>
    requires { AreKnown map.now rows.now }
{
    let head = head_of(rt.alloc(), head)?;
    answer(rt, map, &head, rows, folder, word, arg)
}

fn answer(
    rt: &HostRuntime,
    map: &SymMap,
    head: &PartHead,
    rows: &TableRows,
    folder: &mut MemFolder,
    word: &str,
    arg: &str,
) -> Result<()>
    requires { AreKnown map.now rows.now }
{
    let alloc = rt.alloc();
    match word {
        "write" => print_text(rt, write_part(alloc, head, rows, map)),
        "watch" => print_text(rt, unwatched(alloc, head, rows, map)),
        "many" => print_many(rt, head, map, arg),
        "put" => print_put(rt, dump(alloc, arg, head, rows, map, folder)),
        "text" => {
            let text = spelled(alloc, arg)?;
            print_put(rt, dump_text(alloc, "p", head, &text, folder))
        }
        _ => bail!("no such line"),
    }
}

/// The command, the program, why the part ends, its thread, its number and, where branches are shown, a one. In texts
/// `~` stands for a space, `^` for a tab, `|` for a line feed and `@` for the byte 0xff. The caches are the default ones.
fn head_of(alloc: Global, text: &str) -> Result<PartHead> {
    let (cmd, rest) = first_word(text)?;
    let (object, rest) = first_word(rest)?;
    let (trigger, rest) = first_word(rest)?;
    let [thread, part, branch, ..] = small_numbers(rest);
    let (first, last) = levels([32_768, 8], [8_388_608, 16])?;
    Ok(PartHead {
        thread: ThreadNo(thread),
        part,
        cmd: spelled(alloc, cmd)?,
        object: spelled(alloc, object)?,
        i1: first,
        d1: first,
        ll: last,
        trigger: trigger_of(alloc, trigger)?,
        branch: branch == 1,
    })
}

/// `every:` and a number of steps, `before:` or `after:` and a name, or the end of the run.
fn trigger_of(alloc: Global, word: &str) -> Result<Trigger> {
    Ok(match word.split_once(':') {
        Some(("every", steps)) => Trigger::Every(any_number(steps)),
        Some(("before", name)) => Trigger::Before(spelled(alloc, name)?),
        Some((_, name)) => Trigger::After(spelled(alloc, name)?),
        None => Trigger::Termination,
    })
}

/// A text in which `~` stands for a space, `^` for a tab, `|` for a line feed, and `@` for the byte 0xff.
fn spelled(alloc: Global, text: &str) -> Result<Text, AllocError> {
    let mut bytes = Vec::new(alloc);
    for letter in text.as_bytes() {
        bytes.push(match *letter {
            b'~' => b' ',
            b'^' => b'\t',
            b'|' => b'\n',
            b'@' => 0xff,
            other => other,
        })?;
    }
    Ok(Text { bytes })
}

/// The text of the watch of a run that nobody watches, after a step was watched.
fn unwatched(
    alloc: Global,
    head: &PartHead,
    rows: &TableRows,
    syms: &SymMap,
) -> Result<Text, OutOfMemory>
    requires { AreKnown syms.now rows.now }
{
    let mut watch = NoWatch::new(alloc);
    watch.ready(ThreadNo(1), 0x1_0000, syms)?;
    watch.seen(&CALL, &Cost::ZERO, None, &[], syms);
    watch.part(head, rows, syms)
}

fn print_many(rt: &HostRuntime, head: &PartHead, syms: &SymMap, count: &str) -> Result<()> {
    let [count, ..] = small_numbers(count);
    let rows = many_rows(rt.alloc(), syms, count)?;
    let text = write_part(rt.alloc(), head, &rows, syms)?;
    print_count(rt, text.as_bytes())
}

fn print_count(rt: &HostRuntime, bytes: &[u8]) -> Result<()> {
    println!(rt; "{} lines", text_of(bytes)?.lines().count())?;
    Ok(())
}

fn print_put(rt: &HostRuntime, answer: Result<u64, DumpError>) -> Result<()> {
    match answer {
        Ok(len) => println!(rt; "put {len} bytes")?,
        Err(DumpError::PutFault) => println!(rt; "refused")?,
        Err(DumpError::OutOfMemory(_)) => bail!("out of memory"),
    }
    Ok(())
}

fn print_text(rt: &HostRuntime, text: Result<Text, OutOfMemory>) -> Result<()> {
    print_bytes(rt, text?.as_bytes())
}

/// Prints a text, whose lines each end with a line feed.
fn print_bytes(rt: &HostRuntime, bytes: &[u8]) -> Result<()> {
    println!(rt; "{} bytes", bytes.len())?;
    for line in text_of(bytes)?.lines() {
        println!(rt; "{line}")?;
    }
    Ok(())
}

fn print_file(rt: &HostRuntime, folder: &MemFolder, name: &str) -> Result<()> {
    print_bytes(rt, folder.file(name).context("no such file")?)
}

fn print_name(rt: &HostRuntime, rest: &str) -> Result<()> {
    let (base, rest) = first_word(rest)?;
    let [part, thread, ..] = small_numbers(rest);
    let name = part_name(rt.alloc(), base, part, ThreadNo(thread))?;
    println!(rt; "{}", name.as_str())?;
    Ok(())
}
