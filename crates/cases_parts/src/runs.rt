//! Runs of programs over a folder in memory, whose puts and writes may fail.

ghost use Rattle.std.specs.Prelude.{◌<◌, ◌≤◌, ◌^◌, IfOk, IfSome, length};

use crate::drip::Drip;
use crate::tally::Tally;
use crate::words::levels;
use anyhow::{Result, bail, ensure};
use elf_read::{Elf, read};
use guest_sched::Turns;
use part_dump::part_name;
use prof_base::{MemFolder, ThreadNo};
use profile_run::{RunFault, RunOptions, run, run_watched};
use program_map::{Chosen, Program};
use script_lines::{Scene, first_word, small_numbers, text_of};
use std::alloc::{AllocError, Global};
use std::mem;
use sym_map::SymMap;

/// What the names of parts begin with.
pub const BASE: &str = "b";

/// The most steps of a run that is told whole.
const BUDGET: u32 = 100_000;

/// An output that is longer is not printed.
const LONG: usize = 1_000;

/// What is asked of a run.
#[derive(Clone, Copy)]
pub struct RunRequest<'a> {
    /// The steps between cuts, 0 for no cuts.
    pub every: u32,
    /// The name of the function before which a cut stands.
    pub before: Option<&'a str>,
    /// The most steps.
    pub budget: u32,
}

/// Where a run puts its parts and its output.
#[derive(Drop)]
pub struct Outside {
    pub folder: MemFolder,
    out: Drip,
    err: Drip,
}

impl Outside {
    /// A folder of which one put fails, none for 0, and sinks that take so many bytes at a time, with room for so many.
    pub fn new(alloc: Global, fail: u32, sinks: [u32; 3]) -> Result<Outside, AllocError> {
        let fails = Vec::from_slice(alloc, &[u64::from(fail)])?;
        let [most, out, err] = sinks;
        Ok(Outside {
            folder: MemFolder::new(alloc, Vec::new(alloc), fails),
            out: Drip::new(alloc, most as usize, out as usize),
            err: Drip::new(alloc, most as usize, err as usize),
        })
    }
}

#[derive(Drop)]
struct Stage {
    chosen: Chosen,
    /// The folder of the last run that others are compared with.
    kept: MemFolder,
}

/// Plays the scene.
pub fn scene(rt: &HostRuntime, lines: &str) -> Result<()> {
    let mut stage = Stage {
        chosen: Chosen::none(),
        kept: no_files(rt.alloc()),
    };
    script_lines::play(rt, &mut stage, lines)
}

fn no_files(alloc: Global) -> MemFolder {
    MemFolder::new(alloc, Vec::new(alloc), Vec::new(alloc))
}

impl Stage {
    fn begin(&mut self, rt: &HostRuntime, name: &str) -> Result<()> {
        self.kept = no_files(rt.alloc());
        self.chosen.take(rt, name)
    }

    fn run(&mut self, rt: &HostRuntime, rest: &str, keeps: bool) -> Result<()> {
        let program = self.chosen.program()?;
        let [every, fail, most, out, err, ..] = small_numbers(rest);
        let mut outside = Outside::new(rt.alloc(), fail, [most, out, err])?;
        run_plain(rt, program, every, &mut outside, &self.kept)?;
        if keeps {
            mem::swap(&mut self.kept, &mut outside.folder);
        }
        Ok(())
    }

    fn watch(&self, rt: &HostRuntime, rest: &str) -> Result<()> {
        let program = self.chosen.program()?;
        let [every, fail, most, out, err, ..] = small_numbers(rest);
        let mut outside = Outside::new(rt.alloc(), fail, [most, out, err])?;
        run_told(rt, program, every, &mut outside)
    }
}

impl Scene for Stage {
    /// Follows a line. `program` takes another program. The others run it and have numbers: the steps between cuts, 0 for
    /// no cuts; the put that fails, 0 for none; how many bytes the sinks of the output take at a time, and for how many
    /// each has room. `run` prints the run's answer, its output and its parts, with a mark at one that isn't as the last
    /// `whole` of the program left it, which does the same. `watch` runs the program watched, and prints what the watch
    /// was told, and the parts.
    fn follow(&mut self, rt: &HostRuntime, line: &str) -> Result<()> {
        let (word, rest) = first_word(line)?;
        match word {
            "program" => self.begin(rt, rest),
            "run" => self.run(rt, rest, false),
            "whole" => self.run(rt, rest, true),
            "watch" => self.watch(rt, rest),
            _ => bail!("no such line"),
        }
    }
}

/// Runs a program, and prints its answer, its output and its parts, with a mark at one that isn't as it was kept.
fn run_plain(
    rt: &HostRuntime,
    program: &Program,
    every: u32,
    outside: &mut Outside,
    kept: &MemFolder,
) -> Result<()> {
    let asked = RunRequest {
        every,
        before: None,
        budget: BUDGET,
    };
    print_answer(rt, start(rt.alloc(), program, &asked, None, outside)?)?;
    print_taken(rt, "out", &outside.out.bytes)?;
    print_taken(rt, "err", &outside.err.bytes)?;
    print!(rt; "parts")?;
    print_parts(rt, &outside.folder, Some(kept))?;
    println!(rt; "")?;
    Ok(())
}

/// Runs a program watched, and prints its answer, what the watch was told, and the parts.
fn run_told(rt: &HostRuntime, program: &Program, every: u32, outside: &mut Outside) -> Result<()> {
    let mut tally = Tally::new(rt.alloc());
    let asked = RunRequest {
        every,
        before: None,
        budget: BUDGET,
    };
    let fault = start(rt.alloc(), program, &asked, Some(&mut tally), outside)?;
    print_answer(rt, fault)?;
    println!(rt; "{} calls {:016x}", tally.calls, tally.order)?;
    print_parts(rt, &outside.folder, None)
}

/// Prints the parts in a folder, as `print_part` does. No run of the script has more than 12, or more than two threads.
fn print_parts(rt: &HostRuntime, folder: &MemFolder, kept: Option<&MemFolder>) -> Result<()> {
    for number in 2..26 {
        let name = part_name(rt.alloc(), BASE, number / 2, ThreadNo(number % 2 + 1))?;
        if let Some(part) = folder.file(name.as_str()) {
            print_part(rt, name.as_str(), part, kept)?;
        }
    }
    Ok(())
}

/// Prints a part's name, with a mark if it isn't as it was kept, or the part, where nothing was.
fn print_part(rt: &HostRuntime, name: &str, part: &[u8], kept: Option<&MemFolder>) -> Result<()> {
    let Some(kept) = kept else {
        println!(rt; "{name} {}", text_of(part)?)?;
        return Ok(());
    };
    let mark = match kept.file(name) {
        Some(other) if other != part => "!",
        _ => "",
    };
    print!(rt; " {name}{mark}")?;
    Ok(())
}

fn owned(alloc: Global, name: Option<&str>) -> Result<Option<String>, AllocError> {
    match name {
        Some(name) => Ok(Some(String::from_str(alloc, name)?)),
        None => Ok(None),
    }
}

fn options(alloc: Global, asked: &RunRequest<'_>) -> Result<RunOptions>
    ensures some_steps { IfOk result (λ o. 1 ≤ o.budget) }
    ensures few_steps { IfOk result (λ o. o.budget ≤ 10 ^ 12) }
    ensures turns { IfOk result (λ o. 1 ≤ o.quantum) }
    ensures every { IfOk result (λ o. IfSome o.dump_points.every (λ n. 0 < n)) }
{
    ensure!(asked.budget > 0, "no steps");
    let (first, last) = levels([1_024, 2], [4_096, 4])?;
    let before = owned(alloc, asked.before)?;
    Ok(RunOptions {
        base: String::from_str(alloc, BASE)?,
        budget: u64::from(asked.budget),
        turns: Turns {
            quantum: 10_000,
            seed: None,
        },
        i1: first,
        d1: first,
        ll: last,
        every: if asked.every > 0 {
            Some(u64::from(asked.every))
        } else {
            None
        },
        before,
        after: None,
        branch: false,
    })
}

/// The only argument is the program's name, `p`.
fn arguments(alloc: Global) -> Result<Vec<String>>
    ensures { IfOk result (λ args. 0 < length args.items) }
{
    let mut args = Vec::new(alloc);
    args.push(String::from_str(alloc, "p")?)?;
    Ok(args)
}

/// Runs a program, and answers its fault if it has one.
pub fn start(
    alloc: Global,
    program: &Program,
    asked: &RunRequest<'_>,
    tally: Option<&mut Tally>,
    outside: &mut Outside,
) -> Result<Option<RunFault>> {
    let elf = read(alloc, &program.file)?;
    start_elf(alloc, &elf, &program.map, asked, tally, outside)
}

fn start_elf(
    alloc: Global,
    elf: &Elf<'_>,
    map: &SymMap,
    asked: &RunRequest<'_>,
    tally: Option<&mut Tally>,
    outside: &mut Outside,
) -> Result<Option<RunFault>> {
    let options = options(alloc, asked)?;
    let args = arguments(alloc)?;
    Ok(play(alloc, elf, map, &args, &options, tally, outside))
}

fn play(
    alloc: Global,
    elf: &Elf<'_>,
    syms: &SymMap,
    args: &[String],
    options: &RunOptions,
    tally: Option<&mut Tally>,
    outside: &mut Outside,
) -> Option<RunFault>
    requires named { 0 < length args.now }
    requires some_steps { 1 ≤ options.now.budget }
    requires few_steps { options.now.budget ≤ 10 ^ 12 }
    requires turns { 1 ≤ options.now.quantum }
    requires every { IfSome options.now.dump_points.every (λ n. 0 < n) }
{
    let input = Vec::new(alloc);
    let Outside { folder, out, err } = outside;
    match tally {
        None => run(alloc, elf, syms, args, input, options, folder, out, err).err(),
        Some(tally) => run_watched(
            alloc, elf, syms, args, input, options, tally, folder, out, err,
        )
        .err(),
    }
}

fn print_answer(rt: &HostRuntime, fault: Option<RunFault>) -> Result<()> {
    match fault {
        None => println!(rt; "done")?,
        Some(RunFault::PutFault(part, thread)) => {
            println!(rt; "part {part} of thread {} was refused", thread.0)?;
        }
        Some(RunFault::OutFault) => println!(rt; "output was refused")?,
        Some(_) => bail!("a refused run"),
    }
    Ok(())
}

/// Prints what a sink took, or how many blocks of eight letters and zeros there are.
fn print_taken(rt: &HostRuntime, name: &str, bytes: &[u8]) -> Result<()> {
    if bytes.len() > LONG {
        let blocks = blocks_of(rt.alloc(), bytes)?;
        println!(rt; "{name} {} bytes, {blocks} blocks", bytes.len())?;
        return Ok(());
    }
    println!(rt; "{name} {:?}", text_of(bytes)?)?;
    Ok(())
}

fn blocks_of(alloc: Global, bytes: &[u8]) -> Result<u32> {
    let mut block = Vec::from_slice(alloc, b"abcdefgh")?;
    block.resize(4_096, 0)?;
    let mut count = 0u32;
    for piece in bytes.chunks(4_096) {
        if piece == block.as_slice() {
            count = count.saturating_add(1);
        }
    }
    Ok(count)
}
