//! The segments that cuts leave of a run.

use crate::runs::{BASE, Outside, RunRequest, start};
use crate::words::name_of;
use anyhow::{Context, Result, bail, ensure};
use part_dump::part_name;
use prof_base::{MemFolder, ThreadNo};
use program_map::Program;
use script_lines::{decimal, first_word, small_numbers, text_of};
use std::alloc::Global;

/// A segment by its part, with its steps.
#[derive(Clone, Copy)]
enum Segment {
    /// A cut ends it.
    Closed(u64),
    /// The run ends within it.
    Last(u64),
}

/// Runs a program, by the steps between cuts, the name of the function before which a cut stands, and the steps of the
/// run, and prints its segments.
pub fn print_cuts(rt: &HostRuntime, program: &Program, rest: &str) -> Result<()> {
    let (every, rest) = first_word(rest)?;
    let (before, budget) = first_word(rest)?;
    let [every, ..] = small_numbers(every);
    let [budget, ..] = small_numbers(budget);
    let asked = RunRequest {
        every,
        before: name_of(before),
        budget,
    };
    let outside = cut(rt.alloc(), program, &asked)?;
    print_segments(rt, &outside.folder)
}

/// What a run with cuts leaves.
fn cut(alloc: Global, program: &Program, asked: &RunRequest<'_>) -> Result<Outside> {
    let mut outside = Outside::new(alloc, 0, [0; 3])?;
    match start(alloc, program, asked, None, &mut outside)? {
        None => Ok(outside),
        Some(_) => bail!("a refused run"),
    }
}

/// Prints how many segments a cut ends, which are of one length, and how many steps stand behind them.
fn print_segments(rt: &HostRuntime, folder: &MemFolder) -> Result<()> {
    let mut count = 0u32;
    let mut each = 0u64;
    let mut behind = 0u64;
    for number in 1..4_097 {
        match segment_of(rt.alloc(), folder, number)? {
            Some(Segment::Closed(steps)) => {
                ensure!(count == 0 || each == steps, "segments of several lengths");
                count = count.wrapping_add(1);
                each = steps;
            }
            Some(Segment::Last(steps)) => behind = steps,
            None => {}
        }
    }
    println!(rt; "{count} segments of {each} steps, and {behind} steps behind them")?;
    Ok(())
}

/// The segment of the first thread's part of a number, if there is such a part.
fn segment_of(alloc: Global, folder: &MemFolder, number: u32) -> Result<Option<Segment>> {
    let name = part_name(alloc, BASE, number, ThreadNo(1))?;
    match folder.file(name.as_str()) {
        Some(part) => Ok(Some(segment_in(part)?)),
        None => Ok(None),
    }
}

/// The segment of a part: its first sum is that of its steps.
fn segment_in(part: &[u8]) -> Result<Segment> {
    let text = text_of(part)?;
    let (head, sums) = text.split_once("\nsummary: ").context("no sums")?;
    let (steps, _) = first_word(sums)?;
    let steps = decimal(steps)?;
    Ok(match head.split_once("Program termination") {
        Some(_) => Segment::Last(steps),
        None => Segment::Closed(steps),
    })
}
