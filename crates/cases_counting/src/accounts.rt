//! The accounts of threads whose events cost one instruction each.

use crate::functions::{name, print_stack};
use crate::words::{event, part};
use anyhow::{Context, Result, bail, ensure};
use arc_costs::TableRows;
use cases_kit::Hoard;
use prof_base::{Event, FuncId, FuncSet, Noted, OutOfMemory};
use script_lines::{first_word, number};
use std::alloc::Global;
use sym_map::SymMap;
use unit_notes::Track;

/// The accounts, and the functions that are watched.
#[derive(Drop)]
struct Stage {
    track: Track,
    watched: FuncSet,
}

impl Stage {
    fn new(alloc: Global) -> Stage {
        Stage {
            track: Track::new(alloc),
            watched: FuncSet {
                items: Vec::new(alloc),
            },
        }
    }
}

/// Follows the words of a line: `start`, where a thread begins at a pc; `watch`, a function by its number; an event, of
/// which is printed whose frame was pushed, and `!` where a function that is watched was left; `rows`, which takes the
/// rows of a thread; `stack`, the functions of its frames; `known`, whether there is such a thread, and `live`, how many
/// frames there are besides the roots.
pub fn print_accounts(rt: &HostRuntime, syms: &SymMap, words: &str) -> Result<()> {
    let mut stage = Stage::new(rt.alloc());
    for word in words.split(' ') {
        follow(rt, syms, &mut stage, word)?;
    }
    Ok(())
}

fn follow(rt: &HostRuntime, syms: &SymMap, stage: &mut Stage, word: &str) -> Result<()> {
    let (kind, rest) = part(word)?;
    match kind {
        "start" => start(syms, &mut stage.track, rest),
        "live" => Ok(print!(rt; " {}", stage.track.live_frames())?),
        "watch" | "rows" | "stack" | "known" => ask(rt, stage, kind, number(rest)?),
        _ => print_noted(rt, stage.track.note(&event(word)?, syms, &stage.watched)?),
    }
}

/// Watches a function, or tells what is asked of a thread.
fn ask(rt: &HostRuntime, stage: &mut Stage, kind: &str, number: u32) -> Result<()> {
    match kind {
        "watch" => watch(rt.alloc(), stage, number),
        "rows" => print_rows(rt, &mut stage.track, number),
        "stack" => print_functions(rt, &mut stage.track, number),
        _ => Ok(print!(rt; " {}", stage.track.knows(number))?),
    }
}

/// One function is watched.
fn watch(alloc: Global, stage: &mut Stage, func: u32) -> Result<()> {
    stage.watched = set_of(alloc, func)?;
    Ok(())
}

/// The set of a function alone.
fn set_of(alloc: Global, func: u32) -> Result<FuncSet, OutOfMemory> {
    let mut items = Vec::new(alloc);
    items.push(FuncId(func))?;
    Ok(FuncSet { items })
}

fn start(syms: &SymMap, track: &mut Track, word: &str) -> Result<()> {
    let (thread, pc) = part(word)?;
    Ok(track.start(number(thread)?, number(pc)?, syms)?)
}

fn print_noted(rt: &HostRuntime, noted: Option<Noted>) -> Result<()> {
    let noted = noted.context("an event that can't be noted")?;
    match noted.pushed {
        Some(func) => print!(rt; " +{}", name(func.0))?,
        None => print!(rt; " .")?,
    }
    if noted.left {
        print!(rt; "!")?;
    }
    Ok(())
}

/// Prints whether a thread had an event, and its rows: instructions by function, and for each arc its calls and the
/// instructions of its frames.
fn print_rows(rt: &HostRuntime, track: &mut Track, thread: u32) -> Result<()> {
    print!(rt; " had:{}", track.had_event(thread))?;
    print_table(rt, &track.take_rows(thread)?.context("no such thread")?)?;
    ensure!(!track.had_event(thread), "an event after a cut");
    Ok(())
}

fn print_table(rt: &HostRuntime, rows: &TableRows) -> Result<()> {
    for row in &rows.lines {
        print!(rt; " {}={}", name(row.place.func.0), row.cost.n[0])?;
    }
    for row in &rows.arcs {
        let (caller, callee) = (name(row.arc.caller.0), name(row.arc.callee.0));
        print!(rt; " {caller}>{callee}={}:{}", row.calls, row.cost.n[0])?;
    }
    Ok(())
}

fn print_functions(rt: &HostRuntime, track: &mut Track, thread: u32) -> Result<()> {
    match track.functions(rt.alloc(), thread)? {
        Some(functions) => print_stack(rt, &functions),
        None => bail!("no such thread"),
    }
}

/// Notes two events, which are known from then on, so often while there is no memory, and prints the rows.
pub fn print_scarce(rt: &HostRuntime, syms: &SymMap, line: &str) -> Result<()> {
    let (times, words) = first_word(line)?;
    let (one, two) = first_word(words)?;
    let events = [event(one)?, event(two)?];
    let times = number(times)?;
    let mut stage = Stage::new(rt.alloc());
    note_often(rt.alloc(), syms, &mut stage, &events, times)?;
    print_rows(rt, &mut stage.track, events[0].thread.0)
}

fn note_often(
    alloc: Global,
    syms: &SymMap,
    stage: &mut Stage,
    events: &[Event; 2],
    times: u32,
) -> Result<()> {
    let thread = events[0].thread.0;
    stage.track.start(thread, events[0].done.pc, syms)?;
    for event in events {
        stage.track.note(event, syms, &stage.watched)?;
    }
    stage.track.ready(thread)?;
    let noted = note_without_memory(alloc, syms, stage, events, times)?;
    ensure!(noted, "an event that can't be noted");
    Ok(())
}

fn note_without_memory(
    alloc: Global,
    syms: &SymMap,
    stage: &mut Stage,
    events: &[Event; 2],
    times: u32,
) -> Result<bool, OutOfMemory> {
    let all_memory = Hoard::new(alloc)?;
    let noted = are_noted(syms, stage, events, times);
    drop(all_memory);
    Ok(noted)
}

/// Whether events are noted so often with the room that there is.
fn are_noted(syms: &SymMap, stage: &mut Stage, events: &[Event; 2], times: u32) -> bool {
    for _ in 0..times {
        for event in events {
            if stage
                .track
                .note_ready(event, syms, &stage.watched)
                .is_none()
            {
                return false;
            }
        }
    }
    true
}
