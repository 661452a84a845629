//! Notes events of many threads, each in a recursion.

ghost use Rattle.std.specs.Prelude.{◌<◌};

use crate::map::map_of;
use crate::recursion::{AGAIN, FUNCTION, LAST, RETURNED, call, event, pointer_at};
use arc_costs::TableRows;
use byte_text::OutOfMemory;
use event_costs::{Event, Flow, FuncSet};
use std::alloc::Global;
use sym_map::SymMap;
use unit_notes::Track;

/// What each call takes of the stack.
const BYTES: u32 = 16;

/// Where the functions are, and those that a run stops after: none.
#[derive(Clone, Copy)]
struct NoteInputs<'a> {
    syms: &'a SymMap,
    nothing: &'a FuncSet,
}

/// What is noted: so many events of so many threads in turn, each in a recursion of this depth.
#[derive(Clone, Copy)]
struct Plan {
    depth: u32,
    threads: u32,
    events: u32,
    is_noted: bool,
    /// The two steps that are repeated in a thread: the flow, the pc and the next one.
    steps: [(Flow, u32, u32); 2],
}

/// Notes an event, or only looks whether it can be noted. One that can't be is passed over.
fn take(
    track: &mut Track,
    event: &Event,
    known: NoteInputs<'_>,
    is_noted: bool,
) -> Result<(), OutOfMemory> {
    track.ready(event.thread.0)?;
    if is_noted {
        let _ = track.note_ready(event, known.syms, known.nothing);
    } else {
        let _ = track.can_note(event, known.syms);
    }
    Ok(())
}

/// A number of all rows.
fn sum_of(rows: &TableRows) -> u64 {
    let mut sum = 0u64;
    'lines: for row in &rows.lines {
        sum = sum.wrapping_add(row.cost.n[0]);
    }
    'arcs: for row in &rows.arcs {
        sum = sum.wrapping_add(row.calls).wrapping_add(row.cost.n[0]);
    }
    sum
}

fn steps_of(form: &str) -> Option<[(Flow, u32, u32); 2]> {
    match form {
        "calls" => Some([(Flow::Call, AGAIN, FUNCTION), (Flow::Jump, LAST, RETURNED)]),
        "plain" => Some([
            (Flow::Plain, AGAIN, RETURNED),
            (Flow::Plain, RETURNED, AGAIN),
        ]),
        _ => None,
    }
}

/// Begins a thread that goes into the recursion.
fn begin(
    track: &mut Track,
    thread: u32,
    known: NoteInputs<'_>,
    depth: u32,
) -> Result<(), OutOfMemory> {
    track.start(thread, FUNCTION, known.syms)?;
    for k in 0..depth {
        take(track, &call(thread, pointer_at(k, BYTES)), known, true)?;
    }
    Ok(())
}

/// The event of a turn.
fn event_of(plan: &Plan, turn: u32) -> Event
    requires { 0 < plan.now.threads }
{
    let (flow, pc, next) = plan.steps[(turn / plan.threads % 2) as usize];
    event(
        turn % plan.threads + 1,
        flow,
        pc,
        next,
        pointer_at(plan.depth, BYTES),
    )
}

/// Begins the threads, and notes their events.
fn note(track: &mut Track, plan: &Plan, known: NoteInputs<'_>) -> Result<(), OutOfMemory>
    requires { 0 < plan.now.threads }
{
    'threads: for thread in 1..=plan.threads {
        begin(track, thread, known, plan.depth)?;
    }
    'turns: for turn in 0..plan.events {
        take(track, &event_of(plan, turn), known, plan.is_noted)?;
    }
    Ok(())
}

/// A number of what so many threads cost.
fn costs_of(track: &mut Track, threads: u32) -> Result<u64, OutOfMemory> {
    let mut sum = 0u64;
    for thread in 1..=threads {
        if let Some(rows) = track.take_rows(thread)? {
            sum = sum.wrapping_add(sum_of(&rows));
        }
    }
    Ok(sum)
}

fn run_notes(alloc: Global, plan: &Plan, syms: &SymMap) -> Result<u64, OutOfMemory>
    requires { 0 < plan.now.threads }
{
    let nothing = FuncSet {
        items: Vec::new(alloc),
    };
    let known = NoteInputs {
        syms,
        nothing: &nothing,
    };
    let mut track = Track::new(alloc);
    note(&mut track, plan, known)?;
    costs_of(&mut track, plan.threads)
}

/// `@FILE FORM DEPTH THREADS EVENTS WHETHER`: over the map of the program of the file, so many events of so many threads in turn, each in a recursion of this depth:
/// `calls` (calls and their returns in turn) or `plain` (two lines in turn). WHETHER is 1 where they are noted, and 0
/// where it is only looked whether they can be.
pub fn notes(alloc: Global, file: &[u8], form: &str, numbers: &[u32]) -> Option<u64> {
    let &[depth, threads, events, whether] = numbers else {
        return None;
    };
    if threads == 0 {
        return None;
    }
    let plan = Plan {
        depth,
        threads,
        events,
        is_noted: whether == 1,
        steps: steps_of(form)?,
    };
    let syms = map_of(alloc, file)?;
    run_notes(alloc, &plan, &syms).ok()
}
