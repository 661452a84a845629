//! A recorder with the number of its events, each of which costs one instruction.

ghost use Rattle.std.specs.Prelude.{◌≡◌, ◌<◌, ◌≤◌, Some, true, length};
ghost use Rattle.shadow_stack.specs.Frames.{stack};
ghost use Rattle.shadow_stack.specs.Stacks.{most_frames, top_of};
ghost use Rattle.sym_map.specs.SymbolMap.{place_of};
ghost use Rattle.recorder.specs.Accounts.{account, IsReady, knows, live};
ghost use Rattle.recorder.specs.Bounds.{IsUnit};

use arc_costs::TableRows;
use byte_text::OutOfMemory;
use event_costs::{Cost, Event, FuncId, FuncSet, Noted, ThreadNo};
use recorder::{MOST_FRAMES, Recorder};
use std::alloc::Global;
use std::marker::Model;
use sym_map::SymMap;

/// A recorder whose events are few enough that no sum is too large.
#[derive(Drop)]
pub struct Track {
    recorder: Recorder,
    steps: u64,
}

impl Model for Track {
    ghost use Rattle.recorder.specs.Accounts.{Recording};
    ghost use Rattle.recorder.specs.Bounds.{AllWithin};

    ghost Value = { Recording };

    ghost view = { λ t. t.recorder };

    ghost invariant = { λ t. AllWithin t.steps t.recorder };
}

/// The cost of an event: one instruction.
fn unit() -> Cost
    ensures { IsUnit result }
{
    let mut cost = Cost::ZERO;
    cost.n[0] = 1;
    cost
}

/// Whether the thread stands in this function.
fn is_in(recorder: &mut Recorder, thread: ThreadNo, func: FuncId) -> bool
    ensures same { recorder.new ≡ recorder.old }
    ensures top { result ≡ true → top_of (stack (account recorder.old thread).frames) ≡ Some func }
{
    match recorder.lend(thread) {
        Some(lent) => lent.top() == Some(func),
        None => false,
    }
}

/// Whether an event can be noted after so many: its thread stands in the function of its pc and has room, and there are
/// neither too many events nor too many frames.
fn is_notable(recorder: &mut Recorder, steps: u64, event: &Event, syms: &SymMap) -> bool
    ensures same { recorder.new ≡ recorder.old }
    ensures few { result ≡ true → steps < 1000000000 }
    ensures live { result ≡ true → live recorder.old < most_frames }
    ensures shallow { result ≡ true → length (account recorder.old event.now.thread).frames ≤ most_frames }
    ensures ready { result ≡ true
        → (knows recorder.old event.now.thread ≡ true) × IsReady recorder.old event.now.thread }
    ensures top { result ≡ true → top_of (stack (account recorder.old event.now.thread).frames)
        ≡ Some (place_of syms.now event.now.done.pc).func }
{
    if steps >= 1_000_000_000 {
        return false;
    }
    if recorder.live_frames() >= MOST_FRAMES {
        return false;
    }
    if !recorder.is_ready(event.thread) {
        return false;
    }
    is_in(recorder, event.thread, syms.place(event.done.pc).func)
}

impl Track {
    pub fn new(alloc: Global) -> Track {
        Track {
            recorder: Recorder::new(alloc),
            steps: 0,
        }
    }

    /// Begins a thread; one that is known stays as it is.
    pub fn start(&mut self, thread: u32, pc: u32, syms: &SymMap) -> Result<(), OutOfMemory> {
        let thread = ThreadNo(thread);
        if self.recorder.knows(thread) {
            return Ok(());
        }
        self.recorder.start(thread, pc, syms)
    }

    /// Makes room for a note of a thread, if it is known.
    pub fn ready(&mut self, thread: u32) -> Result<(), OutOfMemory> {
        let thread = ThreadNo(thread);
        if !self.recorder.knows(thread) {
            return Ok(());
        }
        self.recorder.ready(thread)
    }

    /// Whether an event can be noted with the room that there is.
    pub fn can_note(&mut self, event: &Event, syms: &SymMap) -> bool {
        is_notable(&mut self.recorder, self.steps, event, syms)
    }

    /// Notes an event with the room that there is. Nothing where its thread isn't known, has no room or isn't in the
    /// function of its pc, or there are too many events.
    pub fn note_ready(&mut self, event: &Event, syms: &SymMap, after: &FuncSet) -> Option<Noted> {
        if !is_notable(&mut self.recorder, self.steps, event, syms) {
            return None;
        }
        let noted = self.recorder.note(event, &unit(), syms, after);
        self.steps += 1;
        Some(noted)
    }

    /// Makes room and notes an event. Nothing where its thread isn't known or isn't in the function of its pc, or there
    /// are too many events.
    pub fn note(
        &mut self,
        event: &Event,
        syms: &SymMap,
        after: &FuncSet,
    ) -> Result<Option<Noted>, OutOfMemory> {
        self.ready(event.thread.0)?;
        Ok(self.note_ready(event, syms, after))
    }

    /// The rows of a thread; nothing where it isn't known.
    pub fn take_rows(&mut self, thread: u32) -> Result<Option<TableRows>, OutOfMemory> {
        let thread = ThreadNo(thread);
        if !self.recorder.knows(thread) {
            return Ok(None);
        }
        Ok(Some(self.recorder.take_rows(thread)?))
    }

    pub fn had_event(&self, thread: u32) -> bool {
        self.recorder.had_event(ThreadNo(thread))
    }

    pub fn live_frames(&self) -> u32 {
        self.recorder.live_frames()
    }

    pub fn knows(&self, thread: u32) -> bool {
        self.recorder.knows(ThreadNo(thread))
    }

    /// The functions of a thread's frames, the root first; nothing where it isn't known.
    pub fn functions(
        &mut self,
        alloc: Global,
        thread: u32,
    ) -> Result<Option<Vec<u32>>, OutOfMemory> {
        let Some(lent) = self.recorder.lend(ThreadNo(thread)) else {
            return Ok(None);
        };
        let mut functions = Vec::new(alloc);
        'frames: for i in 0..lent.depth() {
            functions.push(lent.frame(i).func.0)?;
        }
        Ok(Some(functions))
    }
}
