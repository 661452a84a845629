//! Threads whose chains lie in one arena.

ghost use Rattle.std.specs.Prelude.{◌≡◌, ◌<◌};
ghost use Rattle.shadow_stack.specs.Arenas.{LeavesOthers, LiesIn};
ghost use Rattle.cases_counting.specs.Lanes.{IsLane, no_frames};

use crate::dice::Dice;
use crate::log::Log;
use crate::sums::{sum_of_frame, sum_of_tellings};
use crate::walk::raise;
use anyhow::{Result, ensure};
use prof_base::{Cost, Event, OutOfMemory};
use script_lines::number;
use shadow_stack::{Arena, Head, Held};
use std::alloc::Global;
use std::marker::Model;
use sym_map::SymMap;

/// A thread's chain, and what was told of it.
#[derive(Drop)]
pub struct Lane {
    head: Head,
    log: Log,
}

impl Lane {
    /// A thread that hasn't begun.
    fn new(alloc: Global) -> Lane
        ensures { result.head ≡ no_frames }
    {
        Lane {
            head: Head { top: 0, depth: 0 },
            log: Log::new(alloc),
        }
    }
}

/// One event more of a thread. One that hasn't begun, or has ended, begins in the function where the event stands.
fn step(
    arena: &mut Arena,
    lane: &mut Lane,
    event: &Event,
    syms: &SymMap,
    total: &Cost,
) -> Result<(), OutOfMemory>
    requires { IsLane arena.old.slots total.now lane.old.head }
    ensures lane { IsLane arena.new.slots total.now lane.new.head }
    ensures others { LeavesOthers arena.old.slots lane.old.head arena.new.slots lane.new.head }
{
    arena.reserve()?;
    if lane.head.depth == 0 {
        lane.head = arena.root(syms.place(event.done.pc).func, total);
        return Ok(());
    }
    let mut held = arena.lend(&mut lane.head);
    held.after(event, syms, total, &mut lane.log);
    Ok(())
}

/// Tells of all open frames of a thread, which begin again.
fn restart(arena: &mut Arena, lane: &mut Lane, total: &Cost)
    requires { IsLane arena.old.slots total.now lane.old.head }
    ensures lane { IsLane arena.new.slots total.now lane.new.head }
    ensures others { LeavesOthers arena.old.slots lane.old.head arena.new.slots lane.new.head }
{
    let mut held = arena.lend(&mut lane.head);
    held.restart(total, &mut lane.log);
}

/// A sum with the frames of a thread.
fn sum_of(arena: &mut Arena, lane: &mut Lane, sum: u64) -> u64
    requires { LiesIn arena.old.slots lane.old.head }
    ensures arena { arena.new ≡ arena.old }
    ensures head { lane.new.head ≡ lane.old.head }
{
    let held = arena.lend(&mut lane.head);
    sum_of_held(&held, sum)
}

fn sum_of_held(held: &Held, sum: u64) -> u64 {
    let mut sum = sum;
    'frames: for i in 0..held.depth() {
        sum = sum_of_frame(sum, &held.frame(i));
    }
    sum
}

/// Three threads, whose events cost one instruction each.
#[derive(Drop)]
pub struct Lanes {
    arena: Arena,
    one: Lane,
    two: Lane,
    three: Lane,
    total: Cost,
}

impl Model for Lanes {
    ghost use Rattle.shadow_stack.specs.Arenas.{Nodes};
    ghost use Rattle.cases_counting.specs.Lanes.{AreLanes};

    ghost Value = { Nodes };

    ghost view = { λ l. l.arena };

    ghost invariant = { λ l. AreLanes l.arena.slots l.total l.one.head l.two.head l.three.head };
}

impl Lanes {
    /// Threads that haven't begun.
    pub fn new(alloc: Global) -> Lanes {
        Lanes {
            arena: Arena::new(alloc),
            one: Lane::new(alloc),
            two: Lane::new(alloc),
            three: Lane::new(alloc),
            total: Cost::ZERO,
        }
    }

    /// One event more, of the thread of this place.
    pub fn step(&mut self, place: u32, event: &Event, syms: &SymMap) -> Result<(), OutOfMemory> {
        self.total = raise(&self.total);
        match place {
            0 => step(&mut self.arena, &mut self.one, event, syms, &self.total),
            1 => step(&mut self.arena, &mut self.two, event, syms, &self.total),
            _ => step(&mut self.arena, &mut self.three, event, syms, &self.total),
        }
    }

    /// Tells of all open frames of the thread of this place.
    pub fn restart(&mut self, place: u32) {
        match place {
            0 => restart(&mut self.arena, &mut self.one, &self.total),
            1 => restart(&mut self.arena, &mut self.two, &self.total),
            _ => restart(&mut self.arena, &mut self.three, &self.total),
        }
    }

    /// A sum with the frames of the thread of this place.
    pub fn sum(&mut self, place: u32, sum: u64) -> u64 {
        match place {
            0 => sum_of(&mut self.arena, &mut self.one, sum),
            1 => sum_of(&mut self.arena, &mut self.two, sum),
            _ => sum_of(&mut self.arena, &mut self.three, sum),
        }
    }

    /// A sum with all that was told.
    pub fn tellings(&self, sum: u64) -> u64 {
        let sum = sum_of_tellings(sum, &self.one.log.tellings);
        let sum = sum_of_tellings(sum, &self.two.log.tellings);
        sum_of_tellings(sum, &self.three.log.tellings)
    }
}

/// Plays events at random on so many threads, and prints a sum of all frames after each event, now and then, and of all
/// that was told.
pub fn print_lanes(rt: &HostRuntime, syms: &SymMap, line: &str) -> Result<()> {
    let places = number(line)?;
    ensure!(places > 0, "no threads");
    let mut lanes = Lanes::new(rt.alloc());
    interleave(rt, syms, &mut lanes, places)
}

fn sum_of_all(lanes: &mut Lanes, sum: u64) -> u64 {
    let mut sum = sum;
    for place in 0..3u32 {
        sum = lanes.sum(place, sum);
    }
    sum
}

fn interleave(rt: &HostRuntime, syms: &SymMap, lanes: &mut Lanes, places: u32) -> Result<()>
    requires { 0 < places }
{
    let mut dice = Dice::new(places);
    let mut sum = 0u64;
    for turn in 1..20_000u32 {
        let place = dice.throw() % places;
        lanes.step(place, &dice.event(), syms)?;
        sum = sum_of_all(lanes, sum);
        if turn % 1000 == 0 {
            print!(rt; " {sum:x}")?;
        }
        if turn % 50 == 0 {
            lanes.restart(0);
        }
    }
    print!(rt; " {:x}", lanes.tellings(sum))?;
    Ok(())
}
