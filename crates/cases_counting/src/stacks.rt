//! The call stack of one thread.

use crate::dice::Dice;
use crate::functions::{MAIN, name, print_stack};
use crate::log::Telling;
use crate::sums::{sum_of_frame, sum_of_tellings};
use crate::walk::Walk;
use crate::words::event;
use anyhow::{Result, ensure};
use prof_base::{ArcKey, Cost, FuncId, OutOfMemory};
use script_lines::{first_word, number};
use shadow_stack::{Arena, ShadowStack};
use std::alloc::Global;
use sym_map::SymMap;

/// Plays events of a thread that begins in `main`, prints the stack after each, and what was told of frames.
pub fn print_stacks(rt: &HostRuntime, syms: &SymMap, words: &str) -> Result<()> {
    let mut walk = Walk::new(rt.alloc(), MAIN)?;
    play(rt, syms, &mut walk, words)?;
    print_tellings(rt, &walk.log().tellings)
}

/// Plays events; at `restart` frames are told, and begin again.
fn play(rt: &HostRuntime, syms: &SymMap, walk: &mut Walk, words: &str) -> Result<()> {
    for word in words.split(' ') {
        if word == "restart" {
            walk.restart();
        } else {
            walk.step(&event(word)?, syms)?;
            print_frames(rt, walk.stack())?;
        }
    }
    Ok(())
}

fn print_frames(rt: &HostRuntime, stack: &ShadowStack) -> Result<()> {
    let mut functions = Vec::new(rt.alloc());
    'frames: for i in 0..stack.depth() {
        functions.push(stack.frame(i).func.0)?;
    }
    let top = stack.top().map(|func| func.0);
    ensure!(top == functions.last().copied(), "another top");
    print_stack(rt, &functions)
}

fn print_tellings(rt: &HostRuntime, told: &[Telling]) -> Result<()> {
    for told in told {
        match told {
            Telling::Pushed(arc) => {
                print!(rt; " +")?;
                print_arc(rt, arc)?;
            }
            Telling::Closed(arc, cost) => {
                print!(rt; " -{cost}:")?;
                print_arc(rt, arc)?;
            }
        }
    }
    Ok(())
}

/// Prints an arc, and between its functions the file and the line of the call.
fn print_arc(rt: &HostRuntime, arc: &ArcKey) -> Result<()> {
    let (caller, callee) = (name(arc.caller.0), name(arc.callee.0));
    print!(rt; "{caller}:{}:{}:{callee}", arc.file.0, arc.line)?;
    Ok(())
}

/// Plays events at random up to the ends of so many threads, and prints for each of them a sum of the frames after each
/// event and of all that was told.
pub fn print_walks(rt: &HostRuntime, syms: &SymMap, line: &str) -> Result<()> {
    let (seed, count) = first_word(line)?;
    let mut dice = Dice::new(number(seed)?);
    for _ in 0..number(count)? {
        let sum = sum_of_walk(rt.alloc(), syms, &mut dice)?;
        print!(rt; " {sum:x}")?;
    }
    Ok(())
}

fn sum_of_walk(alloc: Global, syms: &SymMap, dice: &mut Dice) -> Result<u64, OutOfMemory> {
    let mut walk = Walk::new(alloc, MAIN)?;
    roam(syms, dice, &mut walk)
}

fn roam(syms: &SymMap, dice: &mut Dice, walk: &mut Walk) -> Result<u64, OutOfMemory> {
    let mut sum = 0u64;
    for turn in 1..1000u32 {
        if walk.stack().depth() == 0 {
            break;
        }
        walk.step(&dice.event(), syms)?;
        sum = sum_of_frames(sum, walk.stack());
        if turn % 50 == 0 {
            walk.restart();
        }
    }
    Ok(sum_of_tellings(sum, &walk.log().tellings))
}

fn sum_of_frames(sum: u64, stack: &ShadowStack) -> u64 {
    let mut sum = sum;
    'frames: for i in 0..stack.depth() {
        sum = sum_of_frame(sum, &stack.frame(i));
    }
    sum
}

/// Prints the depth of a root alone in an arena.
pub fn print_root(rt: &HostRuntime) -> Result<()> {
    let mut arena = Arena::new(rt.alloc());
    arena.reserve()?;
    let head = arena.root(FuncId(MAIN), &Cost::ZERO);
    print!(rt; " {}", head.depth)?;
    Ok(())
}
