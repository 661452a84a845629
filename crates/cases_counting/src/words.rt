//! The words of a line, whose parts are set off by colons.

ghost use Rattle.std.specs.Prelude.{◌≡◌, ◌≤◌, ◌+◌, ◌^◌, IfOk};
ghost use Rattle.cache_lru.specs.Costs.{CanRefer};

use anyhow::{Context, Result, bail};
use prof_base::{Branch, Done, Event, Flow, ThreadNo, Touch};
use script_lines::number;

/// What stands before the first colon, and behind it.
pub fn part(word: &str) -> Result<(&str, &str)> {
    word.split_once(':').context("a part is missing")
}

/// The numbers of three parts; 0 for what is none, and where there are no more.
fn numbers(word: &str) -> [u32; 3] {
    let mut numbers = [0; 3];
    for (place, part) in numbers.iter_mut().zip(word.split(':')) {
        *place = u32::from_str_radix(part, 16).unwrap_or(0);
    }
    numbers
}

/// An event that refers to nothing: its thread, how it hands control on, its pc, the next one and the stack pointer.
pub fn event(word: &str) -> Result<Event> {
    let (thread, word) = part(word)?;
    let (flow, word) = part(word)?;
    let [pc, next, sp] = numbers(word);
    let (flow, ends) = flow_of(flow)?;
    let done = Done {
        pc,
        next,
        sp,
        flow,
        touch: Touch::Nothing,
        branch: Branch::Nothing,
    };
    Ok(Event {
        thread: ThreadNo(number(thread)?),
        done,
        ends,
    })
}

/// How control is handed on, and whether the thread ends.
fn flow_of(word: &str) -> Result<(Flow, bool)> {
    Ok(match word {
        "call" => (Flow::Call, false),
        "jump" => (Flow::Jump, false),
        "swap" => (Flow::Swap, false),
        "plain" => (Flow::Plain, false),
        "last" => (Flow::Plain, true),
        _ => bail!("no such event"),
    })
}

/// An event that has a cost: its pc, the next one, its branch, and what it refers to.
pub fn costly(word: &str) -> Result<Event>
    ensures pc { IfOk result (λ event. event.done.pc + 4 ≤ 2 ^ 32) }
    ensures touch { IfOk result (λ event. CanRefer event.done.touch) }
{
    let (pc, word) = part(word)?;
    let (next, word) = part(word)?;
    let (branch, touch) = part(word)?;
    let (next, branch) = (number(next)?, branch_of(branch)?);
    let touch = touch_of(touch)?;
    let pc = number(pc)?;
    if pc > 0x8000_0000 {
        bail!("a high address");
    }
    Ok(costly_event(pc, next, branch, touch))
}

fn costly_event(pc: u32, next: u32, branch: Branch, touch: Touch) -> Event
    ensures pc { result.done.pc ≡ pc }
    ensures touch { result.done.touch ≡ touch }
{
    Event {
        thread: ThreadNo(1),
        done: Done {
            pc,
            next,
            sp: 0,
            flow: Flow::Plain,
            touch,
            branch,
        },
        ends: false,
    }
}

fn branch_of(word: &str) -> Result<Branch> {
    Ok(match word {
        "taken" => Branch::Cond(true),
        "passed" => Branch::Cond(false),
        "jump" => Branch::Indirect,
        "other" => Branch::Nothing,
        _ => bail!("no such branch"),
    })
}

/// What is read or written, an address and a number of bytes, if anything is.
fn touch_of(word: &str) -> Result<Touch>
    ensures { IfOk result (λ touch. CanRefer touch) }
{
    if word == "none" {
        return Ok(Touch::Nothing);
    }
    let (kind, range) = part(word)?;
    let [addr, len, _] = numbers(range);
    if addr > 0x8000_0000 {
        bail!("a high address");
    }
    if len == 0 {
        bail!("no bytes");
    }
    if len > 4 {
        bail!("too many bytes");
    }
    Ok(reference(kind == "write", addr, len as u8))
}

fn reference(writes: bool, addr: u32, len: u8) -> Touch
    requires some { 1 ≤ len }
    requires few { len ≤ 4 }
    requires within { addr + len ≤ 2 ^ 32 }
    ensures { CanRefer result }
{
    if writes {
        return Touch::Write(addr, len);
    }
    Touch::Read(addr, len)
}
