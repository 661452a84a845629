//! Groups of functions in graphs that are small or large.

ghost use Rattle.std.specs.Prelude.{◌≡◌, ◌<◌, All, IfOk, length};
ghost use Rattle.call_graph.specs.Groups.{IsWithin};

use anyhow::{Result, bail};
use call_graph::{CallArc, Groups, groups_of};
use cg_read::{CostList, Profile, read_file};
use cycles::{groups, inclusive};
use script_lines::{Scene, first_word, small_decimal};
use std::alloc::{AllocError, Global};

/// Calls among so many functions, each by the digits of its caller and of its callee.
fn arcs_of(alloc: Global, functions: usize, words: &str) -> Result<Vec<CallArc>>
    ensures { IfOk result (λ arcs. All (IsWithin functions) arcs.items) }
{
    let mut arcs = Vec::new(alloc);
    'words: for word in words.split_whitespace() {
        let digits = small_decimal(word)? as usize;
        let (caller, callee) = (digits / 10, digits % 10);
        if caller < functions && callee < functions {
            arcs.push(CallArc { caller, callee })?;
        }
    }
    Ok(arcs)
}

/// The first function of a function's group.
fn first_of(groups: &Groups, func: usize) -> usize
    requires { func < length groups.now.number }
{
    for other in 0..func {
        if groups.group_of(other) == groups.group_of(func) {
            return other;
        }
    }
    func
}

/// Adds the first function of each one's group, with a star where the group is a cycle.
fn push_firsts(text: &mut String, groups: &Groups, functions: usize) -> Result<()>
    requires { length groups.now.number ≡ functions }
{
    for func in 0..functions {
        let group = groups.group_of(func);
        let is_cycle = group < groups.count() && groups.is_cycle(group);
        let star = if is_cycle { "*" } else { "" };
        write!(text, "{}{star}", first_of(groups, func))?;
    }
    Ok(())
}

/// Prints the groups of graphs: how many functions each has, and its calls.
fn print_graphs(rt: &HostRuntime, graphs: &str) -> Result<()> {
    let mut text = String::from_str(rt.alloc(), "groups")?;
    for graph in graphs.split(';') {
        let (functions, words) = graph.split_once(' ').unwrap_or((graph, ""));
        let functions = small_decimal(functions)? as usize;
        let arcs = arcs_of(rt.alloc(), functions, words)?;
        text.push(' ')?;
        let groups = groups_of(rt.alloc(), functions, &arcs)?;
        push_firsts(&mut text, &groups, functions)?;
    }
    println!(rt; "{text}")?;
    Ok(())
}

/// A profile of so many functions, of which each calls the next one, and the last one this one.
fn calls(alloc: Global, functions: usize, last: usize) -> Result<Profile> {
    let mut text = String::from_str(alloc, "events: Ir\n")?;
    for number in 1..functions {
        let under = functions.saturating_sub(number);
        let before = number.saturating_sub(1);
        write!(
            text,
            "fn=n{before}\n1 1\ncfn=n{number}\ncalls=1 1\n1 {under}\n"
        )?;
    }
    write!(
        text,
        "fn=n{}\n1 1\ncfn=n{last}\ncalls=1 1\n1 0\n",
        functions.saturating_sub(1)
    )?;
    Ok(read_file(alloc, text.as_bytes())?)
}

/// The first numbers of costs, by size.
fn sorted(alloc: Global, costs: &[CostList]) -> Result<Vec<u64>, AllocError> {
    let mut numbers = Vec::new(alloc);
    for cost in costs {
        numbers.extend_from_slice(&cost.items)?;
    }
    numbers.sort()?;
    Ok(numbers)
}

/// Prints numbers that rise by one as the first and the last of them.
fn print_runs(rt: &HostRuntime, numbers: &[u64]) -> Result<()> {
    let mut last = None;
    for number in numbers {
        if last != number.checked_sub(1) {
            print!(rt; " {number}")?;
        }
        last = Some(*number);
    }
    println!(rt; " to {}", last.unwrap_or(0))?;
    Ok(())
}

/// Prints how many groups the functions make, how many of them are cycles, and the inclusive costs.
fn print_groups(rt: &HostRuntime, profile: &Profile) -> Result<()> {
    let groups = groups(rt.alloc(), profile)?;
    let mut cycles: usize = 0;
    for group in 0..groups.count() {
        if groups.is_cycle(group) {
            cycles = cycles.saturating_add(1);
        }
    }
    let costs = inclusive(rt.alloc(), profile, &groups)?;
    print!(rt; "{} groups, {cycles} cycles, costs", groups.count())?;
    print_runs(rt, &sorted(rt.alloc(), &costs)?)
}

fn print_large(rt: &HostRuntime, functions: &str, is_chain: bool) -> Result<()> {
    let functions = small_decimal(functions)? as usize;
    let last = if is_chain {
        functions.saturating_sub(1)
    } else {
        0
    };
    print_groups(rt, &calls(rt.alloc(), functions, last)?)
}

#[derive(Clone, Copy)]
pub struct Stage;

impl Scene for Stage {
    /// Follows a line: `small` graphs; or a `ring` or a `chain` of so many functions, of which each calls the next one,
    /// and the last one the first one or itself.
    fn follow(&mut self, rt: &HostRuntime, line: &str) -> Result<()> {
        let (word, rest) = first_word(line)?;
        match word {
            "small" => print_graphs(rt, rest),
            "ring" => print_large(rt, rest, false),
            "chain" => print_large(rt, rest, true),
            _ => bail!("no such graph"),
        }
    }
}
