//! When a cut of a run is due, and how many of them count.

ghost use Rattle.std.specs.Prelude.{◌<◌, IfSome};

use crate::segments::print_cuts;
use crate::words::name_of;
use anyhow::{Result, bail};
use cg_format::Trigger;
use part_dump::DumpRule;
use prof_base::Noted;
use program_map::Chosen;
use script_lines::{Scene, any_number, first_word, number, text_of};
use sym_map::SymMap;

#[derive(Drop)]
struct Stage {
    chosen: Chosen,
}

/// Plays the scene.
pub fn scene(rt: &HostRuntime, lines: &str) -> Result<()> {
    let mut stage = Stage {
        chosen: Chosen::none(),
    };
    script_lines::play(rt, &mut stage, lines)
}

impl Scene for Stage {
    /// Follows a line. `program` takes another program. The others have the steps between cuts, and the names of functions
    /// before and after which a cut stands, a dash for none. Behind `due` stand the steps so far, the address of the
    /// function that was entered, and whether one was left that is watched: it prints why a cut is due. Behind `named`
    /// stands nothing more: it prints how many functions are watched. `cuts` has no name of a function after which a cut
    /// stands but the steps of a run: it runs the program, and prints the segments.
    fn follow(&mut self, rt: &HostRuntime, line: &str) -> Result<()> {
        let (word, rest) = first_word(line)?;
        match word {
            "program" => self.chosen.take(rt, rest),
            "cuts" => print_cuts(rt, self.chosen.program()?, rest),
            _ => ask(rt, &self.chosen.program()?.map, word, rest),
        }
    }
}

/// Tells what is asked of a rule of cuts.
fn ask(rt: &HostRuntime, map: &SymMap, word: &str, rest: &str) -> Result<()> {
    let (every, rest) = first_word(rest)?;
    let (before, rest) = first_word(rest)?;
    let (after, rest) = rest.split_once(' ').unwrap_or((rest, ""));
    let (before, after) = (name_of(before), name_of(after));
    let rule = DumpRule::new(rt.alloc(), every_of(every), before, after, map)?;
    answer(rt, map, &rule, word, rest)
}

fn answer(rt: &HostRuntime, map: &SymMap, rule: &DumpRule, word: &str, rest: &str) -> Result<()> {
    match word {
        "due" => print_due(rt, map, rule, rest),
        "named" => print_named(rt, rule),
        _ => bail!("no such line"),
    }
}

/// A number of steps; a dash stands for none.
fn every_of(word: &str) -> Option<u64>
    ensures { IfSome result (λ n. 0 < n) }
{
    let every = any_number(word);
    if every > 0 { Some(every) } else { None }
}

fn print_named(rt: &HostRuntime, rule: &DumpRule) -> Result<()> {
    println!(rt; "{} functions", rule.after_set().items.len())?;
    Ok(())
}

fn print_due(rt: &HostRuntime, map: &SymMap, rule: &DumpRule, rest: &str) -> Result<()> {
    let (steps, rest) = first_word(rest)?;
    let (pushed, left) = first_word(rest)?;
    let steps = any_number(steps);
    let noted = noted(map, pushed, left)?;
    if !rule.due(steps, &noted) {
        println!(rt; "no cut")?;
        return Ok(());
    }
    print_trigger(rt, &rule.trigger(steps, &noted)?)
}

fn noted(syms: &SymMap, pushed: &str, left: &str) -> Result<Noted> {
    let pushed = match name_of(pushed) {
        Some(pc) => Some(syms.place(number(pc)?).func),
        None => None,
    };
    Ok(Noted {
        pushed,
        left: left == "left",
    })
}

fn print_trigger(rt: &HostRuntime, trigger: &Trigger) -> Result<()> {
    let (word, name) = match trigger {
        Trigger::Every(steps) => {
            println!(rt; "every {steps}")?;
            return Ok(());
        }
        Trigger::Before(name) => ("before", name),
        Trigger::After(name) => ("after", name),
        Trigger::Termination => bail!("the end"),
    };
    let name = text_of(name.as_bytes())?;
    println!(rt; "{word} {name}")?;
    Ok(())
}
