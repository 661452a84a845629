//! Follows a script on the standard input, each line of which is a case of caches, of call stacks or of accounts, and is
//! answered by one line. What has to be printed is that of plain models (`data/counting.py`), which know nothing but the
//! rules, and of worked cases.
//!
//! Functions are those of `functions`. Numbers are in hexadecimal digits, but for the sizes of caches.
#![tactic(auto)]

mod accounts;
mod caches;
mod dice;
mod functions;
mod lanes;
mod log;
mod stacks;
mod sums;
mod walk;
mod words;

use anyhow::{Result, bail};
use script_lines::{Scene, play_input};
use sym_map::SymMap;

/// The functions of all cases.
#[derive(Drop)]
struct Cases {
    syms: SymMap,
}

impl Scene for Cases {
    /// Prints the first word of a line and what the case answers.
    fn follow(&mut self, rt: &HostRuntime, line: &str) -> Result<()> {
        let (word, rest) = line.split_once(' ').unwrap_or((line, ""));
        print!(rt; "{word}")?;
        answer(rt, &self.syms, word, rest)?;
        println!(rt)?;
        Ok(())
    }
}

fn answer(rt: &HostRuntime, syms: &SymMap, word: &str, rest: &str) -> Result<()> {
    match word {
        "geometry" => caches::print_geometries(rt, rest),
        "cache" => caches::print_references(rt, rest),
        "caches" => caches::print_costs(rt, rest),
        "branches" => caches::print_branches(rt, rest),
        "costs" => caches::print_run_costs(rt, rest),
        "stack" => stacks::print_stacks(rt, syms, rest),
        "walks" => stacks::print_walks(rt, syms, rest),
        "lanes" => lanes::print_lanes(rt, syms, rest),
        "root" => stacks::print_root(rt),
        "recorder" => accounts::print_accounts(rt, syms, rest),
        "scarce" => accounts::print_scarce(rt, syms, rest),
        _ => bail!("no such case"),
    }
}

fn main(rt: HostRuntime) -> Result<()> {
    let syms = functions::map(&rt)?;
    play_input(&rt, &mut Cases { syms })
}
