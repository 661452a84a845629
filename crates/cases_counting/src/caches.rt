//! Caches, predictors of branches, and what events cost.

use crate::words::{costly, part};
use anyhow::{Context, Result, ensure};
use cache_lru::{Cache, Caches, Geometry, Predictors, RunCosts};
use prof_base::Cost;
use script_lines::{first_word, number};

/// A geometry, if it is one: size, associativity and length of a line.
fn geometry(word: &str) -> Result<Option<Geometry>> {
    let (size, word) = part(word)?;
    let (assoc, line) = part(word)?;
    Ok(Geometry::new(
        size.parse::<u32>()?,
        assoc.parse::<u32>()?,
        line.parse::<u32>()?,
    ))
}

/// A geometry that is one.
fn shape(word: &str) -> Result<Geometry> {
    geometry(word)?.context("a geometry is refused")
}

/// The geometries of I1, D1 and LL, with commas in between.
fn shapes(word: &str) -> Result<[Geometry; 3]> {
    let (i1, word) = word.split_once(',').context("D1 is missing")?;
    let (d1, ll) = word.split_once(',').context("LL is missing")?;
    Ok([shape(i1)?, shape(d1)?, shape(ll)?])
}

/// Prints which geometries are accepted.
pub fn print_geometries(rt: &HostRuntime, line: &str) -> Result<()> {
    for word in line.split(' ') {
        match geometry(word)? {
            Some(shape) => print!(rt; " {}:{}:{}", shape.size(), shape.assoc(), shape.line())?,
            None => print!(rt; " refused")?,
        }
    }
    Ok(())
}

/// Refers to four bytes at each address, and prints which references miss.
pub fn print_references(rt: &HostRuntime, line: &str) -> Result<()> {
    let (word, addrs) = first_word(line)?;
    let mut cache = Cache::new(rt.alloc(), shape(word)?)?;
    refer(rt, &mut cache, addrs)
}

fn refer(rt: &HostRuntime, cache: &mut Cache, addrs: &str) -> Result<()> {
    for word in addrs.split(' ') {
        let addr = number(word)?;
        ensure!(addr < 0x1_0000, "a high address");
        let missed = cache.refer(addr, 4);
        print!(rt; " {}", if missed { "miss" } else { "hit" })?;
    }
    Ok(())
}

/// Prints what events cost in caches.
pub fn print_costs(rt: &HostRuntime, line: &str) -> Result<()> {
    let (word, events) = first_word(line)?;
    let [i1, d1, ll] = shapes(word)?;
    let mut caches = Caches::new(rt.alloc(), i1, d1, ll)?;
    count(rt, &mut caches, events)
}

fn count(rt: &HostRuntime, caches: &mut Caches, events: &str) -> Result<()> {
    for word in events.split(' ') {
        let event = costly(word)?;
        print_cost(rt, &caches.cost(&event))?;
    }
    Ok(())
}

/// Prints what events cost as branches together, kind by kind.
pub fn print_branches(rt: &HostRuntime, events: &str) -> Result<()> {
    let mut predictors = Predictors::new(rt.alloc())?;
    for number in &sums(&mut predictors, events)? {
        print!(rt; " {number}")?;
    }
    Ok(())
}

fn sums(predictors: &mut Predictors, events: &str) -> Result<[u64; 13]> {
    let mut sums = [0u64; 13];
    for word in events.split(' ') {
        let cost = predictors.cost(&costly(word)?);
        for (sum, number) in sums.iter_mut().zip(cost.n.iter()) {
            *sum = sum.saturating_add(*number);
        }
    }
    Ok(sums)
}

/// Prints what events cost in a run, which counts branches or doesn't. Those that change nothing are marked.
pub fn print_run_costs(rt: &HostRuntime, line: &str) -> Result<()> {
    let (counted, line) = first_word(line)?;
    let (word, events) = first_word(line)?;
    let [i1, d1, ll] = shapes(word)?;
    let mut costs = RunCosts::new(rt.alloc(), i1, d1, ll, counted == "branches")?;
    count_run(rt, &mut costs, events)
}

fn count_run(rt: &HostRuntime, costs: &mut RunCosts, events: &str) -> Result<()> {
    for word in events.split(' ') {
        let event = costly(word)?;
        if let Some(ones) = costs.plain_ones(&event) {
            print_cost(rt, &ones.cost())?;
            print!(rt; "=")?;
            continue;
        }
        print_cost(rt, &costs.cost(&event))?;
    }
    Ok(())
}

/// Prints a cost whose numbers are 0 or 1.
fn print_cost(rt: &HostRuntime, cost: &Cost) -> Result<()> {
    print!(rt; " ")?;
    for number in cost.n.iter() {
        print!(rt; "{number}")?;
    }
    Ok(())
}
