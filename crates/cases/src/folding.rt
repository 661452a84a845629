//! Rows by calling context, and by instruction address, that are folded back to plain rows.

ghost use Rattle.std.specs.Prelude.{IfOk};
ghost use Rattle.cases.specs.Small.{AreSmall, AreSmallAt, IsSmall, IsSmallArc, IsSmallAt, IsSmallFrom};
ghost use Rattle.cases.specs.Small.{IsSmallLine};

use addr_rows::{AddrArc, AddrLine, AddrRows};
use anyhow::{Result, bail, ensure};
use arc_costs::{ArcRow, LineRow, TableRows};
use ctx_rows::{CtxArc, CtxLine, CtxRows, FuncList};
use prof_base::{ArcKey, Cost, FileId, FuncId, OutOfMemory, Place, ThreadNo};
use script_lines::{Numbers, Scene, first_word, small_numbers};
use std::alloc::Global;

/// There are fewer rows than this, and no number has more than 32 bits: so no sum passes 64 bits.
const MANY: usize = 1 << 31;

#[derive(Drop)]
struct Stage;

/// Plays the scene.
pub fn scene(rt: &HostRuntime, lines: &str) -> Result<()> {
    script_lines::play(rt, &mut Stage, lines)
}

impl Scene for Stage {
    /// Follows a line: rows of one sort, which are folded, so that their sums are printed. `lines` and `arcs` have
    /// contexts, whose functions stand between bars, `lines-at` and `arcs-at` addresses.
    fn follow(&mut self, rt: &HostRuntime, line: &str) -> Result<()> {
        let (word, rest) = first_word(line)?;
        print_rows(rt, &sums(rt.alloc(), word, rest)?)
    }
}

fn sums(alloc: Global, word: &str, rest: &str) -> Result<TableRows> {
    match word {
        "lines" => lines(alloc, rest),
        "arcs" => arcs(alloc, rest),
        "lines-at" => lines_at(alloc, rest),
        "arcs-at" => arcs_at(alloc, rest),
        _ => bail!("no such line"),
    }
}

fn lines(alloc: Global, rest: &str) -> Result<TableRows> {
    let mut lines = Vec::new(alloc);
    'rows: for row in rest.split(", ") {
        lines.push(line_in(alloc, row)?)?;
    }
    ensure!(lines.len() < MANY, "many rows");
    let rows = CtxRows {
        thread: ThreadNo(1),
        lines,
        arcs: Vec::new(alloc),
    };
    Ok(folded(alloc, &rows)?)
}

fn arcs(alloc: Global, rest: &str) -> Result<TableRows> {
    let mut arcs = Vec::new(alloc);
    'rows: for row in rest.split(", ") {
        arcs.push(arc_in(alloc, row)?)?;
    }
    ensure!(arcs.len() < MANY, "many rows");
    let rows = CtxRows {
        thread: ThreadNo(1),
        lines: Vec::new(alloc),
        arcs,
    };
    Ok(folded(alloc, &rows)?)
}

fn lines_at(alloc: Global, rest: &str) -> Result<TableRows> {
    let mut lines = Vec::new(alloc);
    'rows: for row in rest.split(", ") {
        lines.push(line_at(row))?;
    }
    ensure!(lines.len() < MANY, "many rows");
    let rows = AddrRows {
        thread: ThreadNo(1),
        lines,
        arcs: Vec::new(alloc),
    };
    Ok(folded_at(alloc, &rows)?)
}

fn arcs_at(alloc: Global, rest: &str) -> Result<TableRows> {
    let mut arcs = Vec::new(alloc);
    'rows: for row in rest.split(", ") {
        arcs.push(arc_at(row))?;
    }
    ensure!(arcs.len() < MANY, "many rows");
    let rows = AddrRows {
        thread: ThreadNo(1),
        lines: Vec::new(alloc),
        arcs,
    };
    Ok(folded_at(alloc, &rows)?)
}

fn folded(alloc: Global, rows: &CtxRows) -> Result<TableRows, OutOfMemory>
    requires { AreSmall rows.now.rows }
{
    ctx_rows::fold(alloc, rows)
}

fn folded_at(alloc: Global, rows: &AddrRows) -> Result<TableRows, OutOfMemory>
    requires { AreSmallAt rows.now.rows }
{
    addr_rows::fold(alloc, rows)
}

/// A context, a file, a line, and the first two numbers of a cost.
fn line_in(alloc: Global, row: &str) -> Result<CtxLine>
    ensures { IfOk result IsSmallLine }
{
    let (ctx, rest) = first_word(row)?;
    let [file, line, first, second, ..] = small_numbers(rest);
    Ok(CtxLine {
        ctx: context(alloc, ctx)?,
        file: FileId(file),
        line,
        cost: cost(first, second),
    })
}

/// The caller's context, the callee's, a file, a line, how many calls there were, and the first two numbers of a cost.
fn arc_in(alloc: Global, row: &str) -> Result<CtxArc>
    ensures { IfOk result IsSmallArc }
{
    let (caller, rest) = first_word(row)?;
    let (callee, rest) = first_word(rest)?;
    let [file, line, calls, first, second, ..] = small_numbers(rest);
    Ok(CtxArc {
        caller: context(alloc, caller)?,
        callee: context(alloc, callee)?,
        file: FileId(file),
        line,
        calls: u64::from(calls),
        cost: cost(first, second),
    })
}

/// An address, a function, a file, a line, and the first two numbers of a cost.
fn line_at(row: &str) -> AddrLine
    ensures { IsSmallAt result }
{
    let [addr, func, file, line, first, second, ..] = small_numbers(row);
    AddrLine {
        addr,
        place: Place {
            func: FuncId(func),
            file: FileId(file),
            line,
        },
        cost: cost(first, second),
    }
}

/// An address, a caller, a file, a line, a callee, how many calls there were, and the first two numbers of a cost.
fn arc_at(row: &str) -> AddrArc
    ensures { IsSmallFrom result }
{
    let [addr, caller, file, line, callee, calls, first, second] = small_numbers(row);
    AddrArc {
        addr,
        arc: ArcKey {
            caller: FuncId(caller),
            file: FileId(file),
            line,
            callee: FuncId(callee),
        },
        calls: u64::from(calls),
        cost: cost(first, second),
    }
}

/// Functions with bars between them.
fn context(alloc: Global, functions: &str) -> Result<FuncList> {
    let mut items = Vec::new(alloc);
    for function in functions.split('|') {
        let [func, ..] = small_numbers(function);
        items.push(FuncId(func))?;
    }
    Ok(FuncList { items })
}

fn cost(first: u32, second: u32) -> Cost
    ensures { IsSmall result }
{
    let mut cost = Cost::ZERO;
    cost.n[0] = u64::from(first);
    cost.n[1] = u64::from(second);
    cost
}

/// The first two numbers of a cost; the others are 0.
fn print_line(rt: &HostRuntime, row: &LineRow) -> Result<()> {
    let (place, n) = (row.place, row.cost.n);
    let place = [place.func.0, place.file.0, place.line].map(u64::from);
    println!(rt; "place{}{}", Numbers(&place), Numbers(&n[..2]))?;
    Ok(())
}

fn print_arc(rt: &HostRuntime, row: &ArcRow) -> Result<()> {
    let (arc, n) = (row.arc, row.cost.n);
    let arc = [arc.caller.0, arc.file.0, arc.line, arc.callee.0].map(u64::from);
    println!(rt; "arc{} {}{}", Numbers(&arc), row.calls, Numbers(&n[..2]))?;
    Ok(())
}

fn print_rows(rt: &HostRuntime, rows: &TableRows) -> Result<()> {
    for row in &rows.lines {
        print_line(rt, row)?;
    }
    for row in &rows.arcs {
        print_arc(rt, row)?;
    }
    Ok(())
}
