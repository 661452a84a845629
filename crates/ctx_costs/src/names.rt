//! Contexts in place of their numbers.

ghost use Rattle.std.specs.Prelude.{◌≡◌, IfOk, map};
ghost use Rattle.ctx_rows.specs.Telling.{named_arc, named_line, named_rows};

use arc_costs::{ArcRow, LineRow, TableRows};
use byte_text::OutOfMemory;
use contexts::{ContextRef, context_at};
use ctx_rows::{CtxArc, CtxLine, CtxRows};
use event_costs::{ContextNo, ThreadNo};
use std::alloc::Global;

/// A line row with a context in place of its number.
fn named_line(
    alloc: Global,
    row: &LineRow<ContextNo>,
    contexts: &[ContextRef<'_>],
) -> Result<CtxLine, OutOfMemory>
    ensures { IfOk result (λ line. line ≡ named_line contexts.now row.now) }
{
    Ok(CtxLine {
        ctx: context_at(contexts, row.place.func).to_list(alloc)?,
        file: row.place.file,
        line: row.place.line,
        cost: row.cost,
    })
}

/// An arc row with contexts in place of their numbers.
fn named_arc(
    alloc: Global,
    row: &ArcRow<ContextNo>,
    contexts: &[ContextRef<'_>],
) -> Result<CtxArc, OutOfMemory>
    ensures { IfOk result (λ arc. arc ≡ named_arc contexts.now row.now) }
{
    Ok(CtxArc {
        caller: context_at(contexts, row.arc.caller).to_list(alloc)?,
        callee: context_at(contexts, row.arc.callee).to_list(alloc)?,
        file: row.arc.file,
        line: row.arc.line,
        calls: row.calls,
        cost: row.cost,
    })
}

/// Rows with contexts in place of their numbers, in their order.
pub(crate) fn named_rows(
    alloc: Global,
    thread: ThreadNo,
    rows: &TableRows<ContextNo>,
    contexts: &[ContextRef<'_>],
) -> Result<CtxRows, OutOfMemory>
    ensures { IfOk result (λ named. named ≡ record { thread = thread; rows = named_rows contexts.now rows.now }) }
{
    let mut lines = Vec::with_capacity(alloc, rows.lines.len())?;
    'lines: for row in &rows.lines {
        lines.push(named_line(alloc, row, contexts)?)?;
    }
    let mut arcs = Vec::with_capacity(alloc, rows.arcs.len())?;
    'arcs: for row in &rows.arcs {
        arcs.push(named_arc(alloc, row, contexts)?)?;
    }
    Ok(CtxRows {
        thread,
        lines,
        arcs,
    })
}
