//! Rows by the numbers that contexts have elsewhere, numbered anew by the order of their contexts.

ghost use Rattle.std.specs.Prelude.{◌≡◌, IfOk, OnOk, map};
ghost use Rattle.std.specs.List.Sorted.{IsStrictlySortedBy};
ghost use Rattle.arc_costs.specs.Keys.{risen};
ghost use Rattle.contexts.specs.Contexts.{context_at, context_order, number};
ghost use Rattle.ctx_rows.specs.Telling.{named_arc, named_line, named_rows};
ghost use Rattle.ctx_rows.specs.Texts.{all_contexts, contexts_in, numbered, numbered_arc, numbered_line};

use arc_costs::{ArcRow, LineRow, TableRows};
use byte_text::OutOfMemory;
use contexts::{ContextRef, context_at};
use event_costs::{ArcKey, ContextNo, Place};
use name_numbers::distinct;
use std::alloc::Global;

/// The contexts of rows, as often as they come.
fn all_contexts<'a>(
    alloc: Global,
    rows: &TableRows<ContextNo>,
    contexts: &[ContextRef<'a>],
) -> Result<Vec<ContextRef<'a>>, OutOfMemory>
    ensures { IfOk result (λ all. all.items ≡ all_contexts (named_rows contexts.now rows.now)) }
{
    let mut all = Vec::new(alloc);
    'lines: for row in &rows.lines {
        all.push(context_at(contexts, row.place.func))?;
    }
    'arcs: for row in &rows.arcs {
        all.push(context_at(contexts, row.arc.caller))?;
        all.push(context_at(contexts, row.arc.callee))?;
    }
    Ok(all)
}

/// Each of these contexts once, in rising order.
fn in_order<'a>(all: Vec<ContextRef<'a>>) -> Result<Vec<ContextRef<'a>>, OutOfMemory>
    ensures { IfOk result (λ contexts. contexts.items ≡ risen context_order all.entry.items) }
{
    let mut contexts = distinct(all)?;
    contexts.shrink_to_fit();
    Ok(contexts)
}

/// The number of a context among these, or the next one where it isn't there.
fn number(contexts: &[ContextRef<'_>], context: &ContextRef<'_>) -> ContextNo
    requires { IsStrictlySortedBy context_order contexts.now }
    ensures { result ≡ number contexts.now context.now }
{
    match contexts.binary_search(context) {
        Ok(number) => ContextNo(number as u64),
        Err(_) => ContextNo(contexts.len() as u64),
    }
}

/// A line row with the number of its context among these.
fn ranked_line(
    row: &LineRow<ContextNo>,
    contexts: &[ContextRef<'_>],
    ranked: &[ContextRef<'_>],
) -> LineRow<ContextNo>
    requires { IsStrictlySortedBy context_order ranked.now }
    ensures { result ≡ numbered_line ranked.now (named_line contexts.now row.now) }
{
    LineRow {
        place: Place {
            func: number(ranked, &context_at(contexts, row.place.func)),
            file: row.place.file,
            line: row.place.line,
        },
        cost: row.cost,
    }
}

/// An arc row with the numbers of its contexts among these.
fn ranked_arc(
    row: &ArcRow<ContextNo>,
    contexts: &[ContextRef<'_>],
    ranked: &[ContextRef<'_>],
) -> ArcRow<ContextNo>
    requires { IsStrictlySortedBy context_order ranked.now }
    ensures { result ≡ numbered_arc ranked.now (named_arc contexts.now row.now) }
{
    ArcRow {
        arc: ArcKey {
            caller: number(ranked, &context_at(contexts, row.arc.caller)),
            file: row.arc.file,
            line: row.arc.line,
            callee: number(ranked, &context_at(contexts, row.arc.callee)),
        },
        calls: row.calls,
        cost: row.cost,
    }
}

/// Gives lines the numbers of their contexts among these.
fn rank_lines(
    rows: &mut [LineRow<ContextNo>],
    contexts: &[ContextRef<'_>],
    ranked: &[ContextRef<'_>],
)
    requires { IsStrictlySortedBy context_order ranked.now }
    ensures { rows.new ≡ map (numbered_line ranked.now) (map (named_line contexts.now) rows.old) }
{
    'lines: for row in rows.iter_mut() {
        *row = ranked_line(row, contexts, ranked);
    }
}

/// Gives arcs the numbers of their contexts among these.
fn rank_arcs(rows: &mut [ArcRow<ContextNo>], contexts: &[ContextRef<'_>], ranked: &[ContextRef<'_>])
    requires { IsStrictlySortedBy context_order ranked.now }
    ensures { rows.new ≡ map (numbered_arc ranked.now) (map (named_arc contexts.now) rows.old) }
{
    'arcs: for row in rows.iter_mut() {
        *row = ranked_arc(row, contexts, ranked);
    }
}

/// Gives rows the numbers of their contexts among those that come up in them, in order. The answer is these contexts.
pub(crate) fn rank<'a>(
    alloc: Global,
    rows: &mut TableRows<ContextNo>,
    contexts: &[ContextRef<'a>],
) -> Result<Vec<ContextRef<'a>>, OutOfMemory>
    ensures contexts { IfOk result (λ ranked. ranked.items ≡ contexts_in (named_rows contexts.now rows.old)) }
    ensures rows { OnOk result (rows.new
        ≡ numbered (contexts_in (named_rows contexts.now rows.old)) (named_rows contexts.now rows.old)) }
{
    let ranked = in_order(all_contexts(alloc, rows, contexts)?)?;
    rank_lines(&mut rows.lines, contexts, &ranked);
    rank_arcs(&mut rows.arcs, contexts, &ranked);
    Ok(ranked)
}
