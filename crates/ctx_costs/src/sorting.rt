//! The order of rows by context.

ghost use Rattle.std.specs.Prelude.{◌≡◌};
ghost use Rattle.ctx_costs.specs.inner.Naming.{AreNamedRows};
ghost use Rattle.ctx_rows.specs.Rows.{arc_of, place_of};
ghost use Rattle.ctx_rows.specs.Sums.{arc_order, place_order};
ghost use Rattle.ctx_rows.specs.Telling.{named_arc, named_line, named_rows};

use arc_costs::{ArcRow, LineRow, TableRows};
use contexts::{ContextRef, context_at};
use event_costs::ContextNo;
use std::cmp::Ordering;

/// By context, file and line.
fn by_line(contexts: &[ContextRef<'_>], x: &LineRow<ContextNo>, y: &LineRow<ContextNo>) -> Ordering
    ensures { result ≡ place_order (place_of (named_line contexts.now x.now)) (place_of (named_line contexts.now y.now)) }
{
    let by_context = context_at(contexts, x.place.func).cmp(&context_at(contexts, y.place.func));
    by_context
        .then(x.place.file.0.cmp(&y.place.file.0))
        .then(x.place.line.cmp(&y.place.line))
}

/// By caller, file, line and callee.
fn by_arc(contexts: &[ContextRef<'_>], x: &ArcRow<ContextNo>, y: &ArcRow<ContextNo>) -> Ordering
    ensures { result ≡ arc_order (arc_of (named_arc contexts.now x.now)) (arc_of (named_arc contexts.now y.now)) }
{
    let by_caller = context_at(contexts, x.arc.caller).cmp(&context_at(contexts, y.arc.caller));
    let by_callee = context_at(contexts, x.arc.callee).cmp(&context_at(contexts, y.arc.callee));
    by_caller
        .then(x.arc.file.0.cmp(&y.arc.file.0))
        .then(x.arc.line.cmp(&y.arc.line))
        .then(by_callee)
}

/// Rows by the numbers of contexts in the order of the contexts.
pub(crate) fn in_order(
    rows: TableRows<ContextNo>,
    contexts: &[ContextRef<'_>],
) -> TableRows<ContextNo>
    ensures { AreNamedRows contexts.now rows (named_rows contexts.now result) }
{
    let TableRows {
        mut lines,
        mut arcs,
    } = rows;
    lines.sort_unstable_by(|x, y| by_line(contexts, x, y));
    arcs.sort_unstable_by(|x, y| by_arc(contexts, x, y));
    TableRows { lines, arcs }
}
