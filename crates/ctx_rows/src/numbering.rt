//! The contexts of rows, numbered as they come.

ghost use Rattle.std.specs.Prelude.{◌≡◌, ◌∷◌, ◌++◌, [], IfOk, List, OnOk, map};
ghost use Rattle.contexts.specs.Contexts.{Context, context_at};
ghost use Rattle.ctx_rows.specs.Telling.{named_rows};

use crate::rows::CtxRows;
use arc_costs::{ArcRow, LineRow, TableRows};
use byte_text::OutOfMemory;
use contexts::{ContextRef, FuncList};
use event_costs::{ArcKey, ContextNo, Place};
use std::alloc::Global;

/// Adds a context to these lists. The answer is its number, however many come after it.
fn push_context(
    alloc: Global,
    lists: &mut Vec<Vec<u32>>,
    context: &FuncList,
) -> Result<ContextNo, OutOfMemory>
    ensures lists { OnOk result (map (λ list. list.items) lists.new.items
        ≡ map (λ list. list.items) lists.old.items ++ context.now ∷ []) }
    ensures number { IfOk result (λ number. (more : List Context)
        → context_at (map (λ list. list.items) lists.new.items ++ more) number ≡ context.now) }
{
    let number = ContextNo(lists.len() as u64);
    lists.push(context.numbers(alloc)?)?;
    Ok(number)
}

/// The rows with numbers of contexts in place of functions: each context is added to these lists as often as it comes.
pub(crate) fn by_number(
    alloc: Global,
    rows: &CtxRows,
    lists: &mut Vec<Vec<u32>>,
) -> Result<TableRows<ContextNo>, OutOfMemory>
    ensures { IfOk result (λ numbered. named_rows (map (λ list. list.items) lists.new.items) numbered ≡ rows.now.rows) }
{
    let mut lines = Vec::with_capacity(alloc, rows.lines.len())?;
    'lines: for row in &rows.lines {
        let func = push_context(alloc, lists, &row.ctx)?;
        lines.push(LineRow {
            place: Place {
                func,
                file: row.file,
                line: row.line,
            },
            cost: row.cost,
        })?;
    }
    let mut arcs = Vec::with_capacity(alloc, rows.arcs.len())?;
    'arcs: for row in &rows.arcs {
        let caller = push_context(alloc, lists, &row.caller)?;
        let callee = push_context(alloc, lists, &row.callee)?;
        arcs.push(ArcRow {
            arc: ArcKey {
                caller,
                file: row.file,
                line: row.line,
                callee,
            },
            calls: row.calls,
            cost: row.cost,
        })?;
    }
    Ok(TableRows { lines, arcs })
}

/// The contexts of these lists.
pub(crate) fn contexts_of(
    alloc: Global,
    lists: &[Vec<u32>],
) -> Result<Vec<ContextRef<'_>>, OutOfMemory>
    ensures { IfOk result (λ contexts. contexts.items ≡ map (λ list. list.items) lists.now) }
{
    let mut contexts = Vec::with_capacity(alloc, lists.len())?;
    'lists: for list in lists {
        contexts.push(ContextRef::new(list))?;
    }
    Ok(contexts)
}
