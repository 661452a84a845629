//! Rows of both kinds, by their functions.

ghost use Rattle.std.specs.Prelude.{◌≡◌, ◌<◌, ℕ, All, IfOk, length, map};
ghost use Rattle.std.specs.List.{range_with_len};
ghost use Rattle.sym_map.specs.SymbolMap.{SymbolMap};
ghost use Rattle.cg_format.specs.Rows.{function_of};
ghost use Rattle.cg_format.specs.Sums.{sum_of_lines};
ghost use Rattle.addr_rows.specs.EventRows.{located_rows};
ghost use Rattle.addr_rows.specs.Plain.{plain};
ghost use Rattle.addr_rows.specs.Texts.{all_rows, by_function, plain_row};
ghost use Rattle.addr_rows.specs.inner.Refs.{listed, ref_to, row_at, row_of};

use crate::located::{located_arc, located_line};
use crate::plain::plain_rows;
use crate::rows::{AddrArc, AddrLine, AddrRows};
use arc_costs::{ArcRow, LineRow, TableRows};
use byte_text::OutOfMemory;
use cg_format::{Row, sum_of_lines};
use event_costs::{EVENTS, Number};
use std::alloc::Global;
use sym_map::SymMap;

/// A line row or an arc row.
#[derive(Clone, Copy)]
pub enum AddrRow {
    Line(AddrLine),
    Arc(AddrArc),
}

impl AddrRow {
    /// The row without its address.
    pub(crate) fn plain(&self) -> Row
        ensures { result ≡ plain_row self.now }
    {
        match self {
            AddrRow::Line(row) => Row::Line(LineRow {
                place: row.place.wide(),
                cost: row.cost,
            }),
            AddrRow::Arc(row) => Row::Arc(ArcRow {
                arc: row.arc.wide(),
                calls: row.calls,
                cost: row.cost,
            }),
        }
    }

    /// The number of the function of the line, or of the caller of the arc.
    fn function_number(&self) -> u32
        ensures { result ≡ (function_of (plain_row self.now)).0 }
    {
        match self {
            AddrRow::Line(row) => row.place.func.0,
            AddrRow::Arc(row) => row.arc.caller.0,
        }
    }
}

/// Rows that stand elsewhere: as they are written, or with addresses in place of files and lines.
#[derive(Clone, Copy)]
pub(crate) enum Rows<'a> {
    Placed(&'a AddrRows),
    ByAddress(&'a TableRows),
}

/// Where a row stands among the line rows and then the arc rows, so that rows are ordered without a copy of each.
#[derive(Clone, Copy)]
pub(crate) struct RowRef {
    function: u32,
    pub index: usize,
}

/// The row that stands there.
fn placed_row(rows: &AddrRows, index: usize) -> AddrRow
    requires { index < length (all_rows rows.now.rows) }
    ensures { result ≡ row_at (all_rows rows.now.rows) index }
{
    let lines = rows.lines.len();
    if index < lines {
        AddrRow::Line(rows.lines[index])
    } else {
        AddrRow::Arc(rows.arcs[index - lines])
    }
}

/// The row that stands there, with the place of its address.
fn located_row(rows: &TableRows, index: usize, syms: &SymMap) -> AddrRow
    requires { index < length (all_rows (located_rows syms.now rows.now)) }
    ensures { result ≡ row_at (all_rows (located_rows syms.now rows.now)) index }
{
    let lines = rows.lines.len();
    if index < lines {
        AddrRow::Line(located_line(&rows.lines[index], syms))
    } else {
        AddrRow::Arc(located_arc(&rows.arcs[index - lines], syms))
    }
}

impl<'a> Rows<'a> {
    /// How many rows there are.
    fn count(&self) -> usize
        ensures { (m : SymbolMap) → result ≡ length (all_rows (listed m self.now)) }
    {
        match self {
            Rows::Placed(rows) => rows.lines.len() + rows.arcs.len(),
            Rows::ByAddress(rows) => rows.lines.len() + rows.arcs.len(),
        }
    }

    /// The row that stands there, with its place.
    pub(crate) fn row(&self, index: usize, syms: &SymMap) -> AddrRow
        requires { index < length (all_rows (listed syms.now self.now)) }
        ensures { result ≡ row_at (all_rows (listed syms.now self.now)) index }
    {
        match self {
            Rows::Placed(rows) => placed_row(rows, index),
            Rows::ByAddress(rows) => located_row(rows, index, syms),
        }
    }

    /// The sum of the costs of the line rows.
    pub(crate) fn sum(&self, alloc: Global) -> Result<[u128; EVENTS], OutOfMemory>
        ensures { IfOk result (λ sum. (m : SymbolMap) → sum ≡ sum_of_lines (plain (listed m self.now)).lines) }
    {
        match self {
            Rows::Placed(rows) => Ok(sum_of_lines(&plain_rows(alloc, rows)?.lines)),
            Rows::ByAddress(rows) => Ok(sum_of_lines(&rows.lines)),
        }
    }

    /// Where the rows stand, in their order.
    fn refs(&self, alloc: Global, syms: &SymMap) -> Result<Vec<RowRef>, OutOfMemory>
        ensures { IfOk result (λ refs. refs.items ≡ map (ref_to (all_rows (listed syms.now self.now)))
            (range_with_len 0 (length (all_rows (listed syms.now self.now))))) }
    {
        let count = self.count();
        let mut refs = Vec::with_capacity(alloc, count)?;
        'rows: for index in 0..count {
            let function = self.row(index, syms).function_number();
            refs.push(RowRef { function, index })?;
        }
        Ok(refs)
    }

    /// Where the rows stand by rising function; those of a function stay in their order, line rows first.
    pub(crate) fn by_function(
        &self,
        alloc: Global,
        syms: &SymMap,
    ) -> Result<Vec<RowRef>, OutOfMemory>
        ensures within { IfOk result (λ sorted. All (λ place. place.index < length (all_rows (listed syms.now self.now)))
            sorted.items) }
        ensures rows { IfOk result (λ sorted. (functions : ℕ)
            → All (λ row. (function_of (plain_row row)).0 < functions) (all_rows (listed syms.now self.now))
            → map (row_of (all_rows (listed syms.now self.now))) sorted.items
            ≡ by_function functions (all_rows (listed syms.now self.now))) }
    {
        let mut sorted = self.refs(alloc, syms)?;
        sorted.sort_by_key(|place| place.function)?;
        Ok(sorted)
    }
}
