//! Rows of both kinds, by their functions.

ghost use Rattle.std.specs.Prelude.{◌≡◌, ◌<◌, ℕ, All, IfOk, IsPermutation};
ghost use Rattle.cg_format.specs.Rows.{all_rows, by_function, file_of, function_of};

use arc_costs::{ArcRow, LineRow, TableRows};
use byte_text::OutOfMemory;
use event_costs::{ContextNo, FileId, Number};
use std::alloc::Global;
use std::marker::Model;

/// A line row or an arc row, with numbers of 64 bits.
#[derive(Clone, Copy, Debug)]
pub enum Row {
    Line(LineRow<ContextNo>),
    Arc(ArcRow<ContextNo>),
}

impl Row {
    /// The function of the line, or the caller of the arc.
    pub(crate) fn function(&self) -> ContextNo
        ensures { result ≡ function_of self.now }
    {
        match self {
            Row::Line(row) => row.place.func,
            Row::Arc(row) => row.arc.caller,
        }
    }

    /// The file of the line.
    pub(crate) fn file(&self) -> FileId
        ensures { result ≡ file_of self.now }
    {
        match self {
            Row::Line(row) => row.place.file,
            Row::Arc(row) => row.arc.file,
        }
    }
}

/// A line row or an arc row that stands elsewhere, with numbers of any type.
#[derive(Clone, Copy)]
enum AnyRow<'a, N: Number> {
    Line(&'a LineRow<N>),
    Arc(&'a ArcRow<N>),
}

/// A row that stands elsewhere, so that rows are ordered without a copy of each. Contracts see the row.
#[derive(Drop)]
pub(crate) struct RowRef<'a, N: Number> {
    row: AnyRow<'a, N>,
}

impl<'a, N: Number> Model for RowRef<'a, N> {
    ghost use Rattle.cg_format.specs.declared.row.Row.{Row};
    ghost use Rattle.cg_format.specs.inner.Refs.{row_of};

    ghost Value = { Row };

    ghost view = { λ r. row_of r.row };
}

impl<'a, N: Number> RowRef<'a, N> {
    /// The row, with numbers of 64 bits.
    pub(crate) fn wide(&self) -> Row
        ensures { result ≡ self.now }
    {
        match self.row {
            AnyRow::Line(row) => Row::Line(row.wide()),
            AnyRow::Arc(row) => Row::Arc(row.wide()),
        }
    }

    /// The function of the line, or the caller of the arc.
    fn function(&self) -> ContextNo
        ensures { result ≡ function_of self.now }
    {
        match self.row {
            AnyRow::Line(row) => row.place.func.wide(),
            AnyRow::Arc(row) => row.arc.caller.wide(),
        }
    }
}

/// The line rows, and then the arc rows.
fn all_rows<'a, N: Number>(
    alloc: Global,
    rows: &'a TableRows<N>,
) -> Result<Vec<RowRef<'a, N>>, OutOfMemory>
    ensures { IfOk result (λ all. all.items ≡ all_rows rows.now) }
{
    let mut all = Vec::with_capacity(alloc, rows.lines.len())?;
    'lines: for row in &rows.lines {
        let row = AnyRow::Line(row);
        all.push(RowRef { row })?;
    }
    'arcs: for row in &rows.arcs {
        let row = AnyRow::Arc(row);
        all.push(RowRef { row })?;
    }
    Ok(all)
}

/// All rows by rising function; those of a function stay in their order, line rows first.
pub(crate) fn rows_by_function<'a, N: Number>(
    alloc: Global,
    rows: &'a TableRows<N>,
) -> Result<Vec<RowRef<'a, N>>, OutOfMemory>
    ensures permutation { IfOk result (λ sorted. IsPermutation (all_rows rows.now) sorted.items) }
    ensures rows { IfOk result (λ sorted. (functions : ℕ)
        → All (λ row. (function_of row).0 < functions) (all_rows rows.now)
        → sorted.items ≡ by_function functions (all_rows rows.now)) }
{
    let mut sorted = all_rows(alloc, rows)?;
    sorted.sort_by_key(|row| row.function().0)?;
    Ok(sorted)
}
