//! The text of a part.

ghost use Rattle.std.specs.Prelude.{◌≡◌, ◌∷◌, List, IfOk, OnOk};
ghost use Rattle.sym_map.specs.SymbolMap.{IsFile, IsFunc, SymbolMap, entry_line_of};
ghost use Rattle.cg_format.specs.Marks.{Mark, Calls};
ghost use Rattle.cg_format.specs.Part.{AreKnown, after_row, at_row, in_function, in_object};
ghost use Rattle.cg_format.specs.Part.{part_text, place_key, row_lines};
ghost use Rattle.cg_format.specs.Rows.{file_of, function_of};
ghost use Rattle.cg_format.specs.Standing.{IsKnown, WriterState};

use crate::file_key::FileKey;
use crate::head::PartHead;
use crate::heading::{put_heading, put_totals};
use crate::naming::Naming;
use crate::row::{Row, rows_by_function};
use crate::sums::sum_of_lines;
use crate::writer::Writer;
use arc_costs::{ArcRow, TableRows};
use byte_text::{OutOfMemory, Text, clean_name};
use event_costs::{ContextNo, FileId, Number};
use std::alloc::Global;
use sym_map::SymMap;

/// Writes the object above the first function.
fn put_object(alloc: Global, writer: &mut Writer, head: &PartHead) -> Result<(), OutOfMemory>
    ensures { (m : SymbolMap) (before : List Mark) → WriterState m before writer.old
        → OnOk result (WriterState m (in_object head.now before) writer.new) }
{
    if !writer.functions.is_empty() {
        return Ok(());
    }
    let object = clean_name(alloc, head.object.as_bytes())?;
    writer.put_line(b"ob=(1) ", object.as_bytes())
}

/// Begins a function where it isn't the current one.
fn enter_function<N: Naming>(
    alloc: Global,
    writer: &mut Writer,
    head: &PartHead,
    names: &N,
    function: ContextNo,
) -> Result<(), OutOfMemory>
    requires { IsFunc (N.map names.now) function }
    ensures { (before : List Mark) → WriterState (N.map names.now) before writer.old
        → OnOk result (WriterState (N.map names.now) (in_function head.now (N.map names.now) function before) writer.new) }
{
    if writer.is_in_function(function) {
        return Ok(());
    }
    writer.put_line(b"", b"")?;
    put_object(alloc, writer, head)?;
    writer.enter_file(names, FileKey::Home, names.home(function))?;
    writer.put_function(names, function)
}

/// Whether a line's file is that of its function.
fn place_key<N: Naming>(names: &N, function: ContextNo, file: FileId) -> FileKey
    requires { IsFunc (N.map names.now) function }
    ensures { result ≡ place_key (N.map names.now) function file }
{
    if names.home(function).0 == file.0 {
        FileKey::Back
    } else {
        FileKey::Other
    }
}

/// Writes where a row stands: its function, and the file of its line.
pub fn put_place<N: Naming>(
    alloc: Global,
    writer: &mut Writer,
    head: &PartHead,
    names: &N,
    row: &Row,
) -> Result<(), OutOfMemory>
    requires { IsKnown (N.map names.now) row.now }
    ensures { (before : List Mark) → WriterState (N.map names.now) before writer.old
        → OnOk result (WriterState (N.map names.now) (at_row head.now (N.map names.now) before row.now) writer.new) }
{
    let function = row.function();
    let file = row.file();
    enter_function(alloc, writer, head, names, function)?;
    writer.enter_file(names, place_key(names, function, file), file)
}

/// Writes how often an arc's callee was called, and the line of its entry.
fn put_call_count<N: Naming>(
    writer: &mut Writer,
    names: &N,
    row: &ArcRow<ContextNo>,
) -> Result<(), OutOfMemory>
    requires { IsFunc (N.map names.now) row.now.arc.callee }
    ensures { (before : List Mark) → WriterState (N.map names.now) before writer.old
        → OnOk result (WriterState (N.map names.now) (Calls row.now.calls (entry_line_of (N.map names.now) row.now.arc.callee)
        ∷ before) writer.new) }
{
    writer.put_calls(row.calls, names.entry_line(row.arc.callee))
}

/// Writes the lines of an arc row.
fn put_arc<N: Naming>(
    writer: &mut Writer,
    head: &PartHead,
    names: &N,
    row: &ArcRow<ContextNo>,
) -> Result<(), OutOfMemory>
    requires { IsFunc (N.map names.now) row.now.arc.callee }
    ensures { (before : List Mark) → WriterState (N.map names.now) before writer.old
        → OnOk result (WriterState (N.map names.now) (row_lines head.now (N.map names.now) before (Row.Arc row.now))
        writer.new) }
{
    let callee = row.arc.callee;
    writer.enter_file(names, FileKey::OfCallee, names.home(callee))?;
    writer.put_callee(names, callee)?;
    put_call_count(writer, names, row)?;
    writer.put_costs(row.arc.line, row.cost.shown_numbers(head.branch))
}

/// Writes a row.
fn put_row<N: Naming>(
    alloc: Global,
    writer: &mut Writer,
    head: &PartHead,
    names: &N,
    row: &Row,
) -> Result<(), OutOfMemory>
    requires { IsKnown (N.map names.now) row.now }
    ensures { (before : List Mark) → WriterState (N.map names.now) before writer.old
        → OnOk result (WriterState (N.map names.now) (after_row head.now (N.map names.now) before row.now) writer.new) }
{
    put_place(alloc, writer, head, names, row)?;
    match row {
        Row::Line(row) => writer.put_costs(row.place.line, row.cost.shown_numbers(head.branch)),
        Row::Arc(row) => put_arc(writer, head, names, row),
    }
}

/// The text of a part in Callgrind's format, version 1: its head, and the rows by rising function. Each function and
/// file of the rows is one of the map. The text takes time with the number of rows.
pub fn write_part(
    alloc: Global,
    head: &PartHead,
    rows: &TableRows,
    syms: &SymMap,
) -> Result<Text, OutOfMemory>
    requires { AreKnown syms.now rows.now }
    ensures { IfOk result (λ text. text ≡ part_text head.now rows.now syms.now) }
{
    write_named(alloc, head, rows, syms)
}

/// The text of a part as `write_part` writes it, with functions and files that are called so.
pub fn write_named<M: Number, N: Naming>(
    alloc: Global,
    head: &PartHead,
    rows: &TableRows<M>,
    names: &N,
) -> Result<Text, OutOfMemory>
    requires { AreKnown (N.map names.now) rows.now }
    ensures { IfOk result (λ text. text ≡ part_text head.now rows.now (N.map names.now)) }
{
    let sum = sum_of_lines(&rows.lines);
    let sorted = rows_by_function(alloc, rows)?;
    let mut writer = Writer::new(alloc);
    put_heading(alloc, &mut writer, head, &sum)?;
    'rows: for row in &sorted {
        put_row(alloc, &mut writer, head, names, &row.wide())?;
    }
    put_totals(&mut writer, head, &sum)?;
    Ok(writer.into_text())
}
