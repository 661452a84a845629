//! The text of a part by address.

ghost use Rattle.std.specs.Prelude.{◌≡◌, ◌∷◌, ◌++◌, List, IfOk, OnOk, map, reverse};
ghost use Rattle.event_costs.specs.Costs.{IsWhole, events_shown};
ghost use Rattle.sym_map.specs.SymbolMap.{IsFunc, SymbolMap};
ghost use Rattle.cg_format.specs.Marks.{Mark, Plain};
ghost use Rattle.cg_format.specs.Standing.{WriterState};
ghost use Rattle.addr_rows.specs.EventRows.{located_rows};
ghost use Rattle.addr_rows.specs.Known.{AreKnown};
ghost use Rattle.addr_rows.specs.Texts.{IsKnown, addr_text, after_row, calls_text, cost_text_at, entry_position};
ghost use Rattle.addr_rows.specs.Texts.{heading, position, row_lines};
ghost use Rattle.addr_rows.specs.declared.row.AddrRow.TheVariants as rows;
ghost use Rattle.addr_rows.specs.inner.Refs.{listed};

use crate::row::{AddrRow, Rows};
use crate::rows::{AddrArc, AddrRows};
use arc_costs::TableRows;
use byte_text::{OutOfMemory, Text};
use cg_format::{
    FileKey, PartHead, Writer, put_description, put_identity, put_place, put_summary, put_totals,
};
use event_costs::{Cost, FuncId, Number};
use std::alloc::Global;
use sym_map::SymMap;

/// Appends an address and its line.
fn push_position(alloc: Global, text: &mut Text, address: u32, line: u32) -> Result<(), OutOfMemory>
    ensures { OnOk result (text.new ≡ text.old ++ position address line) }
{
    let digits = format!(in alloc; "{address:x}")?;
    text.push(b"0x")?;
    text.push(digits.as_bytes())?;
    text.push(b" ")?;
    text.push_number(u64::from(line))
}

/// The address and line of a function's entry, zeros where it has none.
fn entry_position(alloc: Global, syms: &SymMap, func: FuncId) -> Result<Text, OutOfMemory>
    requires { IsFunc syms.now func }
    ensures { IfOk result (λ text. text ≡ entry_position syms.now func) }
{
    match syms.entry(func) {
        Some(entry) => {
            let mut text = Text::new(alloc);
            push_position(alloc, &mut text, entry, syms.place(entry).line)?;
            Ok(text)
        }
        None => Text::from_bytes(alloc, b"0x0 0"),
    }
}

/// An address, its line and the costs shown there.
fn cost_text(
    alloc: Global,
    head: &PartHead,
    address: u32,
    line: u32,
    cost: &Cost,
) -> Result<Text, OutOfMemory>
    ensures { IfOk result (λ text. text ≡ cost_text_at head.now address line cost.now) }
{
    let mut text = Text::new(alloc);
    push_position(alloc, &mut text, address, line)?;
    'costs: for number in cost.shown_numbers(head.branch) {
        text.push(b" ")?;
        text.push_number(*number)?;
    }
    Ok(text)
}

/// How often a callee was called, and where it begins.
fn calls_text(alloc: Global, syms: &SymMap, calls: u64, callee: FuncId) -> Result<Text, OutOfMemory>
    requires { IsFunc syms.now callee }
    ensures { IfOk result (λ text. text ≡ calls_text syms.now calls callee) }
{
    let mut text = Text::from_bytes(alloc, b"calls=")?;
    text.push_number(calls)?;
    text.push(b" ")?;
    text.push(entry_position(alloc, syms, callee)?.as_bytes())?;
    Ok(text)
}

/// Writes the lines of an arc row.
fn put_arc(
    alloc: Global,
    writer: &mut Writer,
    head: &PartHead,
    syms: &SymMap,
    row: &AddrArc,
) -> Result<(), OutOfMemory>
    requires { IsFunc syms.now row.now.arc.callee }
    ensures { (before : List Mark) → WriterState syms.now before writer.old
        → OnOk result (WriterState syms.now (row_lines head.now syms.now before (rows.Arc row.now)) writer.new) }
{
    let callee = row.arc.callee;
    let calls = calls_text(alloc, syms, row.calls, callee)?;
    let costs = cost_text(alloc, head, row.addr, row.arc.line, &row.cost)?;
    writer.enter_file(syms, FileKey::OfCallee, syms.home(callee))?;
    writer.put_callee(syms, callee.wide())?;
    writer.put_line(b"", calls.as_bytes())?;
    writer.put_line(b"", costs.as_bytes())
}

/// Writes a row.
fn put_row(
    alloc: Global,
    writer: &mut Writer,
    head: &PartHead,
    syms: &SymMap,
    row: &AddrRow,
) -> Result<(), OutOfMemory>
    requires { IsKnown syms.now row.now }
    ensures { (before : List Mark) → WriterState syms.now before writer.old
        → OnOk result (WriterState syms.now (after_row head.now syms.now before row.now) writer.new) }
{
    put_place(alloc, writer, head, syms, &row.plain())?;
    match row {
        AddrRow::Line(row) => {
            let costs = cost_text(alloc, head, row.addr, row.place.line, &row.cost)?;
            writer.put_line(b"", costs.as_bytes())
        }
        AddrRow::Arc(row) => put_arc(alloc, writer, head, syms, row),
    }
}

/// Writes the lines before the first function, where the line rows have this sum.
fn put_heading(
    alloc: Global,
    writer: &mut Writer,
    head: &PartHead,
    sum: &[u128],
) -> Result<(), OutOfMemory>
    requires { IsWhole sum.now }
    ensures { (m : SymbolMap) (before : List Mark) → WriterState m before writer.old
        → OnOk result (WriterState m (reverse (map Plain (heading head.now sum.now)) ++ before) writer.new) }
{
    put_identity(alloc, writer, head)?;
    put_description(alloc, writer, head)?;
    writer.put_line(b"positions: instr line", b"")?;
    put_summary(writer, head, sum)
}

/// Writes the text of a part.
fn write_rows(
    alloc: Global,
    head: &PartHead,
    rows: &Rows,
    syms: &SymMap,
) -> Result<Text, OutOfMemory>
    requires { AreKnown syms.now (listed syms.now rows.now) }
    ensures { IfOk result (λ text. text ≡ addr_text head.now (listed syms.now rows.now) syms.now) }
{
    let sum = rows.sum(alloc)?;
    let sorted = rows.by_function(alloc, syms)?;
    let mut writer = Writer::new(alloc);
    put_heading(alloc, &mut writer, head, &sum)?;
    'refs: for place in &sorted {
        let row = rows.row(place.index, syms);
        put_row(alloc, &mut writer, head, syms, &row)?;
    }
    put_totals(&mut writer, head, &sum)?;
    Ok(writer.into_text())
}

/// The text of a part in Callgrind's format, version 1, with the address before each line: its head, and the rows by
/// rising function; those of a function stay in their order. Each function and file of the rows is one of the map.
pub fn write_addr(
    alloc: Global,
    head: &PartHead,
    rows: &AddrRows,
    syms: &SymMap,
) -> Result<Text, OutOfMemory>
    requires { AreKnown syms.now rows.now.rows }
    ensures { IfOk result (λ text. text ≡ addr_text head.now rows.now.rows syms.now) }
{
    write_rows(alloc, head, &Rows::Placed(rows), syms)
}

/// The text of a part as `write_addr` writes it, of rows in which an address stands for its file and line. No row is
/// copied.
pub fn write_located(
    alloc: Global,
    head: &PartHead,
    rows: &TableRows,
    syms: &SymMap,
) -> Result<Text, OutOfMemory>
    requires { AreKnown syms.now (located_rows syms.now rows.now) }
    ensures { IfOk result (λ text. text ≡ addr_text head.now (located_rows syms.now rows.now) syms.now) }
{
    write_rows(alloc, head, &Rows::ByAddress(rows), syms)
}
