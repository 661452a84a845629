//! What was read of a section, as it is handed out.

ghost use Rattle.std.specs.Prelude.{◌≡◌, ◌+◌, ◌<◌, ◌≤◌, ◌^◌, length, slice_get, Some, unwrap_or, option_map};
ghost use Rattle.dwarf_line.specs.LineRow.{covers, last_at, row_at, line_at};
ghost use Rattle.dwarf_line.specs.Rows.{IsRising, with_text, row_address, sequence_in, sequences_of};
ghost use Rattle.dwarf_line.specs.inner.Tables.{IsTable};
ghost use Rattle.dwarf_line.specs.FileText.{unknown};
ghost use Rattle.dwarf_line.specs.inner.Building.{lines_of};

use crate::building::Builder;
use crate::matrix::Matrix;
use crate::row::{Row, Sequence};
use byte_text::{Text, UNKNOWN};
use std::marker::Model;

/// The rows and sequences of a section `.debug_line`, and the texts of the files that they name.
#[derive(Drop)]
pub struct Rows {
    matrix: Matrix,
    files: Vec<Text>,
    unit_count: usize,
}

impl Model for Rows {
    ghost use Rattle.dwarf_line.specs.Rows.{Rows};
    ghost use Rattle.dwarf_line.specs.inner.Tables.{IsTable};

    ghost Value = { Rows };

    ghost view = { λ r. record {
      rows = r.matrix.rows;
      sequences = r.matrix.sequences;
      files = r.files.items;
      unit_count = r.unit_count;
    } };

    ghost invariant = { λ r. IsTable r.matrix.rows r.matrix.sequences r.files.items };
}

/// A line of a file.
#[derive(Clone, Copy, Debug, PartialEq, Eq)]
pub struct SourceLine<'a> {
    /// The file's text, `???` where it is not known.
    pub file: &'a [u8],
    /// The line, counted from 1; 0 where none is known.
    pub line: u32,
}

/// Whether a sequence of these rows and this end covers an address.
fn covers(rows: &[Row], end: u32, addr: u32) -> bool
    ensures { result ≡ covers row_address addr (record { rows = rows.now; end = end }) }
{
    match rows.first() {
        Some(first) => first.addr <= addr && addr < end,
        None => false,
    }
}

/// The last of the rows at or below an address.
fn last_at(rows: &[Row], addr: u32) -> Option<Row>
    ensures { result ≡ last_at row_address addr rows.now }
{
    let mut last = None;
    for row in rows {
        if row.addr <= addr {
            last = Some(*row);
        }
    }
    last
}

impl Rows {
    /// How many units were accepted, those without rows among them.
    pub fn unit_count(&self) -> usize
        ensures { result ≡ self.now.unit_count }
    {
        self.unit_count
    }

    pub fn sequence_count(&self) -> usize
        ensures { result ≡ length self.now.sequences }
    {
        self.matrix.sequences().len()
    }

    /// The `i`-th sequence in the order of reading, from 0.
    pub fn sequence(&self, i: usize) -> Sequence
        requires { i < length self.now.sequences }
        ensures value { slice_get self.now.sequences i ≡ Some result }
        ensures has_row { result.first < result.last }
        ensures in_range { result.last ≤ length self.now.rows }
        ensures rises { IsRising row_address (sequence_in self.now.rows result) }
    {
        self.matrix.sequences()[i]
    }

    /// The row at a place that a sequence has.
    pub fn row(&self, i: usize) -> Row
        requires { i < length self.now.rows }
        ensures value { slice_get self.now.rows i ≡ Some result }
        ensures file_known { result.file < length self.now.files }
    {
        self.matrix.rows()[i]
    }

    /// How many texts of files there are; a row's file is the number of one of them.
    pub fn file_count(&self) -> usize
        ensures count { result ≡ length self.now.files }
        ensures few { result + 4 ≤ 2 ^ 32 }
    {
        self.files.len()
    }

    /// The text of a row's file.
    pub fn file(&self, i: u32) -> &[u8]
        requires { i < length self.now.files }
        ensures { slice_get self.now.files i ≡ Some result.now }
    {
        &self.files[i as usize].bytes
    }

    /// The text of a file's number, `???` where there is none.
    fn text(&self, file: u32) -> &[u8]
        ensures { result.now ≡ unwrap_or (slice_get self.now.files file) unknown }
    {
        match self.files.get(file as usize) {
            Some(text) => &text.bytes,
            None => UNKNOWN,
        }
    }

    /// The row of an address: the last one at or below it, in the first sequence that covers it.
    fn row_at(&self, addr: u32) -> Option<Row>
        ensures { option_map (with_text self.now.files) result ≡ row_at (sequences_of self.now) addr }
    {
        let rows = self.matrix.rows();
        'sequences: for sequence in self.matrix.sequences() {
            let rows = &rows[sequence.first..sequence.last];
            if covers(rows, sequence.end, addr) {
                return last_at(rows, addr);
            }
        }
        None
    }

    /// The file and line that the code at an address comes from: those of the last row at or below it, in
    /// the first sequence that covers it.
    pub fn line(&self, addr: u32) -> SourceLine<'_>
        ensures file { result.file.now ≡ (line_at (sequences_of self.now) addr).file }
        ensures line { result.line ≡ (line_at (sequences_of self.now) addr).line }
    {
        match self.row_at(addr) {
            Some(row) => SourceLine {
                file: self.text(row.file),
                line: row.line,
            },
            None => SourceLine {
                file: UNKNOWN,
                line: 0,
            },
        }
    }

    /// What was read, where all places and numbers are in range.
    pub(crate) fn from_builder(builder: Builder) -> Rows
        requires { IsTable builder.matrix.rows builder.matrix.sequences builder.files }
        ensures sequences { sequences_of result ≡ lines_of builder }
        ensures units { result.unit_count ≡ builder.unit_count }
    {
        let Builder {
            mut matrix,
            files,
            unit_count,
        } = builder;
        let files = files.name_rows(&mut matrix);
        Rows {
            matrix,
            files,
            unit_count,
        }
    }
}
