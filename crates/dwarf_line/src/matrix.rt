//! The rows and sequences so far, while a line number program runs.

ghost use Rattle.std.specs.Prelude.{◌≡◌, ◌≤◌, ◌<◌, ◌+◌, ◌^◌, IsTrue, ◌↔◌, false, length, take, [], OnOk};
ghost use Rattle.dwarf_line.specs.Program.{last_address};
ghost use Rattle.std.specs.Prelude.{map};
ghost use Rattle.std.specs.List.{AllByRecursion};
ghost use Rattle.dwarf_line.specs.inner.Files.{renamed_row};
ghost use Rattle.dwarf_line.specs.inner.Matrix.{numbered_row, may_follow, with_row, with_end};
ghost use Rattle.dwarf_line.specs.Rows.{row_address};

use crate::fault::Fault;
use crate::registers::Registers;
use crate::row::{Row, Sequence};
use std::alloc::Global;
use std::marker::Model;

/// How a unit's files are numbered over all units.
#[derive(Clone, Copy)]
pub struct Numbering {
    /// How many numbers stand for other files.
    pub before: u64,
    /// How many files the unit has.
    pub count: u64,
    ghost fits: { before + count ≤ 2 ^ 32 },
}

impl Numbering {
    /// The row of these registers.
    pub fn row(self, state: Registers) -> Row
        ensures { result ≡ numbered_row self.before self.count state }
    {
        let file = if state.file < self.count {
            (self.before + state.file) as u32
        } else {
            0
        };
        Row {
            addr: state.address,
            file,
            line: state.line,
        }
    }
}

/// The address of the last row, 0 without rows.
fn last_address(rows: &[Row]) -> u32
    ensures { result ≡ last_address row_address rows.now }
{
    match rows.last() {
        Some(row) => row.addr,
        None => 0,
    }
}

/// Has each row name the number that stands for its file.
fn rename_rows(rows: &mut [Row], numbers: &[u32])
    requires { AllByRecursion (λ row. row.file < length numbers.now) rows.old }
    ensures { rows.new ≡ map (renamed_row numbers.now) rows.old }
{
    'rows: for i in 0..rows.len() {
        let row = rows[i];
        rows[i] = Row {
            file: numbers[row.file as usize],
            ..row
        };
    }
}

/// All rows one after the other, and the sequences that they make up; the rows from `first` on belong to
/// the sequence that is open.
#[derive(Drop)]
pub struct Matrix {
    rows: Vec<Row>,
    sequences: Vec<Sequence>,
    first: usize,
}

impl Model for Matrix {
    ghost use Rattle.dwarf_line.specs.inner.Matrix.{OpenMatrix};

    ghost Value = { OpenMatrix };

    ghost view = { λ m. record { rows = m.rows.items; sequences = m.sequences.items; first = m.first } };
}

impl Matrix {
    pub fn new(alloc: Global) -> Matrix
        ensures { result ≡ record { rows = []; sequences = []; first = 0 } }
    {
        Matrix {
            rows: Vec::new(alloc),
            sequences: Vec::new(alloc),
            first: 0,
        }
    }

    /// Whether no sequence is open.
    pub fn is_closed(&self) -> bool
        requires { self.now.first ≤ length self.now.rows }
        ensures { IsTrue result ↔ (self.now.first ≡ length self.now.rows) }
    {
        self.first == self.rows.len()
    }

    /// Whether a row or an end may stand at this address.
    fn may_follow(&self, address: u32) -> bool
        requires { self.now.first ≤ length self.now.rows }
        ensures { result ≡ may_follow self.now address }
    {
        last_address(&self.rows[self.first..]) <= address
    }

    /// Adds a row to the open sequence. It is damaged where the address is below the last one.
    pub fn add_row(&mut self, row: Row) -> Result<(), Fault>
        requires { self.old.first ≤ length self.old.rows }
        ensures ok { OnOk result (IsTrue (may_follow self.old row.addr) × (self.new ≡ with_row self.old row)) }
        ensures damaged { result ≡ Err Fault.Damaged
            → (may_follow self.old row.addr ≡ false) × (self.new ≡ self.old) }
    {
        if !self.may_follow(row.addr) {
            return Err(Fault::Damaged);
        }
        self.rows.push(row)?;
        Ok(())
    }

    /// Ends the open sequence, which is none where it has no row. It is damaged where the end is below the
    /// last row.
    pub fn end_sequence(&mut self, end: u32) -> Result<(), Fault>
        requires { self.old.first ≤ length self.old.rows }
        ensures ok { OnOk result (IsTrue (may_follow self.old end) × (self.new ≡ with_end self.old end)) }
        ensures damaged { result ≡ Err Fault.Damaged
            → (may_follow self.old end ≡ false) × (self.new ≡ self.old) }
    {
        if !self.may_follow(end) {
            return Err(Fault::Damaged);
        }
        let last = self.rows.len();
        if self.first < last {
            let first = self.first;
            self.sequences.push(Sequence { first, last, end })?;
        }
        self.first = last;
        Ok(())
    }

    pub fn rows(&self) -> &[Row]
        ensures { result.now ≡ self.now.rows }
    {
        &self.rows
    }

    pub fn sequences(&self) -> &[Sequence]
        ensures { result.now ≡ self.now.sequences }
    {
        &self.sequences
    }

    /// How many rows and how many sequences there are.
    pub fn lens(&self) -> (usize, usize)
        ensures rows { result.0 ≡ length self.now.rows }
        ensures sequences { result.1 ≡ length self.now.sequences }
    {
        (self.rows.len(), self.sequences.len())
    }

    /// Keeps so many rows and sequences, with no sequence open.
    pub fn cut(&mut self, rows: usize, sequences: usize)
        requires { rows ≤ length self.old.rows }
        ensures { self.new ≡ record {
          rows = take rows self.old.rows;
          sequences = take sequences self.old.sequences;
          first = rows;
        } }
    {
        self.rows.truncate(rows);
        self.sequences.truncate(sequences);
        self.first = rows;
    }

    /// Has each row name the number that stands for its file.
    pub fn rename(&mut self, numbers: &[u32])
        requires { AllByRecursion (λ row. row.file < length numbers.now) self.old.rows }
        ensures { self.new ≡ record {
          rows = map (renamed_row numbers.now) self.old.rows;
          sequences = self.old.sequences;
          first = self.old.first;
        } }
    {
        rename_rows(&mut self.rows, numbers);
    }
}
