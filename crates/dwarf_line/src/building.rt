//! What was read of a section so far.

ghost use Rattle.std.specs.Prelude.{◌≡◌, ◌≤◌, ◌<◌, ◌+◌, ◌^◌, length, None, IfOk, OnOk};
ghost use Rattle.dwarf_line.specs.inner.Matrix.{Keeps};
ghost use Rattle.dwarf_line.specs.Unit.{unit_of, bodies_of};
ghost use Rattle.dwarf_line.specs.inner.Fronts.{front_of, unit_len};
ghost use Rattle.dwarf_line.specs.inner.Building.{nothing_read, with_units, Adds};

use crate::contents::Contents;
use crate::entry::Strings;
use crate::fault::Fault;
use crate::files::Files;
use crate::matrix::{Matrix, Numbering};
use crate::unit::Unit;
use crate::{file_text, program};
use byte_text::OutOfMemory;
use std::alloc::Global;
use std::marker::Model;

/// Rows and sequences, the texts of all files, and how many units were accepted.
#[derive(Drop)]
pub struct Builder {
    pub matrix: Matrix,
    pub files: Files,
    pub unit_count: usize,
}

impl Model for Builder {
    ghost use Rattle.dwarf_line.specs.inner.Building.{Building};

    ghost Value = { Building };

    ghost view = { λ b. record { matrix = b.matrix; files = b.files; unit_count = b.unit_count } };
}

impl Builder {
    /// Nothing but the text of an unknown file, which has the number 0.
    pub fn new(alloc: Global) -> Result<Builder, OutOfMemory>
        ensures { IfOk result (λ builder. builder ≡ nothing_read) }
    {
        Ok(Builder {
            matrix: Matrix::new(alloc),
            files: Files::new(alloc)?,
            unit_count: 0,
        })
    }

    /// Reads a unit. Where it is damaged, what was read before stays in front of the matrix.
    #[tactic(auto, unfolding(crate::specs::Unit::unit_of))]
    fn read_unit<'a>(
        &mut self,
        alloc: Global,
        body: &'a [u8],
        strings: &Strings<'a>,
    ) -> Result<(), Fault>
        requires closed { self.old.matrix.first ≡ length self.old.matrix.rows }
        requires room { length self.old.files + length body.now ≤ 2 ^ 32 }
        requires count { self.old.unit_count < 2 ^ 63 }
        ensures ok { OnOk result (Adds (unit_of strings.now body.now) self.old self.new) }
        ensures room { OnOk result (length self.new.files ≤ length self.old.files + length body.now) }
        ensures damaged { result ≡ Err Fault.Damaged → (unit_of strings.now body.now ≡ None)
            × Keeps self.old.matrix self.new.matrix
            × (self.new.files ≡ self.old.files) × (self.new.unit_count ≡ self.old.unit_count) }
    {
        let contents = Contents::read(alloc, body, strings)?;
        let numbering = Numbering {
            before: self.files.len() as u64,
            count: contents.files.len() as u64,
        };
        let matrix = &mut self.matrix;
        program::run(&contents.constants, contents.program, numbering, matrix)?;
        let texts = &mut self.files;
        file_text::push_texts(
            alloc,
            strings,
            &contents.directories,
            &contents.files,
            texts,
        )?;
        self.unit_count += 1;
        Ok(())
    }

    /// Adds a unit where it is accepted.
    pub fn add<'a>(
        &mut self,
        alloc: Global,
        unit: Unit<'a>,
        strings: &Strings<'a>,
    ) -> Result<(), OutOfMemory>
        requires closed { self.old.matrix.first ≡ length self.old.matrix.rows }
        requires room { length self.old.files + unit_len (front_of unit) ≤ 2 ^ 32 }
        requires count { self.old.unit_count < 2 ^ 63 }
        ensures added { OnOk result
            (self.new ≡ with_units strings.now self.old (bodies_of (front_of unit.entry))) }
        ensures closed { OnOk result (self.new.matrix.first ≡ length self.new.matrix.rows) }
        ensures room { OnOk result
            (length self.new.files ≤ length self.old.files + unit_len (front_of unit.entry)) }
        ensures count { OnOk result (self.new.unit_count ≤ self.old.unit_count + 1) }
    {
        let Unit::Body(body) = unit else {
            return Ok(());
        };
        let (rows, sequences) = self.matrix.lens();
        match self.read_unit(alloc, body, strings) {
            Ok(()) => Ok(()),
            Err(Fault::Damaged) => {
                self.matrix.cut(rows, sequences);
                Ok(())
            }
            Err(Fault::OutOfMemory(refused)) => Err(refused),
        }
    }
}
