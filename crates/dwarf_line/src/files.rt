//! The texts of all files, each kept once for files side by side that share it.

ghost use Rattle.std.specs.Prelude.{◌≡◌, ◌∷◌, [], ◌-◌, ◌++◌, ◌<◌, ◌^◌, length, slice_index_or, IfOk, OnOk};
ghost use Rattle.std.specs.List.{AllByRecursion};
ghost use Rattle.dwarf_line.specs.FileText.{unknown};
ghost use Rattle.dwarf_line.specs.inner.Files.{IsNamed};

use crate::matrix::Matrix;
use byte_text::{OutOfMemory, Text, UNKNOWN};
use std::alloc::Global;
use std::marker::Model;

/// For each file the number of its text. Contracts see the text of each file.
#[derive(Drop)]
pub struct Files {
    numbers: Vec<u32>,
    texts: Vec<Text>,
}

impl Model for Files {
    ghost use Rattle.std.specs.Prelude.{List, ℕ};
    ghost use Rattle.dwarf_line.specs.inner.Files.{files_by, AreNumbered};

    ghost Value = { List (List ℕ) };

    ghost view = { λ f. files_by f.numbers.items f.texts.items };

    ghost invariant = { λ f. AreNumbered f.numbers.items f.texts.items };
}

impl Files {
    /// Nothing but an unknown file, which has the number 0.
    pub fn new(alloc: Global) -> Result<Files, OutOfMemory>
        ensures { IfOk result (λ files. files ≡ unknown ∷ []) }
    {
        let mut texts = Vec::new(alloc);
        texts.push(Text::from_bytes(alloc, UNKNOWN)?)?;
        let mut numbers = Vec::new(alloc);
        numbers.push(0)?;
        Ok(Files { numbers, texts })
    }

    /// How many files there are.
    pub fn len(&self) -> usize
        ensures { result ≡ length self.now }
    {
        self.numbers.len()
    }

    /// Adds a file of this text.
    pub fn push(&mut self, text: Text) -> Result<(), OutOfMemory>
        requires { length self.old < 2 ^ 32 }
        ensures { OnOk result (self.new ≡ self.old ++ text ∷ []) }
    {
        let count = self.texts.len();
        self.texts.push(text)?;
        if let Err(refused) = self.numbers.push(count as u32) {
            self.texts.truncate(count);
            return Err(OutOfMemory::from(refused));
        }
        Ok(())
    }

    /// Adds a file of the last one's text.
    pub fn push_again(&mut self) -> Result<(), OutOfMemory>
        requires { 0 < length self.old }
        ensures { OnOk result (self.new ≡ self.old ++ slice_index_or self.old (length self.old - 1) [] ∷ []) }
    {
        let last = self.numbers[self.numbers.len() - 1];
        self.numbers.push(last)?;
        Ok(())
    }

    /// Has the rows name texts by their own numbers, and gives the texts.
    pub fn name_rows(self, matrix: &mut Matrix) -> Vec<Text>
        requires { AllByRecursion (λ row. row.file < length self) matrix.old.rows }
        ensures { IsNamed self matrix.old matrix.new result.items }
    {
        matrix.rename(&self.numbers);
        self.texts
    }
}
