//! What names a function, by the numbers of its texts.

ghost use Rattle.std.specs.Prelude.{◌≡◌};

use byte_text::OutOfMemory;
use key_tables::{Key, TextKey};
use std::alloc::Global;

/// A function: its object, its file and its name, each by its number among some texts.
#[derive(Clone, Copy, PartialEq, Eq, PartialOrd, Ord)]
pub struct FunctionNumbers {
    pub object: usize,
    pub file: usize,
    pub name: usize,
}

impl Key for FunctionNumbers {
    ghost use Rattle.cg_read.specs.inner.Same.{same_function_numbers};

    ghost exact = { same_function_numbers };

    fn again(&self, _alloc: Global) -> Result<Self, OutOfMemory> {
        Ok(*self)
    }
}

impl TextKey for FunctionNumbers {
    ghost use Rattle.std.specs.Prelude.{max};

    ghost latest = { λ f. max f.object (max f.file f.name) };

    fn latest(&self) -> usize {
        self.object.max(self.file.max(self.name))
    }
}
