//! The functions of a program.

ghost use Rattle.std.specs.Prelude.{◌≡◌, ◌<◌, IfOk, Some, length, slice_get};

use crate::function::Function;
use byte_text::OutOfMemory;
use event_costs::FileId;
use name_numbers::{FileName, FileNames};
use std::alloc::Global;
use std::marker::Model;

/// Functions by their numbers: each is a cleaned name in the file in which the function begins.
#[derive(Drop)]
pub(crate) struct Functions {
    pub(crate) names: FileNames,
}

impl Model for Functions {
    ghost use Rattle.std.specs.Prelude.{List, map};
    ghost use Rattle.sym_map.specs.declared.function.Function.{Function};
    ghost use Rattle.sym_map.specs.inner.NameKeys.{function_of_name};

    ghost Value = { List Function };

    ghost view = { λ f. map function_of_name f.names };
}

impl Functions {
    pub(crate) fn len(&self) -> usize
        ensures { result ≡ length self.now }
    {
        self.names.len()
    }

    /// The function of a number.
    pub(crate) fn get(&self, number: usize) -> Function<'_>
        requires { number < length self.now }
        ensures { slice_get self.now number ≡ Some result }
    {
        let FileName { file, name } = self.names.get(number);
        Function {
            home: FileId(file),
            name,
        }
    }

    /// The same functions once more.
    pub(crate) fn try_clone(&self, alloc: Global) -> Result<Functions, OutOfMemory>
        ensures { IfOk result (λ functions. functions ≡ self.now) }
    {
        let names = self.names.try_clone(alloc)?;
        Ok(Functions { names })
    }
}
