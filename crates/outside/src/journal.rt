//! What is kept of what was done.

ghost use Rattle.std.specs.Prelude.{◌≡◌, ◌∷◌, ◌++◌, Some, [], option_copied, IfOk, is_ok, IsErr, IsTrue};
ghost use Rattle.outside.specs.inner.Entries.{KeepsOne};

use byte_text::OutOfMemory;
use std::alloc::Global;
use std::marker::Model;

/// Entries in their order. Where memory for one more is refused, that is all that is kept from then on.
#[derive(Debug, Drop)]
pub struct Journal<E> {
    entries: Result<Vec<E>, OutOfMemory>,
}

impl<E> Model for Journal<E> {
    ghost use Rattle.std.specs.Prelude.{List, Option, option_map};
    ghost use Rattle.std.specs.Result.{result_ok};

    ghost Value = { Option (List E) };

    ghost view = { λ k. option_map (λ entries. entries.items) (result_ok k.entries) };
}

impl<E> Journal<E> {
    pub fn new(alloc: Global) -> Journal<E>
        ensures { result ≡ Some [] }
    {
        Journal {
            entries: Ok(Vec::new(alloc)),
        }
    }

    /// The entries, None where they are kept no more.
    pub fn entries(&self) -> Option<&[E]>
        ensures { option_copied result ≡ self.now }
    {
        match &self.entries {
            Ok(entries) => Some(entries.as_slice()),
            Err(_) => None,
        }
    }
}

impl<E: Drop> Journal<E> {
    /// Keeps one more, or that memory for it was refused.
    pub fn add(&mut self, entry: Result<E, OutOfMemory>)
        ensures { KeepsOne self.old entry self.new }
    {
        if let Ok(entries) = &mut self.entries {
            if let Err(refused) = add_to(entries, entry) {
                self.entries = Err(refused);
            }
        }
    }
}

fn add_to<E: Drop>(entries: &mut Vec<E>, entry: Result<E, OutOfMemory>) -> Result<(), OutOfMemory>
    ensures { IfOk result (λ _. KeepsOne (Some entries.old.items) entry (Some entries.new.items)) }
{
    entries.push(entry?)?;
    Ok(())
}
