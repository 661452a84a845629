//! Ids that stand for names which were written before.

ghost use Rattle.std.specs.Prelude.{◌≡◌, [], ◌==◌, IfOk, OnOk, length, not};
ghost use Rattle.cg_format.specs.Marks.{add_number, id, is_in};

use arc_costs::KeyTree;
use byte_text::OutOfMemory;
use std::alloc::Global;
use std::marker::Model;

/// The numbers of files or of functions whose names are written, in the order of first writing.
#[derive(Drop)]
pub struct Ids {
    written: KeyTree<u64, ()>,
}

impl Model for Ids {
    ghost use Rattle.std.specs.Prelude.{List, ℕ};
    ghost use Rattle.std.specs.Map.{keys_of};

    ghost Value = { List ℕ };

    ghost view = { λ i. keys_of i.written.entries };
}

/// An id, and whether it stands for a name that wasn't written before.
#[derive(Clone, Copy, Debug)]
pub(crate) struct Id {
    pub(crate) number: u64,
    pub(crate) is_new: bool,
}

impl Ids {
    pub(crate) fn new(alloc: Global) -> Ids
        ensures { result ≡ [] }
    {
        Ids {
            written: KeyTree::new(alloc),
        }
    }

    /// Whether no name is written.
    pub(crate) fn is_empty(&self) -> bool
        ensures { result ≡ (length self.now == 0) }
    {
        self.written.len() == 0
    }

    /// The id of a file or a function by its number.
    pub(crate) fn id_of(&mut self, number: u64) -> Result<Id, OutOfMemory>
        ensures written { OnOk result (self.new ≡ add_number self.old number) }
        ensures number { IfOk result (λ r. r.number ≡ id self.old number) }
        ensures is_new { IfOk result (λ r. r.is_new ≡ not (is_in self.old number)) }
    {
        let written = self.written.len();
        if let Some(place) = self.written.index_of(&number) {
            return Ok(Id {
                number: place as u64 + 1,
                is_new: false,
            });
        }
        self.written.push(number, ())?;
        Ok(Id {
            number: written as u64 + 1,
            is_new: true,
        })
    }
}
