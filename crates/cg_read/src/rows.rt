//! The rows of a profile, and what they name.

ghost use Rattle.std.specs.Prelude.{◌≡◌, ◌<◌, length, slice_index};

use byte_text::TextRef;
use std::marker::Model;
use std::mem;

/// A function: its object, its file and its name.
#[derive(Drop)]
pub struct FuncKey<'a> {
    pub object: TextRef<'a>,
    pub file: TextRef<'a>,
    pub name: TextRef<'a>,
}

/// One cost for each event. Contracts see the list of the numbers.
#[derive(Debug, Drop)]
pub struct CostList {
    pub items: Vec<u64>,
}

impl Model for CostList {
    ghost use Rattle.std.specs.Prelude.{List, ℕ};

    ghost Value = { List ℕ };

    ghost view = { λ c. c.items.items };
}

impl CostList {
    /// The cost at a place.
    pub fn at(&self, place: usize) -> u64
        requires { place < length self.now }
        ensures { result ≡ slice_index self.now place }
    {
        self.items[place]
    }
}

/// What was counted in a function at a line of a file. The function and the file are places in the profile's lists.
#[derive(Drop)]
pub struct SelfRow {
    pub func: usize,
    pub file: usize,
    pub line: u64,
    pub cost: CostList,
}

/// What was counted under calls of a function, which a function makes at a line of a file.
#[derive(Drop)]
pub struct CallRow {
    pub caller: usize,
    pub file: usize,
    pub line: u64,
    pub callee: usize,
    pub calls: u64,
    pub cost: CostList,
}

/// The items, of which none are left.
pub(crate) fn take_all<T: Drop>(items: &mut Vec<T>) -> Vec<T>
    ensures { result ≡ items.old }
{
    let alloc = *items.allocator();
    mem::replace(items, Vec::new(alloc))
}
