//! Groups of functions that reach each other.

ghost use Rattle.std.specs.Prelude.{◌≡◌, ◌<◌, length, slice_index, slice_index_or, false};

use std::marker::Model;

/// The group of each function, and which groups are cycles: those of two functions or more, and those of one that
/// calls itself.
#[derive(Debug, Drop)]
pub struct Groups {
    pub(crate) number: Vec<usize>,
    pub(crate) cyclic: Vec<bool>,
}

impl Model for Groups {
    ghost use Rattle.call_graph.specs.Groups.{Grouping, grouping};

    ghost Value = { Grouping };

    ghost view = { λ g. grouping g.number.items g.cyclic.items };
}

impl Groups {
    /// How many groups there are.
    pub fn count(&self) -> usize
        ensures { result ≡ length self.now.cyclic }
    {
        self.cyclic.len()
    }

    /// The number of a function's group, from 0.
    pub fn group_of(&self, func: usize) -> usize
        requires { func < length self.now.number }
        ensures { result ≡ slice_index self.now.number func }
    {
        self.number[func]
    }

    /// Whether a group is a cycle.
    pub fn is_cycle(&self, group: usize) -> bool
        requires { group < length self.now.cyclic }
        ensures { result ≡ slice_index_or self.now.cyclic group false }
    {
        self.cyclic[group]
    }
}
