//! Sets of functions.

ghost use Rattle.std.specs.Prelude.{◌≡◌, ◌↔◌, IsTrue, Contains};
ghost use Rattle.event_costs.specs.FuncSet.{is_among};

use crate::numbers::FuncId;
use std::marker::Model;

/// Functions by rising number. Contracts see the list of them.
#[derive(Debug, Drop)]
pub struct FuncSet {
    pub items: Vec<FuncId>,
}

impl Model for FuncSet {
    ghost use Rattle.std.specs.Prelude.{List};
    ghost use Rattle.std.specs.List.Sorted.{IsStrictlyIncreasing};
    ghost use Rattle.event_costs.specs.FuncSet.{numbers};
    ghost use Rattle.event_costs.specs.declared.numbers.FuncId.{FuncId};

    ghost Value = { List FuncId };

    ghost view = { λ s. s.items.items };

    ghost invariant = { λ s. IsStrictlyIncreasing (numbers s.items.items) };
}

impl FuncSet {
    /// Whether the function is in the set.
    pub fn has(&self, func: FuncId) -> bool
        ensures found { IsTrue result ↔ Contains self.now func }
        ensures among { result ≡ is_among self.now func }
    {
        self.items.binary_search_by_key(&func.0, |it| it.0).is_ok()
    }
}
