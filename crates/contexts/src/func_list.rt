//! Lists of functions.

ghost use Rattle.std.specs.Prelude.{◌≡◌, IfOk};
ghost use Rattle.contexts.specs.Contexts.{function_of};

use byte_text::OutOfMemory;
use event_costs::FuncId;
use std::alloc::Global;
use std::marker::Model;

/// A calling context: a function and those that called it, the nearest first. Contracts see the list of their numbers.
#[derive(Debug, Drop)]
pub struct FuncList {
    pub items: Vec<FuncId>,
}

impl Model for FuncList {
    ghost use Rattle.std.specs.Prelude.{List, ℕ};
    ghost use Rattle.event_costs.specs.FuncSet.{numbers};

    ghost Value = { List ℕ };

    ghost view = { λ l. numbers l.items.items };
}

impl FuncList {
    /// The functions' numbers.
    pub fn numbers(&self, alloc: Global) -> Result<Vec<u32>, OutOfMemory>
        ensures { IfOk result (λ numbers. numbers.items ≡ self.now) }
    {
        let mut numbers = Vec::with_capacity(alloc, self.items.len())?;
        'functions: for func in &self.items {
            numbers.push(func.0)?;
        }
        Ok(numbers)
    }

    /// The first function, 0 where there is none.
    pub fn first(&self) -> FuncId
        ensures { result ≡ function_of self.now }
    {
        match self.items.first() {
            Some(func) => *func,
            None => FuncId(0),
        }
    }
}
