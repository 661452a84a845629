//! Where the next candidates of a section begin.

ghost use Rattle.std.specs.Prelude.{◌≡◌, ◌<◌, ◌∷◌, ◌++◌, [], ℕ, List, IfOk, length};
ghost use Rattle.sym_map.specs.inner.Limits.{Limit, limit_of, AreLowest, IsBelow, IsLowest, IsNextValue};

use byte_text::OutOfMemory;
use elf_read::{Elf, Symbol};
use std::alloc::Global;

/// The least value of a section's candidates, and the next greater one.
#[derive(Clone, Copy)]
struct Lowest {
    value: u32,
    next: Option<u32>,
}

/// The least value above one that is no greater than any.
fn next_value(lowest: Option<Lowest>, value: u32) -> Option<u32>
    ensures { (limits : List Limit) (section : ℕ) → IsLowest limits section lowest → IsBelow limits value
        → IsNextValue limits (record { section = section; value = value }) result }
{
    match lowest {
        Some(lowest) if lowest.value == value => lowest.next,
        Some(lowest) => Some(lowest.value),
        None => None,
    }
}

/// The least values of the candidates that were passed, from the greatest value down, for each section.
#[derive(Drop)]
pub(crate) struct Limits {
    sections: Vec<Option<Lowest>>,
}

impl Limits {
    pub(crate) fn new(alloc: Global, elf: &Elf<'_>) -> Result<Limits, OutOfMemory>
        ensures none { IfOk result (λ limits. AreLowest [] limits.sections.items) }
        ensures all { IfOk result (λ limits. length limits.sections.items ≡ length elf.now.sections) }
    {
        let sections = vec![in alloc; None; elf.section_count()]?;
        Ok(Limits { sections })
    }

    /// Passes a candidate. The least value of its section that is above its own.
    pub(crate) fn pass(&mut self, symbol: &Symbol) -> Option<u32>
        requires { symbol.now.section < length self.old.sections.items }
        ensures next { (limits : List Limit) → AreLowest limits self.old.sections.items
            → IsBelow limits symbol.now.value → IsNextValue limits (limit_of symbol.now) result }
        ensures passed { (limits : List Limit) → AreLowest limits self.old.sections.items
            → IsBelow limits symbol.now.value → AreLowest (limits ++ limit_of symbol.now ∷ []) self.new.sections.items }
        ensures all { length self.new.sections.items ≡ length self.old.sections.items }
    {
        let section = usize::from(symbol.section);
        let value = symbol.value;
        let next = next_value(self.sections[section], value);
        self.sections[section] = Some(Lowest { value, next });
        next
    }
}
