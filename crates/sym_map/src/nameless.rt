//! Candidates without their names.

ghost use Rattle.std.specs.Prelude.{◌≡◌, ◌<◌, ◌^◌, All, length, map};
ghost use Rattle.sym_map.specs.inner.Naming.{nameless};

use elf_read::{Range, Symbol};
use std::marker::Model;

/// A candidate without the place of its name, and a number for it: the rank of its name, and later that of its function.
/// It has half the bytes of a symbol, since lists of candidates are sorted, and read again and again.
#[derive(Drop)]
pub(crate) struct Nameless {
    value: u32,
    size: u32,
    pub(crate) number: u32,
    section: u16,
    kind: u8,
    binding: u8,
}

impl Model for Nameless {
    ghost use Rattle.sym_map.specs.inner.Naming.{NumberedSymbol};

    ghost Value = { NumberedSymbol };

    ghost view = { λ n. record {
      symbol = record {
        name = record { start = 0; end = 0 };
        value = n.value;
        size = n.size;
        kind = n.kind;
        binding = n.binding;
        section = n.section;
      };
      number = n.number;
    } };
}

impl Nameless {
    pub(crate) fn new(symbol: &Symbol, number: u32) -> Nameless
        ensures { result ≡ record { symbol = nameless symbol.now; number = number } }
    {
        Nameless {
            value: symbol.value,
            size: symbol.size,
            number,
            section: symbol.section,
            kind: symbol.kind,
            binding: symbol.binding,
        }
    }

    /// The symbol, with no place of a name.
    pub(crate) fn symbol(&self) -> Symbol
        ensures { result ≡ self.now.symbol }
    {
        Symbol {
            name: Range { start: 0, end: 0 },
            value: self.value,
            size: self.size,
            kind: self.kind,
            binding: self.binding,
            section: self.section,
        }
    }
}

/// The candidates, each with the number at its place.
pub(crate) fn numbered_by(candidates: Vec<Nameless>, numbers: &[usize]) -> Vec<Nameless>
    requires as_many { length numbers.now ≡ length candidates.items }
    requires few { All (λ number. number < 2 ^ 32) numbers.now }
    ensures symbols { map (λ c. c.symbol) result.items ≡ map (λ c. c.symbol) candidates.items }
    ensures numbers { map (λ c. c.number) result.items ≡ numbers.now }
{
    let mut numbered = candidates;
    'numbered: for (i, number) in numbers.iter().enumerate() {
        numbered[i].number = *number as u32;
    }
    numbered
}
