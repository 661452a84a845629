//! The symbols of all addresses, and the functions that they stand for.

ghost use Rattle.std.specs.Prelude.{IfOk};
ghost use Rattle.sym_map.specs.inner.Rising.{Rise};
ghost use Rattle.sym_map.specs.inner.SymbolTable.{AreSymbolsOf};

use crate::cut::cut_taking;
use crate::function_numbers::number_functions;
use crate::functions::Functions;
use crate::lines::Lines;
use crate::nameless::numbered_by;
use crate::range::Range;
use crate::ranked::{Preferred, sorted_candidates};
use crate::symbol_span::symbol_spans;
use byte_text::OutOfMemory;
use elf_read::Elf;
use event_costs::FuncId;
use std::alloc::Global;

/// The symbols of all addresses.
#[derive(Drop)]
pub(crate) struct Symbols {
    /// The functions, in rising order.
    pub(crate) functions: Functions,
    /// The number of the unknown function.
    pub(crate) unknown: FuncId,
    pub(crate) ranges: Vec<Range>,
}

/// Reads the symbols of a program whose lines are known.
pub(crate) fn read_symbols(
    alloc: Global,
    elf: &Elf<'_>,
    lines: &Lines,
) -> Result<Symbols, OutOfMemory>
    requires { Rise lines.now.ranges.items }
    ensures { IfOk result (λ symbols. AreSymbolsOf elf.now lines.now.ranges.items lines.now.unknown
        symbols.functions symbols.unknown symbols.ranges.items) }
{
    let preferred = sorted_candidates(alloc, elf)?;
    let numbered = number_functions(alloc, lines, &preferred)?;
    let Preferred { ranked, names } = preferred;
    drop(names);
    let placed = numbered_by(ranked, &numbered.numbers);
    let spans = symbol_spans(alloc, elf, &placed)?;
    drop(placed);
    let ranges = cut_taking(alloc, spans)?;
    Ok(Symbols {
        functions: numbered.functions,
        unknown: FuncId(numbered.unknown as u32),
        ranges,
    })
}
