//! Builds the map of a program.

ghost use Rattle.std.specs.Prelude.{◌≡◌, ◌<◌, ◌^◌, ◌↔◌, ℕ, IfOk, Contains};
ghost use Rattle.dwarf_line.specs.Rows.{sequences_of};
ghost use Rattle.sym_map.specs.SymbolMap.{identities, identity_of, location_of, place_of, is_entry_at};
ghost use Rattle.sym_map.specs.SymbolMap.{by_identity, entry_of, IsFunc};
ghost use Rattle.std.specs.Cmp.Lexicographic.{slice_cmp};
ghost use Rattle.std.specs.List.Sorted.{IsStrictlySortedBy};
ghost use Rattle.std.specs.Ordering.{nat_cmp};
ghost use Rattle.sym_map.specs.Places.{Identity, functions_of, files_of, location_at, is_entry, IsEntryOf};
ghost use Rattle.event_costs.specs.declared.numbers.FuncId.{FuncId as FuncIdValue};
ghost use Rattle.std.specs.Prelude.{List};

use crate::entries::entries;
use crate::known_ranges::Ranges;
use crate::lines::read_lines;
use crate::place_index::PlaceIndex;
use crate::symbol_map::SymMap;
use crate::symbols::read_symbols;
use byte_text::OutOfMemory;
use dwarf_line::Rows;
use elf_read::Elf;
use event_costs::Place;
use std::alloc::Global;

/// Builds the map of a program from its symbols and its line table. Functions are numbered in the order of the bytes of
/// their files and then of their names, and files in the order of their bytes; `???` is among both. The only refusal is
/// want of memory.
pub fn build(alloc: Global, elf: &Elf<'_>, rows: &Rows) -> Result<SymMap, OutOfMemory>
    // each address is of the function, the file and the line that the symbols and the line table give it
    ensures places { IfOk result (λ m. (address : ℕ) → address < 2 ^ 32
        → location_of m (place_of m address) ≡ location_at elf.now (sequences_of rows.now) address) }
    ensures entry_addresses { IfOk result
        (λ m. (address : ℕ) → address < 2 ^ 32 → is_entry_at m address ≡ is_entry elf.now address) }
    ensures entries { IfOk result (λ m. (func : FuncIdValue) → IsFunc m func
        → IsEntryOf elf.now (sequences_of rows.now) (identity_of m func) (entry_of m func)) }
    // functions are the pairs of file and name, each once, in the order of the files' bytes and then of the names'
    ensures functions { IfOk result (λ m. (identity : Identity)
        → Contains (identities m) identity ↔ Contains (functions_of elf.now (sequences_of rows.now)) identity) }
    ensures functions_rise { IfOk result (λ m. IsStrictlySortedBy by_identity (identities m)) }
    ensures files { IfOk result (λ m. (name : List ℕ)
        → Contains m.files name ↔ Contains (files_of (sequences_of rows.now)) name) }
    ensures files_rise { IfOk result (λ m. IsStrictlySortedBy (slice_cmp nat_cmp) m.files) }
{
    let lines = read_lines(alloc, rows)?;
    let symbols = read_symbols(alloc, elf, &lines)?;
    let entries = entries(alloc, &symbols.ranges, symbols.functions.len())?;
    let ranges = Ranges {
        symbols: symbols.ranges,
        lines: lines.ranges,
        by_address: false,
    };
    let unknown = Place {
        func: symbols.unknown,
        file: lines.unknown,
        line: 0,
    };
    let index = PlaceIndex::new(alloc, elf, &ranges, unknown);
    Ok(SymMap {
        alloc,
        functions: symbols.functions,
        files: lines.names,
        entries,
        ranges,
        unknown,
        index,
    })
}
