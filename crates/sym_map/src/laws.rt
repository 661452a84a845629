//! What holds of every map.

ghost use Rattle.sym_map.specs.SymbolMap.{IsSound};

use crate::symbol_map::SymMap;

/// Every map has cleaned names, functions that differ, files that differ, and lines of 32 bits. It does nothing: its
/// contract is a law.
pub fn maps_are_sound(syms: &SymMap)
    ensures { IsSound syms.now }
{
    let _ranges = &syms.ranges;
}
