//! Profiles that were read.

ghost use Rattle.std.specs.Prelude.{◌<◌, ℕ, List, length};
ghost use Rattle.sym_map.specs.SymbolMap.{SymbolMap};
ghost use Rattle.shadow_stack.specs.Traces.{CountedEvent};
ghost use Rattle.cg_read.specs.Profiles.{Contents};
ghost use Rattle.once_each.specs.Graphs.{AreApartIn, AreOfMap, AreOwn, AreOwnIn, IsOwn, graph};
ghost use Rattle.once_each.specs.Profiles.{IsProfileOf};
ghost use Rattle.once_each.specs.Texts.{IsReadOf, Naming, numbers_in};

/// A profile that was read names functions and files by texts. Where its rows, with their texts, are those of a trace's
/// parts, it has these rows under numbers of its own: the places of the texts, so that equal texts have equal numbers.
pub fn profiles_are_numbered_by_their_texts()
    ensures rows { (syms : SymbolMap) (trace : List CountedEvent) (names : Naming) (p : Contents)
        → IsReadOf syms trace names p → IsProfileOf syms trace (numbers_in p names) p }
    // Functions that have texts of their own have numbers of their own.
    ensures apart { (syms : SymbolMap) (trace : List CountedEvent) (names : Naming) (p : Contents)
        → IsReadOf syms trace names p → AreApartIn (graph syms trace) names.func
        → AreApartIn (graph syms trace) (numbers_in p names).func }
    // Where each function of the map has a text of its own, each that stands in the profile has a number of its own,
    // and so has each that calls or is called.
    ensures own { (syms : SymbolMap) (trace : List CountedEvent) (names : Naming) (p : Contents) (f : ℕ)
        → IsReadOf syms trace names p → AreOwn syms names.func
        → f < length syms.functions → (numbers_in p names).func f < length p.functions
        → IsOwn syms (numbers_in p names).func f }
    ensures parts { (syms : SymbolMap) (trace : List CountedEvent) (names : Naming) (p : Contents)
        → IsReadOf syms trace names p → AreOwn syms names.func → AreOfMap syms trace
        → AreOwnIn syms (graph syms trace) (numbers_in p names).func }
{}
