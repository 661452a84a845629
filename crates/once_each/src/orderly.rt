//! Which lists of events the laws speak of.

ghost use Rattle.std.specs.Prelude.{List};
ghost use Rattle.sym_map.specs.SymbolMap.{SymbolMap};
ghost use Rattle.shadow_stack.specs.Traces.{CountedEvent};
ghost use Rattle.once_each.specs.Orderly.{FitTops, GoOn};

/// Where each event begins at the pc to which its thread's last one led, in any interleaving, each pc has the function
/// of the top of its thread's stack.
pub fn events_that_go_on_fit_the_tops()
    ensures { (syms : SymbolMap) (trace : List CountedEvent) → GoOn trace → FitTops syms trace }
{}
