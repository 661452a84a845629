//! Which groups are cycles.

ghost use Rattle.std.specs.Prelude.{◌≡◌, All, IfOk, length};
ghost use Rattle.call_graph.specs.Groups.{IsNumbering, IsWithin, TellCycles};
ghost use Rattle.call_graph.specs.Reach.{Steps};

use crate::arc::CallArc;
use std::alloc::{AllocError, Global};

/// For each group whether it is a cycle: an arc leads from one of its functions to one of its functions.
pub(crate) fn cycles_of(
    alloc: Global,
    number: &[usize],
    count: usize,
    arcs: &[CallArc],
) -> Result<Vec<bool>, AllocError>
    requires within { All (IsWithin (length number.now)) arcs.now }
    requires numbered { IsNumbering (length number.now) (Steps arcs.now) number.now count }
    ensures count { IfOk result (λ cyclic. length cyclic.items ≡ count) }
    ensures cycles { IfOk result (λ cyclic. TellCycles (Steps arcs.now) number.now cyclic.items) }
{
    let mut cyclic = vec![in alloc; false; count]?;
    'arcs: for arc in arcs {
        let group = number[arc.caller];
        if number[arc.callee] == group {
            cyclic[group] = true;
        }
    }
    Ok(cyclic)
}
