//! The groups of a list of arcs.

ghost use Rattle.std.specs.Prelude.{ℕ, All, IfOk};
ghost use Rattle.call_graph.specs.Groups.{IsGrouping, IsWithin, is_member};
ghost use Rattle.call_graph.specs.Reach.{IsGroup, Steps};

use crate::arc::CallArc;
use crate::callees::callees_of;
use crate::cyclic::cycles_of;
use crate::groups::Groups;
use crate::pass::{groups_met, pass_over};
use std::alloc::{AllocError, Global};

/// The groups of so many functions, which go by the numbers from 0, over these arcs.
pub fn groups_of(alloc: Global, functions: usize, arcs: &[CallArc]) -> Result<Groups, AllocError>
    requires { All (IsWithin functions) arcs.now }
    ensures groups { IfOk result (λ g. IsGrouping functions arcs.now g) }
    ensures tests { IfOk result (λ g. (c : ℕ) → IsGroup (Steps arcs.now) (is_member g c)) }
{
    let callees = callees_of(alloc, functions, arcs)?;
    let pass = pass_over(alloc, &callees)?;
    let number = groups_met(alloc, &pass.states)?;
    let cyclic = cycles_of(alloc, &number, pass.count, arcs)?;
    Ok(Groups { number, cyclic })
}
