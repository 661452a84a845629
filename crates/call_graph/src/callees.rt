//! Call arcs as a list of callees for each caller.

ghost use Rattle.std.specs.Prelude.{◌≡◌, [], All, IfOk, replicate};
ghost use Rattle.call_graph.specs.Groups.{IsWithin};
ghost use Rattle.call_graph.specs.inner.Rows.{IsRows, lists};

use crate::arc::CallArc;
use std::alloc::{AllocError, Global};

/// An empty list for each function.
fn empty_rows(alloc: Global, functions: usize) -> Result<Vec<Vec<usize>>, AllocError>
    ensures { IfOk result (λ rows. lists rows.items ≡ replicate functions []) }
{
    let mut rows = Vec::with_capacity(alloc, functions)?;
    'functions: for _function in 0..functions {
        rows.push(Vec::new(alloc))?;
    }
    Ok(rows)
}

/// For each function the functions that it calls, once for each arc.
pub(crate) fn callees_of(
    alloc: Global,
    functions: usize,
    arcs: &[CallArc],
) -> Result<Vec<Vec<usize>>, AllocError>
    requires { All (IsWithin functions) arcs.now }
    ensures { IfOk result (λ rows. IsRows functions arcs.now (lists rows.items)) }
{
    let mut rows = empty_rows(alloc, functions)?;
    'arcs: for arc in arcs {
        rows[arc.caller].push(arc.callee)?;
    }
    Ok(rows)
}
