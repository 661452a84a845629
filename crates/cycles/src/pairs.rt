//! The pairs of caller and callee of call rows.

ghost use Rattle.std.specs.Prelude.{◌≡◌, ◌<◌, ℕ, IfOk, OnOk, length};
ghost use Rattle.cycles.specs.inner.Pairs.{AreFound, IsPairs, Keeps, arc_at};

use crate::arcs::arc_of_row;
use byte_text::OutOfMemory;
use call_graph::CallArc;
use cg_read::CallRow;
use std::alloc::Global;
use std::collections::BTreeMap;

/// The pairs of caller and callee, each once, and for each row the number of its pair.
#[derive(Drop)]
pub(crate) struct Pairs {
    pub(crate) arcs: Vec<CallArc>,
    pub(crate) numbers: Vec<usize>,
}

/// The number of an arc, which is added behind the others where it is new. Arcs are found by an order, since a file may
/// choose such that any hash takes for one.
fn number_of(
    places: &mut BTreeMap<(usize, usize), usize>,
    arcs: &mut Vec<CallArc>,
    arc: CallArc,
) -> Result<usize, OutOfMemory>
    requires { AreFound arcs.old.items places.old }
    ensures found { OnOk result (AreFound arcs.new.items places.new) }
    ensures number { IfOk result (λ n. (n < length arcs.new.items) × (arc_at arcs.new.items n ≡ arc)) }
    ensures kept { OnOk result (Keeps arcs.old.items arcs.new.items) }
{
    let ends = (arc.caller, arc.callee);
    if let Some(number) = places.get(&ends) {
        return Ok(*number);
    }
    let number = arcs.len();
    places.insert(ends, number)?;
    arcs.push(arc)?;
    Ok(number)
}

/// The pairs of these rows.
pub(crate) fn pairs_of(alloc: Global, rows: &[CallRow]) -> Result<Pairs, OutOfMemory>
    ensures { IfOk result (λ pairs. IsPairs rows.now pairs.arcs.items pairs.numbers.items) }
{
    let mut places = BTreeMap::new(alloc);
    let mut arcs = Vec::new(alloc);
    let mut numbers = Vec::with_capacity(alloc, rows.len())?;
    'rows: for row in rows {
        let number = number_of(&mut places, &mut arcs, arc_of_row(row))?;
        numbers.push(number)?;
    }
    Ok(Pairs { arcs, numbers })
}
