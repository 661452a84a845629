//! The groups of a profile.

ghost use Rattle.std.specs.Prelude.{ℕ, IfOk};
ghost use Rattle.cycles.specs.Costs.{IsGroupsOf, call_arcs};
ghost use Rattle.call_graph.specs.Groups.{is_member};
ghost use Rattle.call_graph.specs.Reach.{IsGroup, Steps};

use crate::arcs::arcs_of_rows;
use byte_text::OutOfMemory;
use call_graph::{Groups, groups_of};
use cg_read::Profile;
use std::alloc::Global;

/// The groups of a profile's functions over its call rows. A function is in one group with those that it reaches and
/// that reach it.
pub fn groups(alloc: Global, profile: &Profile) -> Result<Groups, OutOfMemory>
    ensures groups { IfOk result (λ groups. IsGroupsOf profile.now groups) }
    ensures tests { IfOk result (λ groups. (c : ℕ) → IsGroup (Steps (call_arcs profile.now)) (is_member groups c)) }
{
    let arcs = arcs_of_rows(alloc, &profile.call_rows)?;
    let groups = groups_of(alloc, profile.functions.len(), &arcs)?;
    Ok(groups)
}
