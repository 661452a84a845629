//! What a part says before its rows.

use crate::trigger::Trigger;
use byte_text::Text;
use cache_lru::Geometry;
use event_costs::ThreadNo;

/// The thread and the number of a part, and what its run was told.
#[derive(Debug, Drop)]
pub struct PartHead {
    pub thread: ThreadNo,
    /// The number of the part, from 1.
    pub part: u32,
    /// The program and its arguments, joined by spaces.
    pub cmd: Text,
    /// The program.
    pub object: Text,
    /// The first level's cache of instructions.
    pub i1: Geometry,
    /// The first level's cache of data.
    pub d1: Geometry,
    /// The last level's cache.
    pub ll: Geometry,
    /// Why the part ends.
    pub trigger: Trigger,
    /// Whether the events of branches are shown.
    pub branch: bool,
}
