//! The rows of a profile's part by instruction address.

use event_costs::{ArcKey, Cost, Place, ThreadNo};
use std::marker::Model;

/// The cost of an instruction, by its address.
#[derive(Clone, Copy, Debug)]
pub struct AddrLine {
    pub addr: u32,
    /// The place of the address.
    pub place: Place,
    pub cost: Cost,
}

/// The calls of an arc that was entered from an address, and the cost of its frames.
#[derive(Clone, Copy, Debug)]
pub struct AddrArc {
    pub addr: u32,
    /// The arc, with the file and line of the address.
    pub arc: ArcKey,
    pub calls: u64,
    pub cost: Cost,
}

/// The rows of a thread. Contracts see the two lists.
#[derive(Debug, Drop)]
pub struct AddrRows {
    pub thread: ThreadNo,
    pub lines: Vec<AddrLine>,
    pub arcs: Vec<AddrArc>,
}

impl Model for AddrRows {
    ghost use Rattle.addr_rows.specs.Rows.{OfThread};

    ghost Value = { OfThread };

    ghost view = { λ r. record { thread = r.thread; rows = record { lines = r.lines.items; arcs = r.arcs.items } } };
}
