//! The rows of a profile's part by context.

use contexts::FuncList;
use event_costs::{Cost, FileId, ThreadNo};
use std::marker::Model;

/// The cost of a line in a context.
#[derive(Debug, Drop)]
pub struct CtxLine {
    pub ctx: FuncList,
    pub file: FileId,
    pub line: u32,
    pub cost: Cost,
}

/// The calls of an arc between two contexts, and the cost of its frames.
#[derive(Debug, Drop)]
pub struct CtxArc {
    pub caller: FuncList,
    pub callee: FuncList,
    pub file: FileId,
    pub line: u32,
    pub calls: u64,
    pub cost: Cost,
}

/// The rows of a thread. Contracts see the two lists.
#[derive(Debug, Drop)]
pub struct CtxRows {
    pub thread: ThreadNo,
    pub lines: Vec<CtxLine>,
    pub arcs: Vec<CtxArc>,
}

impl Model for CtxRows {
    ghost use Rattle.ctx_rows.specs.Rows.{OfThread};

    ghost Value = { OfThread };

    ghost view = { λ r. record { thread = r.thread; rows = record { lines = r.lines.items; arcs = r.arcs.items } } };
}
