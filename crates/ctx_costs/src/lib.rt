//! Costs by calling context: a watch of a run whose parts tell a function apart by who called it.
#![tactic(auto)]

mod closing;
mod names;
mod noting;
mod sorting;
mod track;
mod watch;

pub use ctx_rows::{CtxArc, CtxLine, CtxRows, FuncList, fold, write_ctx};
pub use watch::CtxCosts;
