//! Calling contexts: a function with those that called it, and their numbers.
#![tactic(auto)]

mod context;
mod context_ref;
mod contexts;
mod func_list;

pub use context::Context;
pub use context_ref::{ContextRef, context_at};
pub use contexts::Contexts;
pub use func_list::FuncList;
