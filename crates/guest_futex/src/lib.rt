//! The threads that wait at futex words: for each address, first in, first out.
#![tactic(auto)]

mod queue;
mod thread_list;
mod waiters;

pub use thread_list::ThreadList;
pub use waiters::Waiters;
