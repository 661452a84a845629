//! Sorts the words of a command line by `clap`: into a command, its options and values.
#![tactic(auto)]

mod builder;
mod sorted;
mod syntax;
mod words;

pub use sorted::SortedWords;
pub use syntax::Syntax;
pub use words::sort;
