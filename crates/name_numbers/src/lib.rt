//! Numbers for distinct keys, in the order of the keys: of any kind, of texts in a file, and of cleaned names in files.
#![tactic(auto)]

mod clean_names;
mod file_names;
mod name_order;
mod names;
mod numbering;
mod tails;
mod text_place;
mod texts;

pub use file_names::{FileName, FileNames, NumberedNames, RankInFile, number_file_names};
pub use names::{Names, Ranks, rank_names};
pub use numbering::{NumberedWith, distinct, numbered_with};
pub use text_place::TextPlace;
