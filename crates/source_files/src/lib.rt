//! Source texts, loaded from a folder for a report.
#![tactic(auto)]

mod laws;
mod sources;

pub use laws::equal_folders_give_equal_texts;
pub use sources::load_sources;
