//! Reads ELF32 executables for RISC-V: the whole image of a file, or the first check that it fails.
#![tactic(auto)]

mod elf;
mod error;
mod header;
mod number;
mod overlap;
mod program;
mod section;
pub mod standard;
mod symbol;
mod text;

pub use elf::{Elf, read};
pub use error::{ElfError, Field};
pub use program::Segment;
pub use section::Section;
pub use symbol::Symbol;
pub use text::Range;
