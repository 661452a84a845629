//! Makes programs for tests and demonstrations: an assembler, and ELF files with segments, symbols and line tables.
#![tactic(auto)]

mod assembler;
mod conditions;
mod elf;
mod function_part;
mod header;
pub mod instruction;
mod line_program;
mod line_section;
mod numbers;
mod parts;
mod program;
mod section;
mod segment_part;
mod span;
mod strings;
mod symbol;
mod tail;

pub use assembler::{Assembler, assemble};
pub use conditions::can_be_made;
pub use elf::make_elf;
pub use function_part::FunctionPart;
pub use parts::ElfParts;
pub use segment_part::SegmentPart;
