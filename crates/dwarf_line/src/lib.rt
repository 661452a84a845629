//! Line tables of DWARF 5 (section 6.2): the rows and sequences of a section `.debug_line`.
#![tactic(auto)]

mod building;
mod contents;
mod cursor;
mod entry;
mod fault;
mod file_text;
mod files;
mod form;
mod header;
mod instruction;
mod leb128;
mod line_table;
mod matrix;
mod program;
mod registers;
mod row;
mod section;
pub mod standard;
mod table;
mod unit;

pub use line_table::{Rows, SourceLine};
pub use row::{Row, Sequence};
pub use section::rows;
