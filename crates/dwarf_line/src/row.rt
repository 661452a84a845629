//! Rows and sequences, as they are handed out.

/// A row: from its address up to that of the next row of the sequence, the code comes from this line.
#[derive(Clone, Copy, Debug, PartialEq, Eq)]
pub struct Row {
    pub addr: u32,
    /// The file's number for `Rows::file`.
    pub file: u32,
    /// The line, counted from 1; 0 stands for code that comes from no line.
    pub line: u32,
}

/// A sequence: rows of addresses that do not fall.
#[derive(Clone, Copy, Debug, PartialEq, Eq)]
pub struct Sequence {
    /// The place of its first row.
    pub first: usize,
    /// The place behind its last row.
    pub last: usize,
    /// The first address behind it.
    pub end: u32,
}
