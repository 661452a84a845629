//! Call arcs between functions that go by number.

/// A function calls another, or itself.
#[derive(Clone, Copy, Debug, PartialEq, Eq)]
pub struct CallArc {
    pub caller: usize,
    pub callee: usize,
}
