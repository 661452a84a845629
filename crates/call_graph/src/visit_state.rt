//! What a pass over the functions knows of them.

/// How far the pass has come with a function.
#[derive(Clone, Copy, Debug)]
pub(crate) enum VisitState {
    /// It was not met yet.
    New,
    /// It stands on the path, at this place.
    Open(usize),
    /// It is in the group of this number.
    Closed(usize),
}

/// From a place of the path up to the next mark's, the functions are one group as far as is known. What they call and
/// is not dealt with yet stands in the list of work, from a height on.
#[derive(Clone, Copy, Debug)]
pub(crate) struct Mark {
    pub(crate) start: usize,
    pub(crate) height: usize,
}
