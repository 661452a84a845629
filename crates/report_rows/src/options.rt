//! What a report shows.

/// Which calls of a function are shown.
#[derive(Clone, Copy, Debug, PartialEq, Eq)]
pub enum Tree {
    /// None.
    Off,
    /// Those of it by its callers.
    Caller,
    /// Those that it makes.
    Calling,
    /// Those of it, and those that it makes.
    Both,
}

/// What a report shows, and in which order.
#[derive(Clone, Copy, Debug)]
pub struct ReportOptions {
    /// The event by whose cost the groups of functions stand, as its place among the profile's events.
    pub sort: usize,
    /// How many percent of the total of that event a group has to cost to be shown.
    pub threshold: u32,
    /// Which calls are shown.
    pub tree: Tree,
    /// Whether source texts are shown.
    pub auto: bool,
}
