//! What the words of a command line ask for.

ghost use Rattle.std.specs.Prelude.{◌≡◌};
ghost use Rattle.command_words.specs.Request.{watching_at};
ghost use Rattle.command_words.specs.Meaning.{positions_of, watching_of};

use cache_lru::Geometry;

/// The caches of a run.
#[derive(Clone, Copy, Debug)]
pub struct Geometries {
    pub i1: Geometry,
    pub d1: Geometry,
    /// The last level.
    pub ll: Geometry,
}

/// When parts are put before the end.
#[derive(Clone, Copy, Debug)]
pub struct Dumps<'a> {
    /// After so many steps each time, at least 1.
    pub every: Option<u64>,
    /// At the entry of the functions of this name.
    pub before: Option<&'a str>,
    /// When functions of this name are left.
    pub after: Option<&'a str>,
}

/// What a run counts besides its parts.
#[derive(Clone, Copy, Debug)]
pub enum Watching {
    Nothing,
    /// What waiting costs, which a file of its own shows.
    Waits,
    /// What each function costs by its callers, of which so many are told apart, from 1 to 16: its parts show this.
    Contexts(u32),
    /// What each instruction costs, by its address: its parts show this.
    Addresses,
}

/// What the positions of a run's parts are.
#[derive(Clone, Copy, Debug)]
pub enum Positions {
    Line,
    AddressAndLine,
}

impl Positions {
    /// What a run counts that puts such parts.
    pub fn watching(self) -> Watching
        ensures { watching_of result ≡ watching_at (positions_of self) }
    {
        match self {
            Positions::Line => Watching::Nothing,
            Positions::AddressAndLine => Watching::Addresses,
        }
    }
}

/// A program to be run, and how.
#[derive(Debug, Drop)]
pub struct Job<'a> {
    /// What the names of its files begin with.
    pub base: &'a str,
    /// The file that the guest reads, if any.
    pub input: Option<&'a str>,
    /// The most steps, from 1 to 10^12.
    pub budget: u64,
    /// The most steps of a turn, from 1 to 1,000,000.
    pub quantum: u32,
    /// What the turns are drawn by, if by anything.
    pub seed: Option<u64>,
    pub caches: Geometries,
    pub dumps: Dumps<'a>,
    /// Branches are counted and predicted.
    pub branches: bool,
    /// The program's name, and its arguments.
    pub args: Vec<String>,
}

/// Whose callers and callees a report shows.
#[derive(Clone, Copy, Debug)]
pub enum Tree {
    Off,
    Caller,
    Calling,
    Both,
}

/// What a report shows.
#[derive(Clone, Copy, Debug)]
pub struct View<'a> {
    /// The event that functions are sorted by, where it isn't the first.
    pub sort: Option<&'a str>,
    /// In percent, at most 100.
    pub threshold: u32,
    pub tree: Tree,
    /// Sources are shown.
    pub auto: bool,
}

/// What is asked for.
#[derive(Debug, Drop)]
pub enum Request<'a> {
    Run(Job<'a>, Watching),
    Report(Job<'a>, Positions, View<'a>),
    /// The names of the profiles, one at least.
    Annotate(Vec<&'a str>, View<'a>),
    /// The size of the demonstration, from 1 to 100,000.
    Demo(u32),
    /// The words are none of the commands.
    Usage,
}
