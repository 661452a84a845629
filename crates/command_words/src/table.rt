//! The commands, and the options that each takes.

ghost use Rattle.std.specs.Prelude.{◌≡◌, map};
ghost use Rattle.command_words.specs.Rows.{command_of, row_of, takers_of};
ghost use Rattle.command_words.specs.Table.{includes, name_of, table};

/// What a command line may ask for.
#[derive(Clone, Copy, Debug)]
pub enum Command {
    Run,
    Report,
    Annotate,
    Demo,
}

/// Which commands take an option.
#[derive(Clone, Copy, Debug)]
pub enum Takers {
    RunAlone,
    RunAndReport,
    ReportAndAnnotate,
}

/// What the VALUE of an option may be.
#[derive(Clone, Copy, Debug)]
pub enum Kind {
    AnyText,
    /// A text of so many bytes at least, and at most where there is a limit.
    Sized(usize, Option<usize>),
    /// A number from the first to the second.
    Number(u64, u64),
    /// `SIZE,ASSOC,LINE` of a cache.
    Cache,
    OneOf(&'static [&'static str]),
}

/// An option, called `--NAME`.
#[derive(Clone, Copy, Debug)]
pub struct OptionRow {
    pub name: &'static str,
    pub takers: Takers,
    pub kind: Kind,
}

const YES_OR_NO: Kind = Kind::OneOf(&["yes", "no"]);

static OPTIONS: [OptionRow; 19] = [
    OptionRow {
        name: "base",
        takers: Takers::RunAndReport,
        kind: Kind::Sized(1, Some(200)),
    },
    OptionRow {
        name: "input",
        takers: Takers::RunAndReport,
        kind: Kind::Sized(1, None),
    },
    OptionRow {
        name: "budget",
        takers: Takers::RunAndReport,
        kind: Kind::Number(1, 1_000_000_000_000),
    },
    OptionRow {
        name: "quantum",
        takers: Takers::RunAndReport,
        kind: Kind::Number(1, 1_000_000),
    },
    OptionRow {
        name: "turns",
        takers: Takers::RunAndReport,
        kind: Kind::Number(0, u64::MAX),
    },
    OptionRow {
        name: "I1",
        takers: Takers::RunAndReport,
        kind: Kind::Cache,
    },
    OptionRow {
        name: "D1",
        takers: Takers::RunAndReport,
        kind: Kind::Cache,
    },
    OptionRow {
        name: "LL",
        takers: Takers::RunAndReport,
        kind: Kind::Cache,
    },
    OptionRow {
        name: "dump-every",
        takers: Takers::RunAndReport,
        kind: Kind::Number(1, 1_000_000_000_000),
    },
    OptionRow {
        name: "dump-before",
        takers: Takers::RunAndReport,
        kind: Kind::AnyText,
    },
    OptionRow {
        name: "dump-after",
        takers: Takers::RunAndReport,
        kind: Kind::AnyText,
    },
    OptionRow {
        name: "branch-sim",
        takers: Takers::RunAndReport,
        kind: YES_OR_NO,
    },
    OptionRow {
        name: "sort",
        takers: Takers::ReportAndAnnotate,
        kind: Kind::AnyText,
    },
    OptionRow {
        name: "threshold",
        takers: Takers::ReportAndAnnotate,
        kind: Kind::Number(0, 100),
    },
    OptionRow {
        name: "tree",
        takers: Takers::ReportAndAnnotate,
        kind: Kind::OneOf(&["none", "caller", "calling", "both"]),
    },
    OptionRow {
        name: "auto",
        takers: Takers::ReportAndAnnotate,
        kind: YES_OR_NO,
    },
    OptionRow {
        name: "waits",
        takers: Takers::RunAlone,
        kind: YES_OR_NO,
    },
    OptionRow {
        name: "separate-callers",
        takers: Takers::RunAlone,
        kind: Kind::Number(1, 16),
    },
    OptionRow {
        name: "dump-instr",
        takers: Takers::RunAndReport,
        kind: YES_OR_NO,
    },
];

/// The table of all options.
pub fn options() -> &'static [OptionRow]
    ensures { map row_of result.now ≡ table }
{
    &OPTIONS
}

impl Takers {
    pub fn include(self, command: Command) -> bool
        ensures { result ≡ includes (takers_of self) (command_of command) }
    {
        match (self, command) {
            (Takers::RunAlone | Takers::RunAndReport, Command::Run) => true,
            (Takers::RunAndReport | Takers::ReportAndAnnotate, Command::Report) => true,
            (Takers::ReportAndAnnotate, Command::Annotate) => true,
            _ => false,
        }
    }
}

impl Command {
    pub const ALL: [Command; 4] = [
        Command::Run,
        Command::Report,
        Command::Annotate,
        Command::Demo,
    ];

    pub fn name(self) -> &'static str
        ensures { result.now ≡ name_of (command_of self) }
    {
        match self {
            Command::Run => "run",
            Command::Report => "report",
            Command::Annotate => "annotate",
            Command::Demo => "demo",
        }
    }
}
