//! The addresses that are referred to.

ghost use Rattle.std.specs.Prelude.{◌<◌, ◌^◌};

/// The addresses go round within 16 MiB, less the last four bytes.
const SPAN: u32 = 0x0100_0000;

/// How the addresses follow each other.
#[derive(Clone, Copy)]
pub enum Pattern {
    /// Four bytes after four bytes.
    Sequential,
    /// Four bytes anywhere.
    Random,
    /// Four bytes over the end of each line of 64 bytes.
    Straddling,
}

impl Pattern {
    pub fn of_name(name: &str) -> Option<Pattern> {
        match name {
            "sequential" => Some(Pattern::Sequential),
            "random" => Some(Pattern::Random),
            "straddling" => Some(Pattern::Straddling),
            _ => None,
        }
    }
}

/// Addresses without end.
#[derive(Clone, Copy)]
pub struct Addresses {
    pattern: Pattern,
    state: u32,
}

impl Addresses {
    pub fn new(pattern: Pattern) -> Addresses {
        Addresses { pattern, state: 0 }
    }

    pub fn next(&mut self) -> u32
        ensures { result < 2 ^ 24 }
    {
        match self.pattern {
            Pattern::Sequential => self.state = self.state.wrapping_add(4),
            Pattern::Random => self.state = self
                .state
                .wrapping_mul(1_664_525)
                .wrapping_add(1_013_904_223),
            Pattern::Straddling => self.state = self.state.wrapping_add(64),
        }
        match self.pattern {
            Pattern::Sequential => self.state % SPAN,
            Pattern::Random => self.state / 1024 * 4 % SPAN,
            Pattern::Straddling => self.state.wrapping_add(62) % SPAN,
        }
    }
}
