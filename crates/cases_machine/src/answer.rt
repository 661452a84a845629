//! What a call answers.

use std::fmt;

#[derive(Clone, Copy)]
pub enum Answer {
    Done,
    Count(u64),
    Word(u32),
    Truth(bool),
    /// The guest may not do this there.
    Access,
    /// The guest would have more pages than it may have.
    Full,
    OutOfMemory,
    /// The call's condition does not hold, so it was not made; or there is no such call.
    NotMade,
}

impl fmt::Display for Answer {
    fn fmt<W: fmt::Write>(&self, f: &mut fmt::Formatter<W>) -> fmt::Result {
        match *self {
            Answer::Done => f.write_str("done"),
            Answer::Count(number) => write!(f, "{number}"),
            Answer::Word(word) => write!(f, "{word:#x}"),
            Answer::Truth(true) => f.write_str("true"),
            Answer::Truth(false) => f.write_str("false"),
            Answer::Access => f.write_str("access"),
            Answer::Full => f.write_str("full"),
            Answer::OutOfMemory => f.write_str("out of memory"),
            Answer::NotMade => f.write_str("not made"),
        }
    }
}
