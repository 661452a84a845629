//! The names of events.

ghost use Rattle.std.specs.Prelude.{◌≡◌, ◌≤◌, None, Some, IfOk, IfErr, IsTrue, length, nat_le, if◌then◌else◌};
ghost use Rattle.cg_lines.specs.Lines.{words};
ghost use Rattle.cg_lines.specs.Faults.{Refuses};
ghost use Rattle.cg_lines.specs.Names.{is_distinct, most_events};

use crate::fault::Fault;
use crate::parts::Words;
use byte_text::TextRef;
use std::alloc::Global;

/// How many event names a profile may have.
const MOST_EVENTS: usize = 64;

/// The names on an `events:` line, if they aren't too many.
pub fn event_names(alloc: Global, text: &[u8]) -> Result<Vec<TextRef<'_>>, Fault>
    ensures names { IfOk result (λ names. names.items ≡ words text.now) }
    ensures limit { IfOk result (λ names. length names.items ≤ most_events) }
    ensures err { IfErr result (λ e. Refuses e (if nat_le (length (words text.now)) most_events then None
        else Some Fault.BadLine)) }
{
    let mut names = Vec::new(alloc);
    'words: for word in Words::new(text) {
        if names.len() == MOST_EVENTS {
            return Err(Fault::BadLine);
        }
        names.push(TextRef::new(word))?;
    }
    Ok(names)
}

/// Whether no two of the names are the same.
pub fn are_distinct(names: &[TextRef<'_>]) -> bool
    ensures { result ≡ is_distinct names.now }
{
    let mut rest = names;
    'names: while let [name, others @ ..] = rest {
        if others.contains(name) {
            return false;
        }
        rest = others;
    }
    true
}
