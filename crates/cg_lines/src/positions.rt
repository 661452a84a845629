//! What a `positions:` line says.

ghost use Rattle.std.specs.Prelude.{◌≡◌, ◌∷◌, [], codes};
ghost use Rattle.cg_lines.specs.Lines.{words};
ghost use Rattle.cg_lines.specs.Names.{has_text, same_names};
ghost use Rattle.cg_lines.specs.Positions.{positions_fault, two_parts};

use crate::fault::Fault;
use crate::parts::Words;

/// Whether the two words are `instr line`.
pub fn are_two_parts(text: &[u8]) -> bool
    ensures { result ≡ same_names (words text.now) two_parts }
{
    let mut words = Words::new(text);
    let Some(word) = words.next() else {
        return false;
    };
    if word != b"instr".as_slice() {
        return false;
    }
    is_line(words)
}

/// Whether the one word left is `line`.
fn is_line(mut words: Words<'_>) -> bool
    ensures { result ≡ same_names words.entry (codes "line" ∷ []) }
{
    let Some(word) = words.next() else {
        return false;
    };
    if word != b"line".as_slice() {
        return false;
    }
    words.next().is_none()
}

/// Whether `instr` is among the words.
fn names_instr(text: &[u8]) -> bool
    ensures { result ≡ has_text (words text.now) (codes "instr") }
{
    'words: for word in Words::new(text) {
        if b"instr".as_slice() == word {
            return true;
        }
    }
    false
}

/// What is wrong with the positions that these words ask for.
pub fn positions_fault(text: &[u8]) -> Option<Fault>
    ensures { result ≡ positions_fault (words text.now) }
{
    if is_line(Words::new(text)) {
        None
    } else if names_instr(text) {
        Some(Fault::Instr)
    } else {
        Some(Fault::BadLine)
    }
}
