//! The whole file.

ghost use Rattle.std.specs.Prelude.{◌≡◌, ◌⊎◌, if◌then◌else◌, None, [], List, IfOk, IfErr, OnOk, MatchResult};
ghost use Rattle.cg_read.specs.Faults.{Answers, IsWantOfMemory};
ghost use Rattle.cg_lines.specs.Shapes.{is_blank_line};
ghost use Rattle.cg_read.specs.Profiles.{Contents, SaysTheSame};
ghost use Rattle.cg_read.specs.Reading.{Reads, Says, bad_line, first_bad, history, last_line};
ghost use Rattle.cg_read.specs.inner.Knowing.{Knows};

use crate::error::FormatError;
use crate::profile::Profile;
use crate::reader::Reader;
use cg_lines::{Line, Parts, line_of};
use std::alloc::Global;

/// The number of the last line that carries something, where this line has this number.
pub(crate) fn last_number(line: &Line<'_>, number: u64, last: u64) -> u64
    ensures { result ≡ (if is_blank_line line.now then last else number) }
{
    if line.is_blank() { last } else { number }
}

/// Takes each line after those before it, and gives the number of the last one that carries something.
fn take_lines<'a>(reader: &mut Reader<'a>, bytes: &'a [u8]) -> Result<u64, FormatError>
    requires { Knows reader.old [] }
    ensures knows { OnOk result (Knows reader.new (history bytes.now)) }
    ensures sound { OnOk result (bad_line (history bytes.now) ≡ None) }
    ensures last { IfOk result (λ last. last ≡ last_line (history bytes.now)) }
    ensures err { IfErr result (λ e. Answers e (first_bad bytes.now)) }
{
    let mut number: u64 = 0;
    let mut last: u64 = 0;
    'lines: for text in Parts::new(b'\n', bytes) {
        number += 1;
        let line = line_of(text);
        last = last_number(&line, number, last);
        if let Err(fault) = reader.line(&line) {
            return Err(FormatError::at(fault, number));
        }
    }
    Ok(last)
}

/// The profile that the lines say.
fn read_profile<'a>(reader: &mut Reader<'a>, bytes: &'a [u8]) -> Result<Profile, FormatError>
    requires { Knows reader.old [] }
    ensures { MatchResult result (λ p. (first_bad bytes.now ≡ None) × Says (history bytes.now) p)
        (λ e. Answers e (first_bad bytes.now)) }
{
    let last = take_lines(reader, bytes)?;
    reader.finish(last)
}

fn read_lines(alloc: Global, bytes: &[u8]) -> Result<Profile, FormatError>
    ensures { MatchResult result (λ p. (first_bad bytes.now ≡ None) × Says (history bytes.now) p)
        (λ e. Answers e (first_bad bytes.now)) }
{
    let mut reader = Reader::new(alloc)?;
    read_profile(&mut reader, bytes)
}

/// Reads a profile in the Callgrind format (Callgrind Format Specification, version 1), or answers the first line that
/// has no meaning, counted from 1.
pub fn read_file(alloc: Global, bytes: &[u8]) -> Result<Profile, FormatError>
    // What is answered is what the bytes say.
    ensures reads { IfOk result (λ p. Reads bytes.now p) }
    // Which refusal it is. Want of memory may come in its place.
    ensures bad { IfErr result (λ e. Answers e (first_bad bytes.now)) }
    // But for want of memory, nothing reads bytes that are refused.
    ensures nothing { IfErr result (λ e. IsWantOfMemory e ⊎ ((p : Contents) → Reads bytes.now p → ⊥)) }
    // But for the numbering, nothing else reads bytes that are accepted.
    ensures only { IfOk result (λ p. (q : Contents) → Reads bytes.now q → SaysTheSame p q) }
{
    read_lines(alloc, bytes)
}
