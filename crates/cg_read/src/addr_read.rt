//! The whole file, where positions may have addresses.

ghost use Rattle.std.specs.Prelude.{◌≡◌, ◌⊎◌, None, true, [], List, IfOk, IfErr, OnOk, MatchResult};
ghost use Rattle.cg_read.specs.Addresses.{without_addresses};
ghost use Rattle.cg_read.specs.AddressReading.{AddrContents, Reads, ReadsLines, Says, SaysTheSame, bad_line};
ghost use Rattle.cg_read.specs.AddressReading.{first_bad, first_bad_of, history, is_addr_file};
ghost use Rattle.cg_read.specs.Faults.{Answers, IsWantOfMemory};
ghost use Rattle.cg_read.specs.Reading.{last_line};
ghost use Rattle.cg_read.specs.inner.KnowingAddresses.{KnowsAddresses};

use crate::addr_profile::AddrProfile;
use crate::addr_reader::AddrReader;
use crate::error::FormatError;
use crate::profile::Profile;
use crate::read::{last_number, read_file};
use cg_lines::{Line, Parts, addressed_of, are_two_parts, line_of};
use std::alloc::Global;

/// Whether the first line on positions says that they have two parts, an address and a line.
pub fn is_addr_file(bytes: &[u8]) -> bool
    ensures { result ≡ is_addr_file bytes.now }
{
    'lines: for text in Parts::new(b'\n', bytes) {
        if let Line::Positions(names) = line_of(text) {
            return are_two_parts(names.as_bytes());
        }
    }
    false
}

/// Takes each line after those before it, and gives the number of the last one that carries something.
fn take_lines<'a>(reader: &mut AddrReader<'a>, bytes: &'a [u8]) -> Result<u64, FormatError>
    requires { KnowsAddresses reader.old [] }
    ensures knows { OnOk result (KnowsAddresses reader.new (history bytes.now)) }
    ensures sound { OnOk result (bad_line (history bytes.now) ≡ None) }
    ensures last { IfOk result (λ last. last ≡ last_line (without_addresses (history bytes.now))) }
    ensures err { IfErr result (λ e. Answers e (first_bad bytes.now)) }
{
    let mut number: u64 = 0;
    let mut last: u64 = 0;
    'lines: for text in Parts::new(b'\n', bytes) {
        number += 1;
        let line = addressed_of(text);
        last = last_number(&line.line, number, last);
        if let Err(fault) = reader.line(&line) {
            return Err(FormatError::at(fault, number));
        }
    }
    Ok(last)
}

/// The profile that the lines say.
fn read_profile<'a>(
    reader: &mut AddrReader<'a>,
    bytes: &'a [u8],
) -> Result<AddrProfile, FormatError>
    requires { KnowsAddresses reader.old [] }
    ensures { MatchResult result (λ p. (first_bad bytes.now ≡ None) × Says (history bytes.now) p)
        (λ e. Answers e (first_bad bytes.now)) }
{
    let last = take_lines(reader, bytes)?;
    reader.finish(last)
}

fn read_addr_lines(alloc: Global, bytes: &[u8]) -> Result<AddrProfile, FormatError>
    ensures { MatchResult result (λ p. (first_bad bytes.now ≡ None) × Says (history bytes.now) p)
        (λ e. Answers e (first_bad bytes.now)) }
{
    let mut reader = AddrReader::new(alloc)?;
    read_profile(&mut reader, bytes)
}

/// Reads a profile in the Callgrind format whose positions have two parts, an address and a line, or answers the first
/// line that has no meaning, counted from 1.
pub fn read_addr_file(alloc: Global, bytes: &[u8]) -> Result<AddrProfile, FormatError>
    requires { is_addr_file bytes.now ≡ true }
    // What is answered is what the bytes say.
    ensures reads { IfOk result (λ p. Reads bytes.now p) }
    // Which refusal it is. Want of memory may come in its place.
    ensures bad { IfErr result (λ e. Answers e (first_bad bytes.now)) }
    // But for want of memory, nothing reads bytes that are refused.
    ensures nothing { IfErr result (λ e. IsWantOfMemory e ⊎ ((p : AddrContents) → Reads bytes.now p → ⊥)) }
    // But for the numbering, nothing else reads bytes that are accepted.
    ensures only { IfOk result (λ p. (q : AddrContents) → Reads bytes.now q → SaysTheSame p q) }
{
    read_addr_lines(alloc, bytes)
}

/// Reads a profile in the Callgrind format, with addresses, which are let go, or without.
pub fn read_any(alloc: Global, bytes: &[u8]) -> Result<Profile, FormatError>
    // What is answered is what the bytes say without addresses.
    ensures reads { IfOk result (λ p. ReadsLines bytes.now p) }
    // Which refusal it is. Want of memory may come in its place.
    ensures bad { IfErr result (λ e. Answers e (first_bad_of bytes.now)) }
{
    if !is_addr_file(bytes) {
        return read_file(alloc, bytes);
    }
    match read_addr_lines(alloc, bytes) {
        Ok(profile) => Ok(profile.into_lines()),
        Err(error) => Err(error),
    }
}
