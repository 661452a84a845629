//! The state that is carried from line to line where lines have addresses.

ghost use Rattle.std.specs.Prelude.{◌≡◌, ◌&&◌, ◌||◌, not, [], None, List, IfOk, MatchResult};
ghost use Rattle.cg_read.specs.Addresses.{without_addresses, is_early};
ghost use Rattle.cg_lines.specs.Shapes.{is_positions};
ghost use Rattle.cg_read.specs.AddressReading.{Says};
ghost use Rattle.cg_read.specs.Faults.{Answers};
ghost use Rattle.cg_read.specs.Reading.{end_fault, last_line};
ghost use Rattle.cg_read.specs.inner.KnowingAddresses.{KnowsAddresses, TakesAddressed};
ghost use Rattle.cg_lines.specs.declared.addressed.AddressedLine.{AddressedLine as AnyLine};

use crate::addr_profile::AddrProfile;
use crate::addresses::{Addresses, address_at};
use crate::error::FormatError;
use crate::reader::Reader;
use crate::rows::take_all;
use byte_text::OutOfMemory;
use cg_lines::{AddressedLine, Fault, Line};
use std::alloc::Global;

/// What the lines so far say of the next one. Without their addresses, lines are read as any others.
#[derive(Drop)]
pub(crate) struct AddrReader<'a> {
    reader: Reader<'a>,
    has_positions: bool,
    addresses: Addresses,
}

impl<'a> AddrReader<'a> {
    /// Before the first line.
    pub(crate) fn new(alloc: Global) -> Result<AddrReader<'a>, OutOfMemory>
        ensures { IfOk result (λ reader. KnowsAddresses reader []) }
    {
        let reader = Reader::new(alloc)?;
        Ok(AddrReader {
            reader,
            has_positions: false,
            addresses: Addresses::new(alloc),
        })
    }

    /// The profile that the lines say, at the file's end. `last` is the number of the last line that carries something.
    /// The reader is then of no use.
    pub(crate) fn finish(&mut self, last: u64) -> Result<AddrProfile, FormatError>
        requires { (before : List AnyLine) × KnowsAddresses self.old before × (last ≡ last_line (without_addresses before)) }
        ensures { (before : List AnyLine) → KnowsAddresses self.old before → last ≡ last_line (without_addresses before)
            → MatchResult result (λ p. Says before p × (end_fault (without_addresses before) ≡ None))
            (λ e. Answers e (end_fault (without_addresses before))) }
    {
        let lines = self.reader.finish(last)?;
        let self_rows = take_all(&mut self.addresses.self_rows);
        let call_rows = take_all(&mut self.addresses.call_rows);
        Ok(AddrProfile::new(lines, self_rows, call_rows))
    }

    /// Whether the line has an address, and stands behind the events and before any line on positions.
    fn is_early(&self, line: &AddressedLine<'a>) -> bool
        ensures { (before : List AnyLine) → KnowsAddresses self.now before → result ≡ is_early before line.now }
    {
        let has_events = self.reader.has_events();
        is_between(line.address.is_some(), has_events, self.has_positions)
    }

    /// Whether there is a line on positions, once this line is read.
    fn sees_positions(&self, line: &Line<'a>) -> bool
        ensures { result ≡ (is_positions line.now || self.now.has_positions) }
    {
        line.is_positions() || self.has_positions
    }

    /// The next line of the file. After a refusal the reader is of no use.
    pub(crate) fn line(&mut self, line: &AddressedLine<'a>) -> Result<(), Fault>
        ensures { TakesAddressed self.old line.now result self.new }
    {
        if self.is_early(line) {
            return Err(Fault::BadLine);
        }
        let is_cost = line.line.is_cost();
        let is_call = self.reader.has_open_call();
        self.has_positions = self.sees_positions(&line.line);
        self.reader.line(&line.line)?;
        let address = address_at(self.addresses.base, line.address)?;
        self.addresses.note(address, is_cost, is_call)?;
        Ok(())
    }
}

/// Whether a line with or without an address stands where events are named and no positions.
fn is_between(has_address: bool, has_events: bool, has_positions: bool) -> bool
    ensures { result ≡ (has_address && (has_events && not has_positions)) }
{
    has_address && (has_events && !has_positions)
}
