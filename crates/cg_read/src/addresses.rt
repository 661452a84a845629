//! The addresses of rows while they are read.

ghost use Rattle.std.specs.Prelude.{◌≡◌, ◌++◌, ◌&&◌, not, None, [], OnOk, MatchResult, if◌then◌else◌};
ghost use Rattle.cg_read.specs.Addresses.{address_at, address_fault, address_if};
ghost use Rattle.cg_lines.specs.Faults.{Refuses};

use byte_text::OutOfMemory;
use cg_lines::{Fault, SubPosition, position_at};
use std::alloc::Global;

/// The addresses of the rows so far, and what relative ones count from.
#[derive(Drop)]
pub(crate) struct Addresses {
    /// The address of the last cost line.
    pub(crate) base: u64,
    pub(crate) self_rows: Vec<u64>,
    pub(crate) call_rows: Vec<u64>,
}

impl Addresses {
    /// Before the first line.
    pub(crate) fn new(alloc: Global) -> Addresses
        ensures base { result.base ≡ 0 }
        ensures self_rows { result.self_rows.items ≡ [] }
        ensures call_rows { result.call_rows.items ≡ [] }
    {
        Addresses {
            base: 0,
            self_rows: Vec::new(alloc),
            call_rows: Vec::new(alloc),
        }
    }

    /// The address of a line, which is a row's where the line has costs: a call row's where a call was open.
    pub(crate) fn note(
        &mut self,
        address: u64,
        is_cost: bool,
        is_call: bool,
    ) -> Result<(), OutOfMemory>
        ensures base { OnOk result (self.new.base ≡ (if is_cost then address else self.old.base)) }
        ensures self_rows { OnOk result (self.new.self_rows.items
            ≡ self.old.self_rows.items ++ address_if (is_cost && not is_call) address) }
        ensures call_rows { OnOk result (self.new.call_rows.items
            ≡ self.old.call_rows.items ++ address_if (is_cost && is_call) address) }
    {
        if !is_cost {
            return Ok(());
        }
        self.base = address;
        if is_call {
            self.call_rows.push(address)?;
            return Ok(());
        }
        self.self_rows.push(address)?;
        Ok(())
    }
}

/// The address that is meant, where relative ones count from this base.
pub(crate) fn address_at(base: u64, address: Option<SubPosition>) -> Result<u64, Fault>
    ensures { MatchResult result (λ n. (n ≡ address_at base address) × (address_fault base address ≡ None))
        (λ e. Refuses e (address_fault base address)) }
{
    let Some(place) = address else {
        return Ok(0);
    };
    match position_at(base, place) {
        Some(address) => Ok(address),
        None => Err(Fault::BadNumber),
    }
}
