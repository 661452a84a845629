//! What is known of all addresses.

ghost use Rattle.std.specs.Prelude.{◌≡◌, ◌≤◌, IfOk, length};
ghost use Rattle.sym_map.specs.inner.Ranges.{here_at, line_or_address};
ghost use Rattle.sym_map.specs.inner.Rising.{AllRise};
ghost use Rattle.sym_map.specs.inner.Nearby.{here_by};

use crate::range::{Cover, Here, LineHere, Range, cover_at, cover_by_number, number_near};
use byte_text::OutOfMemory;
use event_costs::FileId;
use std::alloc::Global;
use std::marker::Model;

/// The ranges of the symbols, and those of the lines.
#[derive(Drop)]
pub(crate) struct Ranges {
    pub(crate) symbols: Vec<Range>,
    pub(crate) lines: Vec<Range>,
    /// Whether each address is a line of its own, in the first file.
    pub(crate) by_address: bool,
}

impl Model for Ranges {
    ghost use Rattle.sym_map.specs.inner.Ranges.{AddressRanges};

    ghost Value = { AddressRanges };

    ghost view = { λ r. record {
      symbols = r.symbols.items;
      lines = r.lines.items;
      by_address = r.by_address;
    } };
}

/// A number of a range of symbols, and one of a range of lines.
#[derive(Clone, Copy, Debug, PartialEq, Eq)]
pub(crate) struct Near {
    pub(crate) symbol: usize,
    pub(crate) line: usize,
}

impl Ranges {
    /// The same ranges once more.
    pub(crate) fn try_clone(&self, alloc: Global) -> Result<Ranges, OutOfMemory>
        ensures { IfOk result (λ ranges. ranges ≡ self.now) }
    {
        let mut symbols = Vec::new(alloc);
        symbols.extend_from_slice(&self.symbols)?;
        let mut lines = Vec::new(alloc);
        lines.extend_from_slice(&self.lines)?;
        Ok(Ranges {
            symbols,
            lines,
            by_address: self.by_address,
        })
    }

    /// What is known of an address.
    pub(crate) fn here_at(&self, address: u32) -> Here
        requires { AllRise self.now }
        ensures { result ≡ here_at self.now address }
    {
        Here {
            symbol: cover_at(&self.symbols, address).symbol(),
            line: line_or_address(self.by_address, address, cover_at(&self.lines, address)),
        }
    }

    /// The numbers of the ranges that an address lies in, looked for at some numbers first.
    #[inline(always)]
    pub(crate) fn near(&self, near: Near, address: u32) -> Near
        requires { AllRise self.now }
        ensures here { here_by self.now result address ≡ here_at self.now address }
        ensures symbol { result.symbol ≤ length self.now.symbols }
        ensures line { result.line ≤ length self.now.lines }
    {
        Near {
            symbol: number_near(&self.symbols, near.symbol, address),
            line: number_near(&self.lines, near.line, address),
        }
    }

    /// What the ranges of these numbers say of an address.
    #[inline(always)]
    pub(crate) fn here_by(&self, near: Near, address: u32) -> Here
        ensures { result ≡ here_by self.now near address }
    {
        Here {
            symbol: cover_by_number(&self.symbols, near.symbol).symbol(),
            line: line_or_address(
                self.by_address,
                address,
                cover_by_number(&self.lines, near.line),
            ),
        }
    }
}

/// The line of an address at which this is seen.
#[inline(always)]
fn line_or_address(by_address: bool, address: u32, cover: Cover) -> Option<LineHere>
    ensures { result ≡ line_or_address by_address address cover }
{
    if by_address {
        return Some(LineHere {
            file: FileId(0),
            line: address,
        });
    }
    cover.line()
}
