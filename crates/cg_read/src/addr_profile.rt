//! Profiles whose rows have addresses.

ghost use Rattle.std.specs.Prelude.{◌≡◌, ◌<◌, IfOk, length, slice_index};

use crate::merge::copy_of;
use crate::profile::Profile;
use byte_text::OutOfMemory;
use std::marker::Model;

/// What a profile file says whose positions have two parts: a profile, and the address of each of its rows.
#[derive(Drop)]
pub struct AddrProfile {
    lines: Profile,
    self_addresses: Vec<u64>,
    call_addresses: Vec<u64>,
}

impl Model for AddrProfile {
    ghost use Rattle.std.specs.Prelude.{◌≡◌, length};
    ghost use Rattle.cg_read.specs.AddressReading.{AddrContents, AreAddressed};

    ghost Value = { AddrContents };

    ghost view = { λ p. record {
      lines = p.lines;
      self_addresses = p.self_addresses.items;
      call_addresses = p.call_addresses.items;
    } };

    ghost invariant = { λ p. AreAddressed (record {
      lines = p.lines;
      self_addresses = p.self_addresses.items;
      call_addresses = p.call_addresses.items;
    }) };
}

impl AddrProfile {
    /// A profile, with the addresses of its rows.
    pub(crate) fn new(
        lines: Profile,
        self_addresses: Vec<u64>,
        call_addresses: Vec<u64>,
    ) -> AddrProfile
        requires self_rows { length self_addresses.items ≡ length lines.self_rows }
        requires call_rows { length call_addresses.items ≡ length lines.call_rows }
        ensures { result ≡ record {
          lines = lines;
          self_addresses = self_addresses.items;
          call_addresses = call_addresses.items;
        } }
    {
        AddrProfile {
            lines,
            self_addresses,
            call_addresses,
        }
    }

    /// The address of the self row at this place.
    pub fn address(&self, place: usize) -> u64
        requires { place < length self.now.lines.self_rows }
        ensures { result ≡ slice_index self.now.self_addresses place }
    {
        self.self_addresses[place]
    }

    /// The address of the call row at this place.
    pub fn call_address(&self, place: usize) -> u64
        requires { place < length self.now.lines.call_rows }
        ensures { result ≡ slice_index self.now.call_addresses place }
    {
        self.call_addresses[place]
    }

    /// A copy of the profile without the addresses.
    pub fn lines(&self) -> Result<Profile, OutOfMemory>
        ensures { IfOk result (λ p. p ≡ self.now.lines) }
    {
        copy_of(&self.lines)
    }

    /// The profile itself, without the addresses.
    pub fn into_lines(self) -> Profile
        ensures { result ≡ self.lines }
    {
        self.lines
    }
}
