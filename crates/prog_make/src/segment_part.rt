//! A segment of a program that is to be made.

use crate::function_part::FunctionPart;
use byte_text::OutOfMemory;
use elf_read::standard::PF_X;
use std::alloc::Global;
use std::marker::Model;

/// A segment: its bytes at an address, and zeros behind them up to its length in memory.
#[derive(Debug, Drop)]
pub struct SegmentPart {
    /// The address of the first byte, from 0x1000 on.
    pub addr: u32,
    /// The bytes that the file holds.
    pub bytes: Vec<u8>,
    /// How many bytes it has in memory, at least one; it ends at 0x40000000 at most.
    pub mem_len: u32,
    /// `p_flags`: of `PF_X`, `PF_W` and `PF_R` of `elf_read::standard`.
    pub flags: u32,
}

impl Model for SegmentPart {
    ghost use Rattle.prog_make.specs.SegmentContent.{SegmentContent};

    ghost Value = { SegmentContent };

    ghost view = { λ s. record { addr = s.addr; bytes = s.bytes.items; mem_len = s.mem_len; flags = s.flags } };
}

impl SegmentPart {
    ghost use Rattle.std.specs.Prelude.{◌≡◌, ◌&&◌, IfOk};
    ghost use Rattle.prog_make.specs.inner.Conditions.{covers};
    ghost use Rattle.prog_make.specs.Functions.{holds, is_executable};

    /// A segment of these bytes.
    pub fn new(
        alloc: Global,
        addr: u32,
        bytes: &[u8],
        mem_len: u32,
        flags: u32,
    ) -> Result<SegmentPart, OutOfMemory>
        ensures { IfOk result (λ s. s ≡ record { addr = addr; bytes = bytes.now; mem_len = mem_len; flags = flags }) }
    {
        Ok(SegmentPart {
            addr,
            bytes: Vec::from_slice(alloc, bytes)?,
            mem_len,
            flags,
        })
    }

    /// Whether it is executable, `PF_X`.
    pub fn is_executable(&self) -> bool
        ensures { result ≡ is_executable self.now }
    {
        self.flags & PF_X != 0
    }

    /// Whether instructions may be fetched at the address.
    pub fn is_code(&self, addr: u32) -> bool
        ensures { result ≡ (covers addr self.now && is_executable self.now) }
    {
        addr >= self.addr && addr - self.addr < self.mem_len && self.is_executable()
    }

    /// Whether the function is code of this segment.
    pub fn holds(&self, function: &FunctionPart) -> bool
        ensures { result ≡ holds function.now self.now }
    {
        let end = u64::from(self.addr) + self.bytes.len() as u64;
        self.is_executable()
            && self.addr <= function.addr
            && u64::from(function.addr) + u64::from(function.size) <= end
    }
}
