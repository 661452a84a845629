//! The guest: all that its program can see or change.

use crate::thread::Thread;
use guest_mem::GuestMem;
use std::marker::Model;

/// A guest: its memory, its threads, its break and its input.
///
/// Of every guest it holds that `place` is at most the input's length, that at most 65,535 threads were made and at
/// most 1,024 are live, by rising numbers from 1 to `made`, that each pc is a multiple of 4 and each x0 is 0, and that
/// `first_break` is at most `now_break`, which is at most 0x40000000. Contracts see the memory as its cells.
#[derive(Debug, Drop)]
pub struct Guest {
    pub mem: GuestMem,
    /// The live threads, by rising number.
    pub threads: Vec<Thread>,
    /// The end of the program's segments, rounded up to a page: the break can't go below it.
    pub first_break: u32,
    /// The break.
    pub now_break: u32,
    /// The whole input.
    pub input: Vec<u8>,
    /// How many bytes of the input were read.
    pub place: usize,
    /// How many threads were made.
    pub made: u32,
    /// How many steps were made.
    pub steps: u64,
}

impl Model for Guest {
    ghost use Rattle.guest_load.specs.Guest.{Guest};
    ghost use Rattle.guest_load.specs.inner.Codes.{guest_code};

    ghost Value = { Guest };

    ghost coded = { guest_code };

    ghost use Rattle.guest_load.specs.Lawful.{guest_of, IsLawful};

    ghost view = { guest_of };

    ghost invariant = { λ g. IsLawful (guest_of g) };
}
