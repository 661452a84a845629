//! The table in which instructions are kept by their addresses.

ghost use Rattle.std.specs.Prelude.{◌≡◌, ◌≤◌, length};
ghost use Rattle.std.specs.Vec.{vec_capacity};
ghost use Rattle.rv_step.specs.inner.Places.{AreNoted};

use crate::kept_instr::KeptInstr;

/// Instructions by their addresses, the last that was found of each place.
#[derive(Debug, Drop)]
pub struct InstrTable {
    pub(crate) places: Vec<KeptInstr>,
    /// The addresses for which a place was filled since all was forgotten: what is kept stands in the places of these.
    pub(crate) filled: Vec<u32>,
    /// All that is kept stands from this address on.
    pub(crate) first: u32,
    /// All that is kept begins at this address or before.
    pub(crate) last: u32,
    ghost whole: { length places.items ≡ 65536 },
    ghost room: { 65536 ≤ vec_capacity filled },
    ghost noted: { AreNoted filled.items first last places.items },
}
