//! An instruction to its word.

ghost use Rattle.std.specs.Prelude.{◌≡◌, ◌<◌, ◌^◌, ℕ};
ghost use Rattle.rv_decode.specs.Decoded.{decode};
ghost use Rattle.rv_decode.specs.Encoded.{IsInRange, encode};

use crate::instr::Instr;
use crate::layout::operand_bits;
use crate::row::row_of;

/// The word of an instruction whose fields are in the ranges of its row: fields that its layout lacks are 0, the
/// immediates of branches and of JAL are even, that of LUI and AUIPC is a multiple of 4,096, and LR has no rs2.
pub fn encode(instr: Instr) -> u32
    requires { IsInRange instr }
    ensures word { result ≡ encode instr }
    // The word gives the instruction back,
    ensures back { decode result ≡ Some instr }
    // and no other word does.
    ensures only { (w : ℕ) → w < 2 ^ 32 → decode w ≡ Some instr → w ≡ result }
{
    let row = row_of(instr.op);
    row.bits + operand_bits(row.shape, instr)
}
