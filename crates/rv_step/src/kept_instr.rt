//! An instruction that was found.

ghost use Rattle.rv_decode.specs.Encoded.{HasRegisters};

use rv_decode::Instr;

/// An instruction, and where it stands.
#[derive(Clone, Copy, Debug)]
pub struct KeptInstr {
    pub pc: u32,
    pub instr: Instr,
    ghost registers: { HasRegisters instr },
}
