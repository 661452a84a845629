//! The instructions of a line number program (DWARF 5, 6.2.5).

ghost use Rattle.std.specs.Prelude.{◌≡◌, ◌<◌, ◌≤◌, length, OnSome};
ghost use Rattle.dwarf_line.specs.inner.Reads.{Reads};
ghost use Rattle.dwarf_line.specs.Instruction.{operands_at, standard_at, sized_at, extended_at, instruction_at};

use crate::cursor::Cursor;
use crate::header::Header;
use crate::standard::{
    DW_LNE_END_SEQUENCE, DW_LNE_SET_ADDRESS, DW_LNS_ADVANCE_LINE, DW_LNS_ADVANCE_PC,
    DW_LNS_CONST_ADD_PC, DW_LNS_COPY, DW_LNS_EXTENDED_OP, DW_LNS_FIXED_ADVANCE_PC, DW_LNS_SET_FILE,
};

/// One instruction. Numbers are as they stand in the program.
#[derive(Clone, Copy, Debug, PartialEq, Eq)]
pub enum Instruction {
    /// A special opcode, by how much it is above opcode_base.
    Special(u8),
    CopyRow,
    /// By so many operations.
    AdvancePc(u64),
    AdvanceLine(i64),
    SetFile(u64),
    ConstAddPc,
    /// By so many bytes.
    FixedAdvancePc(u16),
    SetAddress(u32),
    EndSequence,
    /// An instruction that no row shows: one that sets other registers, or one that is not known.
    Passed,
}

impl Instruction {
    /// So many unsigned numbers that are passed over.
    fn operands(count: u8, cursor: &mut Cursor<'_>) -> Option<Instruction>
        ensures read { Reads (operands_at count) cursor.old result cursor.new }
        ensures shrinks { OnSome result (length cursor.new ≤ length cursor.old) }
    {
        'operands: for _ in 0..count {
            cursor.uleb128()?;
        }
        Some(Instruction::Passed)
    }

    /// A standard opcode, which is above 0 and below opcode_base, with its operands.
    #[tactic(auto, unfolding(crate::specs::Instruction::standard_at))]
    fn standard(header: &Header<'_>, opcode: u8, cursor: &mut Cursor<'_>) -> Option<Instruction>
        requires standard { 0 < opcode }
        requires below { opcode < header.now.opcode_base }
        ensures read { Reads (standard_at header.now opcode) cursor.old result cursor.new }
        ensures shrinks { OnSome result (length cursor.new ≤ length cursor.old) }
    {
        match opcode {
            DW_LNS_COPY => Some(Instruction::CopyRow),
            DW_LNS_ADVANCE_PC => Some(Instruction::AdvancePc(cursor.uleb128()?)),
            DW_LNS_ADVANCE_LINE => Some(Instruction::AdvanceLine(cursor.sleb128()?)),
            DW_LNS_SET_FILE => Some(Instruction::SetFile(cursor.uleb128()?)),
            DW_LNS_CONST_ADD_PC => Some(Instruction::ConstAddPc),
            DW_LNS_FIXED_ADVANCE_PC => Some(Instruction::FixedAdvancePc(cursor.u16()?)),
            _ => Instruction::operands(header.operand_count(opcode), cursor),
        }
    }

    /// What stands behind the length of an extended opcode.
    #[tactic(auto, unfolding(crate::specs::Instruction::sized_at, crate::specs::Instruction::extended_of))]
    fn sized(count: u64, cursor: &mut Cursor<'_>) -> Option<Instruction>
        ensures read { Reads (sized_at count) cursor.old result cursor.new }
        ensures shrinks { OnSome result (length cursor.new ≤ length cursor.old) }
    {
        let mut inside = Cursor::new(cursor.bytes(count)?);
        match (inside.u8()?, count) {
            (DW_LNE_END_SEQUENCE, 1) => Some(Instruction::EndSequence),
            (DW_LNE_SET_ADDRESS, 5) => Some(Instruction::SetAddress(inside.u32()?)),
            (DW_LNE_END_SEQUENCE | DW_LNE_SET_ADDRESS, _) => None,
            _ => Some(Instruction::Passed),
        }
    }

    /// An extended opcode, behind its byte 0.
    #[tactic(auto, unfolding(crate::specs::Instruction::extended_at))]
    fn extended(cursor: &mut Cursor<'_>) -> Option<Instruction>
        ensures read { Reads extended_at cursor.old result cursor.new }
        ensures shrinks { OnSome result (length cursor.new ≤ length cursor.old) }
    {
        let length = cursor.uleb128()?;
        Instruction::sized(length, cursor)
    }

    /// The next instruction, which takes a byte at least.
    #[tactic(auto, unfolding(crate::specs::Instruction::instruction_at, crate::specs::Instruction::begun_at))]
    pub fn read(header: &Header<'_>, cursor: &mut Cursor<'_>) -> Option<Instruction>
        ensures read { Reads (instruction_at header.now) cursor.old result cursor.new }
        ensures shrinks { OnSome result (length cursor.new < length cursor.old) }
    {
        let opcode = cursor.u8()?;
        let base = header.opcode_base();
        if opcode >= base {
            Some(Instruction::Special(opcode - base))
        } else if opcode == DW_LNS_EXTENDED_OP {
            Instruction::extended(cursor)
        } else {
            Instruction::standard(header, opcode, cursor)
        }
    }
}
