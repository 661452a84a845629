//! The registers of the state machine (DWARF 5, 6.2.2), as far as a row keeps them.

ghost use Rattle.std.specs.Prelude.{◌≡◌, ◌*◌};
ghost use Rattle.dwarf_line.specs.Registers.{start, advance_address, advance_line, outcome_of};

use crate::header::Header;
use crate::instruction::Instruction;

/// The registers that a row keeps.
#[derive(Clone, Copy, Debug, PartialEq, Eq)]
pub struct Registers {
    pub address: u32,
    /// A number of the unit's table of files, which may lack it.
    pub file: u64,
    pub line: u32,
}

/// What an instruction leads to.
#[derive(Clone, Copy, Debug, PartialEq, Eq)]
pub enum Outcome {
    /// The registers alone.
    Goes(Registers),
    /// The registers, which are a row too.
    Row(Registers),
    /// The end of the sequence, at this address.
    End(u32),
}

impl Registers {
    /// The registers at the start of a sequence.
    pub fn start() -> Registers
        ensures { result ≡ start }
    {
        Registers {
            address: 0,
            file: 1,
            line: 1,
        }
    }

    /// The registers with the address further by so many bytes.
    #[tactic(auto, unfolding(crate::specs::Registers::advance_address))]
    fn advance_address(self, bytes: u32) -> Option<Registers>
        ensures { result ≡ advance_address self bytes }
    {
        let address = self.address.checked_add(bytes)?;
        Some(Registers { address, ..self })
    }

    /// The registers with the line further by so many, or back.
    #[tactic(auto, unfolding(crate::specs::Registers::advance_line))]
    fn advance_line(self, lines: i64) -> Option<Registers>
        ensures { result ≡ advance_line self lines }
    {
        let line = i64::from(self.line).checked_add(lines)?;
        let line = u32::try_from(line).ok()?;
        Some(Registers { line, ..self })
    }

    /// The address further by so many operations.
    #[tactic(auto, unfolding(crate::specs::Registers::advance_address))]
    fn advance_operations(self, operations: u64, minimum_length: u8) -> Option<Registers>
        ensures { result ≡ advance_address self (operations * minimum_length) }
    {
        let bytes = operations.checked_mul(u64::from(minimum_length))?;
        self.advance_address(u32::try_from(bytes).ok()?)
    }

    /// What an instruction makes of the registers; `None` for an address or a line that is out of range.
    #[tactic(auto, unfolding(crate::specs::Registers::outcome_of))]
    pub fn after(self, header: &Header<'_>, instruction: Instruction) -> Option<Outcome>
        ensures { result ≡ outcome_of header.now self instruction }
    {
        match instruction {
            Instruction::Special(adjusted) => {
                let further = self.advance_address(header.special_bytes(adjusted))?;
                let there = further.advance_line(header.special_lines(adjusted))?;
                Some(Outcome::Row(there))
            }
            Instruction::CopyRow => Some(Outcome::Row(self)),
            Instruction::AdvancePc(operations) => {
                let there = self.advance_operations(operations, header.minimum_length())?;
                Some(Outcome::Goes(there))
            }
            Instruction::AdvanceLine(lines) => Some(Outcome::Goes(self.advance_line(lines)?)),
            Instruction::SetFile(file) => Some(Outcome::Goes(Registers { file, ..self })),
            Instruction::ConstAddPc => {
                let bytes = header.special_bytes(255 - header.opcode_base());
                Some(Outcome::Goes(self.advance_address(bytes)?))
            }
            Instruction::FixedAdvancePc(bytes) => {
                Some(Outcome::Goes(self.advance_address(u32::from(bytes))?))
            }
            Instruction::SetAddress(address) => Some(Outcome::Goes(Registers { address, ..self })),
            Instruction::EndSequence => Some(Outcome::End(self.address)),
            Instruction::Passed => Some(Outcome::Goes(self)),
        }
    }
}
