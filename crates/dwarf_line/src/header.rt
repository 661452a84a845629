//! What a unit's header says of its line number program (DWARF 5, 6.2.4).

ghost use Rattle.std.specs.Prelude.{◌≡◌, ◌-◌, ◌^◌, ◌<◌, ◌≤◌, length, slice_index, IfSome, OnSome, option_map};
ghost use Rattle.dwarf_line.specs.inner.Reads.{Reads};
ghost use Rattle.dwarf_line.specs.Header.{constants_at, parts_of, agrees};
ghost use Rattle.dwarf_line.specs.Registers.{special_bytes, special_lines};

use crate::cursor::Cursor;
use std::marker::Model;

/// How many numbers follow the standard opcodes 1 to 12 (DWARF 5, 6.2.5.2).
const STANDARD_COUNTS: &[u8; 12] = &[0, 1, 1, 1, 1, 0, 0, 0, 1, 0, 0, 1];

/// The constants of a line number program.
#[derive(Drop)]
pub struct Header<'a> {
    minimum_length: u8,
    line_base: i8,
    line_range: u8,
    opcode_base: u8,
    operand_counts: &'a [u8],
}

impl<'a> Model for Header<'a> {
    ghost use Rattle.std.specs.Prelude.{◌≡◌, ◌+◌, ◌<◌, length};
    ghost use Rattle.dwarf_line.specs.Header.{LineHeader};

    ghost Value = { LineHeader };

    ghost view = { λ h. record {
      minimum_length = h.minimum_length;
      line_base = h.line_base;
      line_range = h.line_range;
      opcode_base = h.opcode_base;
      operand_counts = h.operand_counts.now;
    } };

    ghost invariant = { λ h. (0 < h.line_range) × (length h.operand_counts.now + 1 ≡ h.opcode_base) };
}

/// Whether a header's counts for the opcodes 1 to 12 are the standard's, as far as it states them.
fn states_standard_counts(counts: &[u8]) -> bool
    ensures { result ≡ agrees counts.now }
{
    counts
        .iter()
        .zip(STANDARD_COUNTS)
        .all(|(stated, count)| *stated == *count)
}

impl<'a> Header<'a> {
    /// The fields from minimum_instruction_length to standard_opcode_lengths.
    #[tactic(auto, unfolding(crate::specs::Header::constants_at))]
    pub fn read(cursor: &mut Cursor<'a>) -> Option<Header<'a>>
        ensures read { Reads constants_at cursor.old result cursor.new }
        ensures shrinks { OnSome result (length cursor.new < length cursor.old) }
    {
        let minimum_length = cursor.u8()?;
        let operations = cursor.u8()?;
        let _is_statement = cursor.u8()?;
        let line_base = cursor.u8()?.cast_signed();
        let line_range = cursor.u8()?;
        let opcode_base = cursor.u8()?;
        if operations != 1 || line_range == 0 || opcode_base == 0 {
            return None;
        }
        let operand_counts = cursor.bytes(u64::from(opcode_base - 1))?;
        if !states_standard_counts(operand_counts) {
            return None;
        }
        Some(Header {
            minimum_length,
            line_base,
            line_range,
            opcode_base,
            operand_counts,
        })
    }

    pub fn opcode_base(&self) -> u8
        ensures value { result ≡ self.now.opcode_base }
        ensures positive { 0 < result }
    {
        self.opcode_base
    }

    /// How many numbers follow a standard opcode.
    pub fn operand_count(&self, opcode: u8) -> u8
        requires standard { 0 < opcode }
        requires below { opcode < self.now.opcode_base }
        ensures { result ≡ slice_index self.now.operand_counts (opcode - 1) }
    {
        self.operand_counts[usize::from(opcode) - 1]
    }

    /// How far a special opcode that is so much above opcode_base moves the address, in bytes.
    pub fn special_bytes(&self, adjusted: u8) -> u32
        ensures value { result ≡ special_bytes self.now adjusted }
        ensures small { result < 2 ^ 16 }
    {
        u32::from(adjusted / self.line_range) * u32::from(self.minimum_length)
    }

    /// How far such an opcode moves the line.
    pub fn special_lines(&self, adjusted: u8) -> i64
        ensures { result ≡ special_lines self.now adjusted }
    {
        i64::from(self.line_base) + i64::from(adjusted % self.line_range)
    }

    pub fn minimum_length(&self) -> u8
        ensures { result ≡ self.now.minimum_length }
    {
        self.minimum_length
    }
}

/// A unit without its length, cut into the header behind header_length and the program; `None` where it is
/// not of the kind that is read.
#[tactic(auto, unfolding(crate::specs::Header::parts_of))]
pub fn parts(body: &[u8]) -> Option<(&[u8], &[u8])>
    ensures value { option_map (λ p. (p.0.now, p.1.now)) result ≡ parts_of body.now }
    ensures room { IfSome result (λ p. length p.0.now ≤ length body.now) }
{
    let mut cursor = Cursor::new(body);
    let version = cursor.u16()?;
    let address_size = cursor.u8()?;
    let segment_size = cursor.u8()?;
    let header_length = cursor.u32()?;
    if version != 5 || address_size != 4 || segment_size != 0 {
        return None;
    }
    let header = cursor.bytes(u64::from(header_length))?;
    Some((header, cursor.rest()))
}
