//! A word to its instruction.

ghost use Rattle.std.specs.Prelude.{◌≡◌, ◌<◌, ◌^◌, ◌↔◌, All, IfSome, IsNone};
ghost use Rattle.rv_decode.specs.Decoded.{decode, matching_row};
ghost use Rattle.rv_decode.specs.Encoded.{HasAmounts, HasEvenOffsets, HasRegisters, IsInRange, encode};
ghost use Rattle.rv_decode.specs.Layout.{instr_of};
ghost use Rattle.rv_decode.specs.Matching.{Matches};
ghost use Rattle.rv_decode.specs.Table.{listed_rows};

use crate::candidate::candidate;
use crate::instr::Instr;
use crate::layout::instr_of;
use crate::row::{ROWS, Row, find, row_of};

/// The row that the word matches, by a search of the table.
fn row_by_search(word: u32) -> Option<Row>
    ensures { result ≡ matching_row word }
{
    let index = find(&ROWS, word)?;
    Some(ROWS[index])
}

/// The row that the word matches, by its opcode and its function fields.
#[inline]
fn row_by_fields(word: u32) -> Option<Row>
    ensures { result ≡ matching_row word }
{
    let row = row_of(candidate(word)?);
    if word & row.mask == row.bits {
        Some(row)
    } else {
        None
    }
}

/// The instruction of a word whose row is known.
#[inline]
fn instr_by(row: Option<Row>, word: u32) -> Option<Instr>
    requires { row ≡ matching_row word }
    ensures { result ≡ decode word }
{
    let row = row?;
    Some(instr_of(row.shape, row.op, word))
}

/// The instruction of a word, or None exactly where the word is in no row. Constant work, whatever the word.
#[inline]
pub fn decode(word: u32) -> Option<Instr>
    ensures row { result ≡ decode word }
    ensures none { IsNone result ↔ All (λ r. ¬ Matches word r) listed_rows }
    ensures one_row { IfSome result (λ i. All (λ r. Matches word r → i ≡ instr_of r.shape r.op word) listed_rows) }
    // The fields of the instruction are in their ranges,
    ensures registers { IfSome result HasRegisters }
    ensures in_range { IfSome result IsInRange }
    ensures amounts { IfSome result HasAmounts }
    ensures even_offsets { IfSome result HasEvenOffsets }
    // and its word is this one.
    ensures word { IfSome result (λ i. encode i ≡ word) }
{
    instr_by(row_by_fields(word), word)
}

/// The same by a search of the whole table: the plain form of `decode`.
pub fn decode_by_search(word: u32) -> Option<Instr>
    ensures { result ≡ decode word }
{
    instr_by(row_by_search(word), word)
}
