//! The line number program (DWARF 5, 6.2.5): a sequence for each function with lines.

ghost use Rattle.std.specs.Prelude.{◌≡◌, ◌≢◌, ◌<◌, ◌++◌, OnOk};
ghost use Rattle.prog_make.specs.inner.LineProgram.{padded_leb128, first_row_bytes, end_bytes};
ghost use Rattle.prog_make.specs.inner.LineProgram.{sequence_bytes, program_bytes};

use crate::function_part::FunctionPart;
use crate::numbers::push_words;
use byte_text::{OutOfMemory, Text};
use dwarf_line::standard::{
    DW_LNE_END_SEQUENCE, DW_LNE_SET_ADDRESS, DW_LNS_ADVANCE_LINE, DW_LNS_ADVANCE_PC, DW_LNS_COPY,
    DW_LNS_EXTENDED_OP, DW_LNS_SET_FILE,
};
use event_costs::INSTRUCTION_BYTES;

/// The special opcode that goes on by four bytes and one line.
const NEXT_ROW: u8 = 75;

/// Appends a number as a SLEB128 of five bytes.
#[tactic(auto, unfolding(crate::specs::inner::LineProgram::padded_leb128))]
fn push_padded_leb128(out: &mut Text, n: u32) -> Result<(), OutOfMemory>
    ensures { OnOk result (out.new ≡ out.old ++ padded_leb128 n) }
{
    out.push(&[
        (n % 128 + 128) as u8,
        (n / 128 % 128 + 128) as u8,
        (n / 128 / 128 % 128 + 128) as u8,
        (n / 128 / 128 / 128 % 128 + 128) as u8,
        (n / 128 / 128 / 128 / 128) as u8,
    ])
}

/// Appends what leads to the row of a function's first instruction.
#[tactic(auto, unfolding(crate::specs::inner::LineProgram::first_row_bytes))]
fn push_first_row(out: &mut Text, function: &FunctionPart) -> Result<(), OutOfMemory>
    requires { function.now.first_line ≢ 0 }
    ensures { OnOk result (out.new ≡ out.old ++ first_row_bytes function.now) }
{
    // The extended opcode has five bytes with the address.
    out.push(&[DW_LNS_EXTENDED_OP, 5, DW_LNE_SET_ADDRESS])?;
    push_words(out, &[function.addr])?;
    out.push(&[DW_LNS_SET_FILE, 0, DW_LNS_ADVANCE_LINE])?;
    push_padded_leb128(out, function.first_line - 1)?;
    out.push(&[DW_LNS_COPY])
}

/// Appends the end of a sequence behind its last instruction.
#[tactic(auto, unfolding(crate::specs::inner::LineProgram::end_bytes))]
fn push_end(out: &mut Text) -> Result<(), OutOfMemory>
    ensures { OnOk result (out.new ≡ out.old ++ end_bytes) }
{
    out.push(&[
        DW_LNS_ADVANCE_PC,
        INSTRUCTION_BYTES as u8,
        DW_LNS_EXTENDED_OP,
        1,
        DW_LNE_END_SEQUENCE,
    ])
}

/// Appends the sequence of a function.
fn push_sequence(out: &mut Text, function: &FunctionPart) -> Result<(), OutOfMemory>
    requires { function.now.first_line ≢ 0 }
    ensures { OnOk result (out.new ≡ out.old ++ sequence_bytes function.now) }
{
    push_first_row(out, function)?;
    'rows: for _row in 1..function.size / INSTRUCTION_BYTES {
        out.push(&[NEXT_ROW])?;
    }
    push_end(out)
}

/// Appends the sequences of the functions that have lines.
pub fn push_program(out: &mut Text, functions: &[FunctionPart]) -> Result<(), OutOfMemory>
    ensures { OnOk result (out.new ≡ out.old ++ program_bytes functions.now) }
{
    'functions: for function in functions {
        if function.first_line != 0 {
            push_sequence(out, function)?;
        }
    }
    Ok(())
}
