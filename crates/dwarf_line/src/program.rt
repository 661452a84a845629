//! A line number program, run over a matrix (DWARF 5, 6.2.5).

ghost use Rattle.std.specs.Prelude.{◌≡◌, ◌≤◌, length, map, option_map, OnOk, IfOk};
ghost use Rattle.dwarf_line.specs.Program.{program_sequences, sequence_by, registers_after};
ghost use Rattle.dwarf_line.specs.inner.Matrix.{numbered_row, Grows, Keeps, Takes, Refuses};

use crate::cursor::Cursor;
use crate::fault::Fault;
use crate::header::Header;
use crate::instruction::Instruction;
use crate::matrix::{Matrix, Numbering};
use crate::registers::{Outcome, Registers};

/// Takes what an instruction led to, and gives the registers behind it.
fn take(outcome: Outcome, numbering: Numbering, matrix: &mut Matrix) -> Result<Registers, Fault>
    requires { matrix.old.first ≤ length matrix.old.rows }
    ensures ok { IfOk result (λ state. (state ≡ registers_after outcome)
        × Takes numbering.before numbering.count outcome matrix.old matrix.new) }
    ensures damaged { result ≡ Err Fault.Damaged
        → Refuses outcome matrix.old × (matrix.new ≡ matrix.old) }
{
    match outcome {
        Outcome::Goes(state) => Ok(state),
        Outcome::Row(state) => {
            matrix.add_row(numbering.row(state))?;
            Ok(state)
        }
        Outcome::End(address) => {
            matrix.end_sequence(address)?;
            Ok(Registers::start())
        }
    }
}

/// Adds the sequences of a program to a matrix that has none open. Where the program is damaged, the
/// matrix keeps what it held, and may hold more behind it.
pub fn run(
    header: &Header<'_>,
    program: &[u8],
    numbering: Numbering,
    matrix: &mut Matrix,
) -> Result<(), Fault>
    requires { matrix.old.first ≡ length matrix.old.rows }
    ensures ok { OnOk result (Grows
        (option_map (map (sequence_by (numbered_row numbering.before numbering.count)))
        (program_sequences header.now program.now))
        matrix.old matrix.new) }
    ensures damaged { result ≡ Err Fault.Damaged
        → (program_sequences header.now program.now ≡ None) × Keeps matrix.old matrix.new }
{
    let mut cursor = Cursor::new(program);
    let mut state = Registers::start();
    'program: while !cursor.is_empty() {
        let instruction = Instruction::read(header, &mut cursor).ok_or(Fault::Damaged)?;
        let outcome = state.after(header, instruction).ok_or(Fault::Damaged)?;
        state = take(outcome, numbering, matrix)?;
    }
    if matrix.is_closed() {
        Ok(())
    } else {
        Err(Fault::Damaged)
    }
}
