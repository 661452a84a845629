//! The section `.debug_line` (DWARF 5, 6.2.4): one unit with one file.

ghost use Rattle.std.specs.Prelude.{◌≡◌, ◌<◌, ◌^◌, ◌++◌, length, IfOk, OnOk};
ghost use Rattle.prog_make.specs.inner.LineProgram.{program_bytes};
ghost use Rattle.prog_make.specs.inner.LineSection.{line_header_bytes, line_section, unit_bytes};

use crate::function_part::FunctionPart;
use crate::line_program::push_program;
use crate::numbers::{push_halves, push_words};
use byte_text::{OutOfMemory, Text};
use dwarf_line::standard::{DW_FORM_STRING, DW_LNCT_PATH};
use std::alloc::Global;

/// From minimum_instruction_length to the lengths of the standard opcodes.
const CONSTANTS: [u8; 18] = [1, 1, 1, 251, 14, 13, 0, 1, 1, 1, 1, 0, 0, 0, 1, 0, 0, 1];
/// The table of directories, of which there is an empty one, and the format of the table of files.
const TABLES: [u8; 9] = [
    1,
    DW_LNCT_PATH as u8,
    DW_FORM_STRING as u8,
    1,
    0,
    1,
    DW_LNCT_PATH as u8,
    DW_FORM_STRING as u8,
    1,
];
/// The bytes of a header behind header_length, without those of the file's text.
const HEADER_LEN: usize = 28;
/// The bytes of version, address_size, segment_selector_size and header_length.
const FRONT_LEN: usize = 8;

/// Appends what stands between header_length and the program.
#[tactic(auto, unfolding(crate::specs::inner::LineSection::line_header_bytes))]
fn push_line_header(out: &mut Text, file: &Text) -> Result<(), OutOfMemory>
    ensures { OnOk result (out.new ≡ out.old ++ line_header_bytes file.now) }
{
    out.push(&CONSTANTS)?;
    out.push(&TABLES)?;
    out.push(file.as_bytes())?;
    out.push(&[0])
}

/// Appends a unit without its length.
#[tactic(auto, unfolding(crate::specs::inner::LineSection::unit_bytes))]
fn push_unit(out: &mut Text, file: &Text, program: &Text) -> Result<(), OutOfMemory>
    requires { length (unit_bytes file.now program.now) < 2 ^ 32 }
    ensures { OnOk result (out.new ≡ out.old ++ unit_bytes file.now program.now) }
{
    push_halves(out, &[5])?;
    out.push(&[4, 0])?;
    push_words(out, &[(HEADER_LEN + file.len()) as u32])?;
    push_line_header(out, file)?;
    out.push(program.as_bytes())
}

/// The section with the lines of functions in a file of this text.
pub fn line_section(
    alloc: Global,
    functions: &[FunctionPart],
    file: &Text,
) -> Result<Text, OutOfMemory>
    requires { length (line_section file.now functions.now) < 2 ^ 32 }
    ensures { IfOk result (λ section. section ≡ line_section file.now functions.now) }
{
    let mut program = Text::new(alloc);
    push_program(&mut program, functions)?;
    let unit_len = FRONT_LEN + HEADER_LEN + file.len() + program.len();
    let mut section = Text::new(alloc);
    push_words(&mut section, &[unit_len as u32])?;
    push_unit(&mut section, file, &program)?;
    Ok(section)
}
