//! Tables of strings (gABI, String Table).

ghost use Rattle.std.specs.Prelude.{◌≡◌, ◌++◌, OnOk};
ghost use Rattle.prog_make.specs.inner.Strings.{name_strings, section_strings};

use crate::function_part::FunctionPart;
use byte_text::{OutOfMemory, Text};

const SECTION_STRINGS: [u8; 51] = *b"\0.debug_line\0.symtab\0.strtab\0.shstrtab\0.text\0.data\0";

/// Appends the names of sections.
#[tactic(auto, unfolding(crate::specs::inner::Strings::section_strings))]
pub fn push_section_strings(out: &mut Text) -> Result<(), OutOfMemory>
    ensures { OnOk result (out.new ≡ out.old ++ section_strings) }
{
    out.push(&SECTION_STRINGS)
}

/// Appends the names of functions, behind the empty one.
pub fn push_names(out: &mut Text, functions: &[FunctionPart]) -> Result<(), OutOfMemory>
    ensures { OnOk result (out.new ≡ out.old ++ name_strings functions.now) }
{
    out.push(&[0])?;
    'functions: for function in functions {
        out.push(function.name.as_bytes())?;
        out.push(&[0])?;
    }
    Ok(())
}
