//! Names and numbers in a message.

ghost use Rattle.std.specs.Prelude.{◌≡◌, ◌++◌, OnOk, decimal};
ghost use Rattle.byte_text.specs.Names.{clean_name};

use byte_text::{OutOfMemory, Text, clean_name};
use std::alloc::Global;

/// Appends a name, cleaned.
pub fn push_name(alloc: Global, text: &mut Text, name: &Text) -> Result<(), OutOfMemory>
    ensures { OnOk result (text.new ≡ text.old ++ clean_name name.now) }
{
    let name = clean_name(alloc, name.as_bytes())?;
    text.push(name.as_bytes())
}

/// Appends words and a number.
pub fn push_after(text: &mut Text, before: &[u8], number: u64) -> Result<(), OutOfMemory>
    ensures { OnOk result (text.new ≡ text.old ++ before.now ++ decimal number) }
{
    text.push(before)?;
    text.push_number(number)
}

/// Appends a number between words.
pub fn push_between(
    text: &mut Text,
    before: &[u8],
    number: u64,
    after: &[u8],
) -> Result<(), OutOfMemory>
    ensures { OnOk result (text.new ≡ text.old ++ before.now ++ decimal number ++ after.now) }
{
    push_after(text, before, number)?;
    text.push(after)
}
