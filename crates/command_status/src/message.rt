//! The line that tells the user how a command ended.

ghost use Rattle.std.specs.Prelude.{◌≡◌, ◌++◌, IfOk, OnErr, OnOk, codes, decimal, false};
ghost use Rattle.byte_text.specs.Names.{clean_name};
ghost use Rattle.command_status.specs.Lines.{elf_text, format_text, is_silent, message_of, text_of, usage};
ghost use Rattle.byte_text.specs.Hex.{hex};

use crate::named::{push_after, push_between, push_name};
use crate::refusal::{push_elf_error, push_format_error};
use crate::status::Status;
use byte_text::{OutOfMemory, Text};
use elf_read::ElfError;
use std::alloc::Global;

impl Status {
    /// Whether there is nothing to be said: all went well, or output can't be written.
    fn is_silent(&self) -> bool
        ensures { result ≡ is_silent self.now }
    {
        match self {
            Status::Done | Status::OutFault => true,
            Status::Exited(code) => *code == 0,
            _ => false,
        }
    }

    /// The line for the user: `cgprof: `, what happened and a line feed; or nothing after `Done`, an exit with 0 and
    /// `OutFault`. Names are cleaned.
    #[tactic(auto, unfolding(crate::specs::Lines::message_of))]
    pub fn message(&self, alloc: Global) -> Result<Text, OutOfMemory>
        ensures line { IfOk result (λ text. text ≡ message_of self.now) }
        // What has nothing to be said takes no memory.
        ensures wanting { OnErr result (is_silent self.now ≡ false) }
    {
        let mut text = Text::new(alloc);
        if self.is_silent() {
            return Ok(text);
        }
        text.push(b"cgprof: ")?;
        self.push_text(alloc, &mut text)?;
        text.push(b"\n")?;
        Ok(text)
    }

    /// Appends what happened.
    #[tactic(auto, unfolding(crate::specs::Lines::text_of))]
    fn push_text(&self, alloc: Global, text: &mut Text) -> Result<(), OutOfMemory>
        ensures { OnOk result (text.new ≡ text.old ++ text_of self.now) }
    {
        match self {
            Status::Done | Status::OutFault => Ok(()),
            Status::Exited(code) => push_after(text, b"exited with ", u64::from(*code)),
            Status::Usage => push_usage(text),
            Status::ElfRefused(error) => push_refused(text, *error),
            Status::LoadFault(name) => push_named(alloc, text, b"cannot load ", name),
            Status::PutFault(name) => push_named(alloc, text, b"cannot write ", name),
            Status::TooLong(name, len) => push_too_long(alloc, text, name, *len),
            Status::FormatRefused(name, error) => {
                push_name(alloc, text, name)?;
                push_format_error(text, *error)
            }
            Status::SumLimit(event) => push_after(text, b"sum limit: event ", u64::from(*event)),
            Status::EventsDiffer(name) => {
                push_name(alloc, text, name)?;
                text.push(b": other events")
            }
            Status::Killed(signal, pc) => {
                push_at(text, b"killed by signal ", u64::from(*signal), *pc)
            }
            Status::UnsupportedInstr(pc, word) => push_unsupported(text, *pc, *word),
            Status::UnsupportedCall(pc, number) => {
                push_at(text, b"unsupported call ", u64::from(*number), *pc)
            }
            Status::Budget(steps) => push_between(text, b"budget of ", *steps, b" steps spent"),
            Status::Frames => text.push(b"4194304 frames are live"),
            Status::AllWaiting => text.push(b"all threads wait"),
            Status::GuestFull => text.push(b"guest memory full"),
            Status::ArgsTooLong(len) => {
                push_between(text, b"arguments too long: ", *len, b" bytes")
            }
            Status::OutOfMemory(_) => text.push(b"out of memory"),
        }
    }
}

#[tactic(auto, unfolding(crate::specs::Lines::usage))]
fn push_usage(text: &mut Text) -> Result<(), OutOfMemory>
    ensures { OnOk result (text.new ≡ text.old ++ usage) }
{
    text.push(b"usage: run or report [OPTIONS] PROG [ARGS], annotate [OPTIONS] FILES, demo N")
}

/// Appends that a program's file is refused.
fn push_refused(text: &mut Text, error: ElfError) -> Result<(), OutOfMemory>
    ensures { OnOk result (text.new ≡ text.old ++ codes "elf refused: " ++ elf_text error) }
{
    text.push(b"elf refused: ")?;
    push_elf_error(text, error)
}

/// Appends words and a name, cleaned.
fn push_named(alloc: Global, text: &mut Text, before: &[u8], name: &Text) -> Result<(), OutOfMemory>
    ensures { OnOk result (text.new ≡ text.old ++ before.now ++ clean_name name.now) }
{
    text.push(before)?;
    push_name(alloc, text, name)
}

/// Appends that the file of this name is too long.
fn push_too_long(alloc: Global, text: &mut Text, name: &Text, len: u64) -> Result<(), OutOfMemory>
    ensures { OnOk result
        (text.new ≡ text.old ++ codes "too long: " ++ clean_name name.now ++ codes ", " ++ decimal len ++ codes " bytes") }
{
    push_named(alloc, text, b"too long: ", name)?;
    push_between(text, b", ", len, b" bytes")
}

/// Appends words, a number and the address at which something happened.
fn push_at(text: &mut Text, before: &[u8], number: u64, pc: u32) -> Result<(), OutOfMemory>
    ensures { OnOk result (text.new ≡ text.old ++ before.now ++ decimal number ++ codes " at " ++ hex pc) }
{
    push_between(text, before, number, b" at ")?;
    text.push_hex(pc)
}

/// Appends which instruction isn't known, and where.
fn push_unsupported(text: &mut Text, pc: u32, word: u32) -> Result<(), OutOfMemory>
    ensures { OnOk result
        (text.new ≡ text.old ++ codes "unsupported instruction " ++ hex word ++ codes " at " ++ hex pc) }
{
    text.push(b"unsupported instruction ")?;
    text.push_hex(word)?;
    text.push(b" at ")?;
    text.push_hex(pc)
}
