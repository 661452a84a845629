//! The lines that a part begins with.

ghost use Rattle.std.specs.Prelude.{◌≡◌, ◌++◌, ◌∷◌, [], List, IfOk, OnOk, codes, map, reverse};
ghost use Rattle.event_costs.specs.Costs.{IsWhole};
ghost use Rattle.byte_text.specs.Names.{clean_name};
ghost use Rattle.sym_map.specs.SymbolMap.{SymbolMap};
ghost use Rattle.cg_format.specs.Heading.{cache_text, description_lines, heading};
ghost use Rattle.cg_format.specs.Heading.{identity_lines, summary_lines, totals, trigger_text};
ghost use Rattle.cg_format.specs.Marks.{Mark, Plain};
ghost use Rattle.cg_format.specs.Standing.{WriterState};

use crate::head::PartHead;
use crate::sums::shown_sums;
use crate::trigger::Trigger;
use crate::writer::Writer;
use byte_text::{OutOfMemory, Text, clean_name};
use cache_lru::Geometry;
use event_costs::event_names_shown;
use std::alloc::Global;

/// A cache's size, line length and associativity.
fn cache_text(alloc: Global, name: &[u8], cache: Geometry) -> Result<Text, OutOfMemory>
    ensures { IfOk result (λ text. text ≡ cache_text name.now cache) }
{
    let mut text = Text::from_bytes(alloc, name)?;
    text.push(b" cache: ")?;
    text.push_number(u64::from(cache.size()))?;
    text.push(b" B, ")?;
    text.push_number(u64::from(cache.line()))?;
    text.push(b" B, ")?;
    text.push_number(u64::from(cache.assoc()))?;
    text.push(b"-way associative")?;
    Ok(text)
}

/// An option of the command with a cleaned name as its value.
fn option_text(alloc: Global, option: &[u8], name: &Text) -> Result<Text, OutOfMemory>
    ensures { IfOk result (λ text. text ≡ option.now ++ clean_name name.now) }
{
    let mut text = Text::from_bytes(alloc, option)?;
    text.push(clean_name(alloc, name.as_bytes())?.as_bytes())?;
    Ok(text)
}

/// Why a part ends.
fn trigger_text(alloc: Global, trigger: &Trigger) -> Result<Text, OutOfMemory>
    ensures { IfOk result (λ text. text ≡ trigger_text trigger.now) }
{
    match trigger {
        Trigger::Every(steps) => {
            let mut text = Text::from_bytes(alloc, b"--dump-every=")?;
            text.push_number(*steps)?;
            Ok(text)
        }
        Trigger::Before(name) => option_text(alloc, b"--dump-before=", name),
        Trigger::After(name) => option_text(alloc, b"--dump-after=", name),
        Trigger::Termination => Text::from_bytes(alloc, b"Program termination"),
    }
}

/// Writes the format, the part and the command.
pub fn put_identity(alloc: Global, writer: &mut Writer, head: &PartHead) -> Result<(), OutOfMemory>
    ensures { (m : SymbolMap) (before : List Mark) → WriterState m before writer.old
        → OnOk result (WriterState m (reverse (map Plain (identity_lines head.now)) ++ before) writer.new) }
{
    let command = clean_name(alloc, head.cmd.as_bytes())?;
    writer.put_line(b"# callgrind format", b"")?;
    writer.put_line(b"version: 1", b"")?;
    writer.put_line(b"creator: cgprof-1", b"")?;
    writer.put_line(b"pid: 1", b"")?;
    writer.put_number(b"thread: ", head.thread.0)?;
    writer.put_number(b"part: ", head.part)?;
    writer.put_line(b"cmd: ", command.as_bytes())
}

/// Writes the caches, and why the part ends.
pub fn put_description(
    alloc: Global,
    writer: &mut Writer,
    head: &PartHead,
) -> Result<(), OutOfMemory>
    ensures { (m : SymbolMap) (before : List Mark) → WriterState m before writer.old
        → OnOk result (WriterState m (reverse (map Plain (description_lines head.now)) ++ before) writer.new) }
{
    let i1 = cache_text(alloc, b"I1", head.i1)?;
    let d1 = cache_text(alloc, b"D1", head.d1)?;
    let ll = cache_text(alloc, b"LL", head.ll)?;
    let trigger = trigger_text(alloc, &head.trigger)?;
    writer.put_line(b"desc: ", i1.as_bytes())?;
    writer.put_line(b"desc: ", d1.as_bytes())?;
    writer.put_line(b"desc: ", ll.as_bytes())?;
    writer.put_line(b"desc: Trigger: ", trigger.as_bytes())
}

/// Writes the events shown, and the sum of the line rows.
pub fn put_summary(writer: &mut Writer, head: &PartHead, sum: &[u128]) -> Result<(), OutOfMemory>
    requires { IsWhole sum.now }
    ensures { (m : SymbolMap) (before : List Mark) → WriterState m before writer.old
        → OnOk result (WriterState m (reverse (map Plain (summary_lines head.now sum.now)) ++ before) writer.new) }
{
    writer.put_names(b"events:", event_names_shown(head.branch))?;
    writer.put_sums(b"summary:", shown_sums(head.branch, sum))
}

/// Writes that positions are lines, the events shown, and the sum of the line rows.
fn put_events(writer: &mut Writer, head: &PartHead, sum: &[u128]) -> Result<(), OutOfMemory>
    requires { IsWhole sum.now }
    ensures { (m : SymbolMap) (before : List Mark) → WriterState m before writer.old
        → OnOk result (WriterState m
        (reverse (map Plain (codes "positions: line" ∷ summary_lines head.now sum.now)) ++ before) writer.new) }
{
    writer.put_line(b"positions: line", b"")?;
    put_summary(writer, head, sum)
}

/// Writes the lines before the first function, where the line rows have this sum.
pub(crate) fn put_heading(
    alloc: Global,
    writer: &mut Writer,
    head: &PartHead,
    sum: &[u128],
) -> Result<(), OutOfMemory>
    requires { IsWhole sum.now }
    ensures { (m : SymbolMap) (before : List Mark) → WriterState m before writer.old
        → OnOk result (WriterState m (reverse (map Plain (heading head.now sum.now)) ++ before) writer.new) }
{
    put_identity(alloc, writer, head)?;
    put_description(alloc, writer, head)?;
    put_events(writer, head, sum)
}

/// Writes the end: an empty line and the sum of the line rows.
pub fn put_totals(writer: &mut Writer, head: &PartHead, sum: &[u128]) -> Result<(), OutOfMemory>
    requires { IsWhole sum.now }
    ensures { (m : SymbolMap) (before : List Mark) → WriterState m before writer.old
        → OnOk result (WriterState m (Plain (totals head.now sum.now) ∷ (Plain [] ∷ before)) writer.new) }
{
    writer.put_line(b"", b"")?;
    writer.put_sums(b"totals:", shown_sums(head.branch, sum))
}
