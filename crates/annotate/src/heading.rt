//! The lines on the whole profile.

ghost use Rattle.std.specs.Prelude.{◌≡◌, ◌++◌, ◌<◌, OnOk, codes, decimal, length};
ghost use Rattle.std.specs.List.{join_by};
ghost use Rattle.std.specs.Option.{option_map_or};
ghost use Rattle.byte_text.specs.Names.{clean_name, unknown};
ghost use Rattle.cg_read.specs.Totals.{total};
ghost use Rattle.annotate.specs.Functions.{heading};
ghost use Rattle.annotate.specs.Names.{costs_text};
ghost use Rattle.report_rows.specs.Lists.{each_event};

use crate::names::{push_clean, push_costs, push_texts};
use byte_text::{OutOfMemory, Text, UNKNOWN};
use cg_read::Profile;
use report_rows::ReportOptions;
use std::alloc::Global;

/// Writes the command, as far as it is known.
fn put_command(alloc: Global, text: &mut Text, command: &Option<Text>) -> Result<(), OutOfMemory>
    ensures { OnOk result (text.new ≡ text.old
        ++ (codes "command: " ++ option_map_or clean_name command.now unknown ++ codes "\n")) }
{
    text.push(b"command: ")?;
    match command {
        Some(command) => push_clean(alloc, text, command.as_bytes())?,
        None => text.push(UNKNOWN)?,
    }
    text.push(b"\n")
}

/// Writes the names of the events.
fn put_events(text: &mut Text, events: &[Text]) -> Result<(), OutOfMemory>
    ensures { OnOk result (text.new ≡ text.old
        ++ (codes "events: " ++ join_by (λ name. name) (codes " ") events.now ++ codes "\n")) }
{
    text.push(b"events: ")?;
    push_texts(text, events)?;
    text.push(b"\n")
}

/// Writes the total of each event.
fn put_totals(text: &mut Text, totals: &[u64]) -> Result<(), OutOfMemory>
    ensures { OnOk result (text.new ≡ text.old ++ (codes "totals: " ++ costs_text totals.now ++ codes "\n")) }
{
    text.push(b"totals: ")?;
    push_costs(text, totals)?;
    text.push(b"\n")
}

/// Writes how the groups are chosen.
fn put_sort(text: &mut Text, event: &Text, threshold: u32) -> Result<(), OutOfMemory>
    ensures { OnOk result (text.new ≡ text.old
        ++ (codes "sort: " ++ event.now ++ codes " threshold: " ++ decimal threshold ++ codes "\n")) }
{
    text.push(b"sort: ")?;
    text.push(event.as_bytes())?;
    text.push(b" threshold: ")?;
    text.push_number(u64::from(threshold))?;
    text.push(b"\n")
}

/// Writes the lines on the whole profile.
pub(crate) fn put_heading(
    alloc: Global,
    text: &mut Text,
    profile: &Profile,
    options: &ReportOptions,
    totals: &[u64],
) -> Result<(), OutOfMemory>
    requires sort { options.now.sort < length profile.now.events }
    requires totals { totals.now ≡ each_event profile.now (total profile.now) }
    ensures { OnOk result (text.new ≡ text.old ++ heading profile.now options.now) }
{
    put_command(alloc, text, &profile.command)?;
    put_events(text, &profile.events)?;
    put_totals(text, totals)?;
    put_sort(text, &profile.events[options.sort], options.threshold)?;
    Ok(())
}
