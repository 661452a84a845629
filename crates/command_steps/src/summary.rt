//! The seven lines of a demonstration.

ghost use Rattle.std.specs.Prelude.{◌≡◌, ◌++◌, IfOk, codes, decimal};
ghost use Rattle.outside.specs.Outside.{Outside, stream_of, with_out};
ghost use Rattle.std.specs.Prelude.{OnOk};
ghost use Rattle.std.specs.List.{flat_map};
ghost use Rattle.command_steps.specs.Summary.{MakesTotals, ShowsSummary, WritesSummary, figure, figure_lines, summary};
ghost use Rattle.command_steps.specs.Stages.{Did};

use crate::reporting::write_report;
use byte_text::{OutOfMemory, Text};
use cg_read::{CostList, Profile, SumError};
use command_status::Status;
use outside::Sink;
use std::alloc::Global;

/// What is told of a demonstration beside its totals.
#[derive(Clone, Copy, Debug)]
pub struct Figures {
    pub size: u32,
    /// The bytes of the program's file.
    pub len: u64,
    /// The code that it exited with.
    pub code: u8,
    pub steps: u64,
    /// How many threads were made, the first among them.
    pub threads: u32,
    /// How many parts were put.
    pub files: u64,
}

/// Writes the summary of a demonstration, whose parts read as this profile. Whatever stops this is a status.
pub fn show_summary<O: Sink>(
    alloc: Global,
    figures: &Figures,
    profile: &Profile,
    out: &mut O,
) -> Result<(), Status>
    ensures shows { (beside : Outside) → ShowsSummary (with_out beside (stream_of O.Sink out.old)) figures.now
        profile.now result (with_out beside (stream_of O.Sink out.new)) }
    ensures told { (beside : Outside) → Did (WritesSummary figures.now profile.now)
        (with_out beside (stream_of O.Sink out.old)) result (with_out beside (stream_of O.Sink out.new)) }
{
    let totals = totals_of(profile)?;
    let text = summary(alloc, figures, &totals.items)?;
    write_report(out, &text)
}

/// The totals of a profile.
fn totals_of(profile: &Profile) -> Result<CostList, Status>
    ensures { MakesTotals profile.now result }
{
    match profile.totals() {
        Ok(totals) => Ok(totals),
        Err(SumError::SumLimit(event)) => Err(Status::SumLimit(event)),
        Err(SumError::OutOfMemory(refused)) => Err(Status::OutOfMemory(refused)),
    }
}

/// The text of a summary.
fn summary(alloc: Global, figures: &Figures, totals: &[u64]) -> Result<Text, OutOfMemory>
    ensures { IfOk result (λ text. text ≡ summary figures.now totals.now) }
{
    let mut text = Text::new(alloc);
    push_figures(&mut text, figures)?;
    text.push(b"totals")?;
    push_totals(&mut text, totals)?;
    text.push(b"\n")?;
    Ok(text)
}

/// Appends a line for each figure.
fn push_figures(text: &mut Text, figures: &Figures) -> Result<(), OutOfMemory>
    ensures { OnOk result (text.new ≡ text.old ++ figure_lines figures.now) }
{
    push_figure(text, b"demo ", u64::from(figures.size), b"\n")?;
    push_figure(text, b"elf ", figures.len, b" bytes\n")?;
    push_figure(text, b"end exited ", u64::from(figures.code), b"\n")?;
    push_figure(text, b"steps ", figures.steps, b"\n")?;
    push_figure(text, b"threads ", u64::from(figures.threads), b"\n")?;
    push_figure(text, b"files ", figures.files, b"\n")
}

/// Appends totals, each behind a space.
fn push_totals(text: &mut Text, totals: &[u64]) -> Result<(), OutOfMemory>
    ensures { OnOk result (text.new ≡ text.old ++ flat_map (λ total. codes " " ++ decimal total) totals.now) }
{
    'totals: for total in totals {
        text.push(b" ")?;
        text.push_number(*total)?;
    }
    Ok(())
}

/// Appends a number between two texts.
fn push_figure(
    text: &mut Text,
    before: &[u8],
    number: u64,
    behind: &[u8],
) -> Result<(), OutOfMemory>
    ensures { OnOk result (text.new ≡ text.old ++ figure before.now number behind.now) }
{
    text.push(before)?;
    text.push_number(number)?;
    text.push(behind)
}
