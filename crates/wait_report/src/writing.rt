//! The text of a report on waiting.

ghost use Rattle.std.specs.Prelude.{◌≡◌, ◌++◌, ◌<◌, ◌^◌, ◌∷◌, [], ℕ, IfOk, OnOk, codes};
ghost use Rattle.std.specs.Prelude.{decimal, flat_map, map, slice_index, sum_by};
ghost use Rattle.byte_text.specs.Names.{clean_name};
ghost use Rattle.cg_format.specs.Marks.{cost_text, words_text};
ghost use Rattle.wait_report.specs.Texts.{command_text, cost_line, events_text, number_text, row_text, spot_text};
ghost use Rattle.wait_report.specs.Texts.{sum_of_rows, total_text, waits_text, waker_text};

use crate::rows::{WaitRow, WaitRows, Waker};
use byte_text::{OutOfMemory, Text, clean_name};
use event_costs::{Cost, event_names_shown};
use std::alloc::Global;

/// Appends names, each after a space.
fn push_names(text: &mut Text, names: &[&str]) -> Result<(), OutOfMemory>
    ensures { OnOk result (text.new ≡ text.old ++ words_text (map (λ name. name.now) names.now)) }
{
    'names: for name in names {
        text.push(b" ")?;
        text.push(name.as_bytes())?;
    }
    Ok(())
}

/// Appends numbers, each after a space.
fn push_numbers(text: &mut Text, numbers: &[u64]) -> Result<(), OutOfMemory>
    ensures { OnOk result (text.new ≡ text.old ++ cost_text numbers.now) }
{
    'numbers: for number in numbers {
        text.push(b" ")?;
        text.push_number(*number)?;
    }
    Ok(())
}

/// Appends words and a number.
fn push_after(text: &mut Text, words: &[u8], number: u64) -> Result<(), OutOfMemory>
    ensures { OnOk result (text.new ≡ text.old ++ words.now ++ decimal number) }
{
    text.push(words)?;
    text.push_number(number)
}

/// Appends a text, cleaned.
fn push_cleaned(alloc: Global, text: &mut Text, name: &Text) -> Result<(), OutOfMemory>
    ensures { OnOk result (text.new ≡ text.old ++ clean_name name.now) }
{
    let name = clean_name(alloc, name.as_bytes())?;
    text.push(name.as_bytes())
}

/// Appends what the text is, and the command, cleaned.
fn push_command(alloc: Global, text: &mut Text, cmd: &Text) -> Result<(), OutOfMemory>
    ensures { OnOk result (text.new ≡ text.old ++ command_text cmd.now) }
{
    text.push(b"# waits\ncmd: ")?;
    push_cleaned(alloc, text, cmd)
}

/// Appends the names of the events shown.
fn push_events(text: &mut Text, branch: bool) -> Result<(), OutOfMemory>
    ensures { OnOk result (text.new ≡ text.old ++ events_text branch) }
{
    text.push(b"\nevents:")?;
    push_names(text, event_names_shown(branch))?;
    text.push(b"\n")
}

/// Appends the line of a waker.
fn push_waker(text: &mut Text, waker: Waker) -> Result<(), OutOfMemory>
    ensures { OnOk result (text.new ≡ text.old ++ waker_text waker) }
{
    push_after(text, b"  woken by ", u64::from(waker.thread.0))?;
    push_after(text, b" times ", waker.times)?;
    text.push(b"\n")
}

/// Appends a line for each waker.
fn push_wakers(text: &mut Text, wakers: &[Waker]) -> Result<(), OutOfMemory>
    ensures { OnOk result (text.new ≡ text.old ++ flat_map waker_text wakers.now) }
{
    'wakers: for waker in wakers {
        push_waker(text, *waker)?;
    }
    Ok(())
}

/// Appends where a row's waits began: the thread and the word.
fn push_spot(text: &mut Text, row: &WaitRow) -> Result<(), OutOfMemory>
    ensures { OnOk result (text.new ≡ text.old ++ spot_text row.now) }
{
    push_after(text, b"thread ", u64::from(row.thread.0))?;
    text.push(b" word ")?;
    text.push_hex(row.word)
}

/// Appends how many waits there are, and whether one of them is open.
fn push_waits(text: &mut Text, row: &WaitRow) -> Result<(), OutOfMemory>
    ensures { OnOk result (text.new ≡ text.old ++ number_text row.now) }
{
    push_after(text, b" waits ", row.waits)?;
    text.push(if row.unwoken { b" open 1" } else { b" open 0" })
}

/// Appends what the waits of a row cost.
fn push_cost(text: &mut Text, branch: bool, cost: &Cost) -> Result<(), OutOfMemory>
    ensures { OnOk result (text.new ≡ text.old ++ cost_line branch cost.now) }
{
    text.push(b" cost")?;
    push_numbers(text, cost.shown_numbers(branch))?;
    text.push(b"\n")
}

/// Appends the lines of a row: its waits and their cost, and its wakers.
fn push_row(text: &mut Text, branch: bool, row: &WaitRow) -> Result<(), OutOfMemory>
    ensures { OnOk result (text.new ≡ text.old ++ row_text branch row.now) }
{
    push_spot(text, row)?;
    push_waits(text, row)?;
    push_cost(text, branch, &row.cost)?;
    push_wakers(text, &row.wakers.items)
}

/// Appends the lines of all rows.
fn push_rows(text: &mut Text, branch: bool, rows: &[WaitRow]) -> Result<(), OutOfMemory>
    ensures { OnOk result (text.new ≡ text.old ++ flat_map (row_text branch) rows.now) }
{
    'rows: for row in rows {
        push_row(text, branch, row)?;
    }
    Ok(())
}

/// The cost of all rows together.
fn sum_of_rows(rows: &[WaitRow]) -> Cost
    requires { (kind : ℕ) → sum_by (λ row. slice_index row.cost kind) rows.now < 2 ^ 64 }
    ensures { result ≡ sum_of_rows rows.now }
{
    let mut sum = Cost::ZERO;
    'rows: for row in rows {
        sum.add(&row.cost);
    }
    sum
}

/// Appends the last line: the cost of all rows together.
fn push_total(text: &mut Text, branch: bool, sum: &Cost) -> Result<(), OutOfMemory>
    ensures { OnOk result (text.new ≡ text.old ++ total_text branch sum.now) }
{
    text.push(b"total")?;
    push_numbers(text, sum.shown_numbers(branch))?;
    text.push(b"\n")
}

/// The text of a report on waiting: the command, cleaned, the events shown, a line for each row with a line for each of
/// its wakers below it, and the sum of all rows. All events are shown where branches are asked for, else those that
/// aren't of branches.
#[tactic(auto, unfolding(crate::specs::Texts::waits_text))]
pub fn write_waits(
    alloc: Global,
    cmd: &Text,
    branch: bool,
    rows: &WaitRows,
) -> Result<Text, OutOfMemory>
    requires { (kind : ℕ) → sum_by (λ row. slice_index row.cost kind) rows.now < 2 ^ 64 }
    ensures { IfOk result (λ text. text ≡ waits_text cmd.now branch rows.now) }
{
    let rows = rows.rows.as_slice();
    let mut text = Text::new(alloc);
    push_command(alloc, &mut text, cmd)?;
    push_events(&mut text, branch)?;
    push_rows(&mut text, branch, rows)?;
    push_total(&mut text, branch, &sum_of_rows(rows))?;
    Ok(text)
}
