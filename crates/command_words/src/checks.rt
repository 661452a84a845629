//! Whether the options and values of a command are those that it may have.

ghost use Rattle.std.specs.Prelude.{◌≡◌, filter, length, nat_lt};
ghost use Rattle.std.specs.List.{list_all};
ghost use Rattle.command_words.specs.Request.{are_fine, at_most_one, counts_one, has_its_values, is_fine};
ghost use Rattle.command_words.specs.Request.{sort_is_shown};
ghost use Rattle.command_words.specs.Meaning.{uses_of};
ghost use Rattle.command_words.specs.Rows.{command_of, row_of, takers_of};
ghost use Rattle.command_words.specs.Table.{includes};

use crate::option_values::{first, says};
use crate::table::{Command, OptionRow, options};
use crate::value::{accepts, is_among};
use event_costs::event_names_shown;
use sorted_words::SortedWords;

/// Whether an option stands at most once, with a VALUE that it may have.
fn is_fine(row: &OptionRow, given: &SortedWords<'_>) -> bool
    ensures { result ≡ is_fine (row_of row.now) (uses_of given.now) }
{
    match given.uses(row.name) {
        None | Some([]) => true,
        Some([text]) => accepts(row.kind, text),
        Some(_) => false,
    }
}

fn are_rows_fine(rows: &[OptionRow], command: Command, given: &SortedWords<'_>) -> bool
    ensures { result ≡ list_all (λ row. is_fine (row_of row) (uses_of given.now))
        (filter (λ row. includes (takers_of row.takers) (command_of command)) rows.now) }
{
    rows.iter()
        .filter(|row| row.takers.include(command))
        .all(|row| is_fine(row, given))
}

/// Whether each option of a command stands at most once, with a VALUE that it may have.
pub fn are_fine(command: Command, given: &SortedWords<'_>) -> bool
    ensures { result ≡ are_fine (command_of command) (uses_of given.now) }
{
    are_rows_fine(options(), command, given)
}

/// Whether PROG or a file is named.
fn is_named(given: &SortedWords<'_>) -> bool
    ensures { result ≡ nat_lt 0 (length given.now.values) }
{
    match given.values() {
        Some(values) => !values.is_empty(),
        None => false,
    }
}

/// Whether a report is sorted by one of the events that its run shows.
fn sort_is_shown(given: &SortedWords<'_>) -> bool
    ensures { result ≡ sort_is_shown (uses_of given.now) }
{
    match first(given, "sort") {
        Some(event) => is_among(event_names_shown(says(given, "branch-sim", "yes")), event),
        None => true,
    }
}

/// Whether at most one of them holds.
fn at_most_one(first: bool, second: bool, third: bool) -> bool
    ensures { result ≡ at_most_one first second third }
{
    if first {
        !(second || third)
    } else {
        !(second && third)
    }
}

/// Whether a run counts at most one thing besides its parts.
fn counts_one(given: &SortedWords<'_>) -> bool
    ensures { result ≡ counts_one (uses_of given.now) }
{
    at_most_one(
        says(given, "waits", "yes"),
        says(given, "dump-instr", "yes"),
        first(given, "separate-callers").is_some(),
    )
}

/// Whether a command has the values that it needs; those of a demonstration are looked at where it is made.
pub fn has_its_values(command: Command, given: &SortedWords<'_>) -> bool
    ensures { result ≡ has_its_values (command_of command) (uses_of given.now) given.now.values }
{
    match command {
        Command::Run => is_named(given) && counts_one(given),
        Command::Annotate => is_named(given),
        Command::Report => is_named(given) && sort_is_shown(given),
        Command::Demo => true,
    }
}
