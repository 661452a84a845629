//! The words of a command line.

ghost use Rattle.std.specs.Prelude.{◌≡◌, IfOk, filter, find, map, option_map, string_bytes};
ghost use Rattle.std.specs.Str.{bytes_eq};
ghost use Rattle.command_words.specs.Request.{read_request, command_named, request};
ghost use Rattle.command_words.specs.Meaning.{meaning_of, uses_of};
ghost use Rattle.command_words.specs.Rows.{command_of, row_of, takers_of};
ghost use Rattle.command_words.specs.Within.{IsWithin};
ghost use Rattle.command_words.specs.Table.{commands, includes, name_of};
ghost use Rattle.command_words.specs.Table.{syntax_of as syntax_of_command};
ghost use Rattle.sorted_words.specs.Syntaxes.{syntax_of};

use crate::checks::{are_fine, has_its_values};
use crate::job::command_request;
use crate::request::Request;
use crate::table::{Command, OptionRow, options};
use byte_text::OutOfMemory;
use sorted_words::{SortedWords, Syntax, sort};
use std::alloc::{AllocError, Global};

/// What the words ask for, of which the first is the program's own name. The second is the command; behind it stand its
/// options, each once as `--NAME=VALUE` or `--NAME VALUE`, and values. Behind the first `--` every word is a value.
pub fn read_words<'a>(alloc: Global, words: &'a [String]) -> Result<Request<'a>, OutOfMemory>
    ensures asked { IfOk result (λ r. meaning_of r ≡ read_request (map (λ word. string_bytes word) words.entry.now)) }
    ensures within { IfOk result (λ r. IsWithin (meaning_of r)) }
{
    let commands = syntaxes(alloc)?;
    match sort(alloc, &commands, words)? {
        Some(given) => Ok(request(alloc, &given)?),
        None => Ok(Request::Usage),
    }
}

/// What a command asks for with its options and values.
fn request<'a>(alloc: Global, given: &SortedWords<'a>) -> Result<Request<'a>, AllocError>
    ensures { IfOk result (λ r. meaning_of r
        ≡ request (command_named given.now.command) (uses_of given.now) given.now.values) }
{
    let Some(command) = command_named(given.command()) else {
        return Ok(Request::Usage);
    };
    if !are_fine(command, given) {
        return Ok(Request::Usage);
    }
    if !has_its_values(command, given) {
        return Ok(Request::Usage);
    }
    command_request(alloc, command, given)
}

fn command_named(name: &str) -> Option<Command>
    ensures { option_map command_of result ≡ command_named name.now }
{
    named(&Command::ALL, name)
}

/// The command of this name.
fn named(commands: &[Command], name: &str) -> Option<Command>
    ensures { result ≡ find (λ command. bytes_eq (name_of (command_of command)) name.now) commands.now }
{
    commands
        .iter()
        .copied()
        .find(|command| command.name() == name)
}

/// The commands, with the names of their options.
fn syntaxes<'a>(alloc: Global) -> Result<Vec<Syntax<'a>>, OutOfMemory>
    ensures { IfOk result (λ syntaxes. map syntax_of syntaxes.items ≡ map syntax_of_command commands) }
{
    Ok(Vec::from_array(
        alloc,
        [
            syntax(alloc, Command::Run)?,
            syntax(alloc, Command::Report)?,
            syntax(alloc, Command::Annotate)?,
            syntax(alloc, Command::Demo)?,
        ],
    )?)
}

#[tactic(auto, using(crate::proofs::RowLemmas::names_mapped))]
fn syntax<'a>(alloc: Global, command: Command) -> Result<Syntax<'a>, AllocError>
    ensures { IfOk result (λ syntax. syntax_of syntax ≡ syntax_of_command (command_of command)) }
{
    Ok(Syntax {
        name: command.name(),
        options: names(alloc, options(), command)?,
    })
}

/// The names of the options that a command takes.
fn names<'a>(
    alloc: Global,
    rows: &[OptionRow],
    command: Command,
) -> Result<Vec<&'a str>, AllocError>
    ensures { IfOk result (λ names. map (λ name. name.now) names.items
        ≡ map (λ row. row.name.now) (filter (λ row. includes (takers_of row.takers) (command_of command)) rows.now)) }
{
    let mut names = Vec::new(alloc);
    for row in rows {
        if row.takers.include(command) {
            names.push(row.name)?;
        }
    }
    Ok(names)
}
