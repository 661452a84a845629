//! The words are sorted.

ghost use Rattle.std.specs.Prelude.{◌≡◌, IfOk, map, option_map, string_bytes, true};
ghost use Rattle.std.specs.List.{list_all};
ghost use Rattle.clap.specs.Simple.{subcommand_rows_of};
ghost use Rattle.sorted_words.specs.inner.Matches.{sorted_words_of};
ghost use Rattle.sorted_words.specs.SortedWords.{IsSorting, has_named_options};
ghost use Rattle.sorted_words.specs.Sorting.{sorting};
ghost use Rattle.sorted_words.specs.Syntaxes.{syntax_of};

use crate::builder::program;
use crate::sorted::SortedWords;
use crate::syntax::Syntax;
use byte_text::OutOfMemory;
use clap::ArgMatches;
use clap::error::ErrorKind;
use std::alloc::Global;

/// Sorts the words of a command line, the first of which is the program's own name. `None` where they are none of these
/// commands with its options, each `--NAME=VALUE` or `--NAME VALUE`, and values.
pub fn sort<'a>(
    alloc: Global,
    commands: &[Syntax<'a>],
    words: &'a [String],
) -> Result<Option<SortedWords<'a>>, OutOfMemory>
    requires { list_all (λ command. has_named_options (syntax_of command)) commands.now ≡ true }
    ensures { IfOk result
        (IsSorting (sorting (map syntax_of commands.now) (map (λ word. string_bytes word) words.entry.now))) }
{
    match program(alloc, commands)?.try_get_matches_from(words) {
        Ok(matches) => Ok(behind_command(matches)),
        Err(error) => match error.kind() {
            ErrorKind::OutOfMemory => Err(OutOfMemory::of_library()),
            _ => Ok(None),
        },
    }
}

/// What stands behind the name of the command.
fn behind_command(mut matches: ArgMatches<'_>) -> Option<SortedWords<'_>>
    ensures { result ≡ option_map (λ found. sorted_words_of found.0 found.1) (subcommand_rows_of matches.entry) }
{
    let (command, found) = matches.remove_subcommand()?;
    Some(SortedWords::new(command, found))
}
