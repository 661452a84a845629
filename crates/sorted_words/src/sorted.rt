//! What a command was given.

ghost use Rattle.std.specs.Prelude.{◌≡◌, map, option_map};
ghost use Rattle.sorted_words.specs.SortedWords.{find_values, or_none};

use crate::builder::VALUES;
use clap::ArgMatches;
use std::marker::Model;

/// The options and values that a command was given.
#[derive(Drop)]
pub struct SortedWords<'a> {
    command: &'a str,
    found: ArgMatches<'a>,
}

impl<'a> Model for SortedWords<'a> {
    ghost use Rattle.clap.specs.Matches.{found_of};
    ghost use Rattle.clap.specs.Walk.{rows_of};
    ghost use Rattle.sorted_words.specs.SortedWords.{SortedWords as View};
    ghost use Rattle.sorted_words.specs.inner.Matches.{sorted_words_of};

    ghost Value = { View };

    ghost view = { λ g. sorted_words_of g.command.now (rows_of (found_of g.found)) };
}

impl<'a> SortedWords<'a> {
    ghost use Rattle.clap.specs.Matches.{found_of};
    ghost use Rattle.clap.specs.Walk.{rows_of};
    ghost use Rattle.sorted_words.specs.inner.Matches.{sorted_words_of};

    pub(crate) fn new(command: &'a str, found: ArgMatches<'a>) -> SortedWords<'a>
        ensures { result ≡ sorted_words_of command.entry.now (rows_of (found_of found.entry)) }
    {
        SortedWords { command, found }
    }

    /// The name of the command.
    pub fn command(&self) -> &'a str
        ensures { result.now ≡ self.now.command }
    {
        self.command
    }

    /// The VALUEs that the option of this name was given, in their order; `None` where it doesn't stand.
    pub fn uses(&self, name: &str) -> Option<&[&'a str]>
        ensures { option_map (λ values. map (λ value. value.now) values.now) result ≡ find_values name.now self.now.options }
    {
        self.found.get_strs(name)
    }

    /// The values, in their order; `None` where there are none.
    pub fn values(&self) -> Option<&[&'a str]>
        ensures { or_none (option_map (λ values. map (λ value. value.now) values.now) result) ≡ self.now.values }
    {
        self.found.get_strs(VALUES)
    }
}
