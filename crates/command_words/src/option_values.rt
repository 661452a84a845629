//! What the options of a command say.

ghost use Rattle.std.specs.Prelude.{◌≡◌, option_and_then, option_map};
ghost use Rattle.command_words.specs.Request.{first, says};
ghost use Rattle.command_words.specs.Values.{number, shape_of, small_number};
ghost use Rattle.command_words.specs.Meaning.{uses_of};

use crate::value::{geometry, number, small_number};
use cache_lru::Geometry;
use sorted_words::SortedWords;

/// The VALUE of an option, where it stands.
pub fn first<'a>(given: &SortedWords<'a>, name: &str) -> Option<&'a str>
    ensures { option_map (λ text. text.now) result ≡ first (uses_of given.now name.now) }
{
    given.uses(name)?.first().copied()
}

/// The number that an option gives.
pub fn first_number(given: &SortedWords<'_>, name: &str) -> Option<u64>
    ensures { result ≡ option_and_then number (first (uses_of given.now name.now)) }
{
    number(first(given, name)?)
}

/// The same, up to 32 bits.
pub fn first_small_number(given: &SortedWords<'_>, name: &str) -> Option<u32>
    ensures { result ≡ option_and_then small_number (first (uses_of given.now name.now)) }
{
    small_number(first(given, name)?)
}

/// The cache that an option gives.
pub fn first_geometry(given: &SortedWords<'_>, name: &str) -> Option<Geometry>
    ensures { result ≡ option_and_then shape_of (first (uses_of given.now name.now)) }
{
    geometry(first(given, name)?)
}

/// Whether the VALUE of an option is this word.
pub fn says(given: &SortedWords<'_>, name: &str, word: &str) -> bool
    ensures { result ≡ says word.now (uses_of given.now name.now) }
{
    match first(given, name) {
        Some(text) => text == word,
        None => false,
    }
}
