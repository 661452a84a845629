//! The parts of a text between separators: a file's lines, and the words of a line.

ghost use Rattle.std.specs.Prelude.{◌≡◌, ◌≤◌, ◌∷◌, ◌==◌, length};
ghost use Rattle.std.specs.Iterator.{YieldsFirstRef, item_count};
ghost use Rattle.std.specs.List.{position_or_len, before_first, after_first};
ghost use Rattle.cg_lines.specs.Lines.{parts, parts_left, words, is_space};

use std::marker::Model;

/// The parts that are still to come. Contracts see the list of them.
#[derive(Drop)]
pub struct Parts<'a> {
    separator: u8,
    rest: Option<&'a [u8]>,
}

impl<'a> Model for Parts<'a> {
    ghost use Rattle.std.specs.Prelude.{List, ℕ};
    ghost use Rattle.cg_lines.specs.Lines.{parts_left};

    ghost Value = { List (List ℕ) };

    ghost view = { λ p. parts_left p.separator p.rest };
}

impl<'a> Parts<'a> {
    /// The parts of a text between separators.
    pub fn new(separator: u8, text: &'a [u8]) -> Parts<'a>
        ensures { result ≡ parts separator text.now }
    {
        Parts {
            separator,
            rest: Some(text),
        }
    }
}

impl<'a> Iterator for Parts<'a> {
    type Item = &'a [u8];

    ghost next_gives = { YieldsFirstRef (λ s. s) };

    ghost remaining = { item_count (λ s. s) };

    fn next(&mut self) -> Option<&'a [u8]> {
        let text = self.rest?;
        let (part, rest) = cut(self.separator, text);
        self.rest = rest;
        Some(part)
    }
}

fn first_place(separator: u8, text: &[u8]) -> usize
    ensures place { result ≡ position_or_len (λ byte. byte == separator) text.now }
    ensures within { result ≤ length text.now }
{
    text.iter().take_while(|byte| **byte != separator).count()
}

/// What stands before the first separator, and what follows it, where there is one.
fn cut(separator: u8, text: &[u8]) -> (&[u8], Option<&[u8]>)
    ensures { parts separator text.now ≡ result.0.now ∷ parts_left separator result.1 }
{
    let place = first_place(separator, text);
    if place < text.len() {
        (&text[..place], Some(&text[place + 1..]))
    } else {
        (text, None)
    }
}

/// The words that are still to come, which spaces separate. Contracts see the list of them.
#[derive(Drop)]
pub struct Words<'a> {
    parts: Parts<'a>,
}

impl<'a> Model for Words<'a> {
    ghost use Rattle.std.specs.Prelude.{List, ℕ, filter};
    ghost use Rattle.cg_lines.specs.Lines.{is_some_word};

    ghost Value = { List (List ℕ) };

    ghost view = { λ w. filter is_some_word w.parts };
}

impl<'a> Words<'a> {
    /// The words of a text.
    pub fn new(text: &'a [u8]) -> Words<'a>
        ensures { result ≡ words text.now }
    {
        Words {
            parts: Parts::new(b' ', text),
        }
    }
}

impl<'a> Iterator for Words<'a> {
    type Item = &'a [u8];

    ghost next_gives = { YieldsFirstRef (λ s. s) };

    ghost remaining = { item_count (λ s. s) };

    fn next(&mut self) -> Option<&'a [u8]> {
        'parts: while let Some(part) = self.parts.next() {
            if !part.is_empty() {
                return Some(part);
            }
        }
        None
    }
}

/// The text up to its first space, and what follows the space.
pub(crate) fn split_word(text: &[u8]) -> (&[u8], &[u8])
    ensures word { result.0.now ≡ before_first is_space text.now }
    ensures rest { result.1.now ≡ after_first is_space text.now }
{
    let place = first_place(b' ', text);
    let (word, rest) = text.split_at(place);
    match rest {
        [_, rest @ ..] => (word, rest),
        [] => (word, rest),
    }
}
