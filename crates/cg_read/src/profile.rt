//! Profiles: events, functions, files, and the rows of what was counted.

ghost use Rattle.std.specs.Prelude.{◌≡◌, ◌≤◌, None, Some, [], false, IfOk, IfSome, IfNone, length, map, slice_get};
ghost use Rattle.cg_read.specs.Profiles.{AreApart, contents, has_text, most_events};

use crate::functions::Functions;
use crate::rows::{CallRow, SelfRow};
use byte_text::{OutOfMemory, Text};
use std::alloc::Global;
use std::marker::Model;

/// What a profile file says. There are at most 64 event names and they differ, the functions differ, the files differ,
/// each number of a function or a file in a row is a place in its list, and each row has one cost for each event.
#[derive(Drop)]
pub struct Profile {
    /// The names of the events, in the order of the costs.
    pub events: Vec<Text>,
    /// The command that was profiled, where the file gives it.
    pub command: Option<Text>,
    pub functions: Functions,
    pub files: Vec<Text>,
    pub self_rows: Vec<SelfRow>,
    pub call_rows: Vec<CallRow>,
}

impl Model for Profile {
    ghost use Rattle.cg_read.specs.Profiles.{Contents, IsProfile, contents};

    ghost Value = { Contents };

    ghost view = { λ p. contents p.events.items p.command p.functions p.files.items p.self_rows.items
        p.call_rows.items };

    ghost invariant = { λ p. IsProfile (contents p.events.items p.command p.functions p.files.items
        p.self_rows.items p.call_rows.items) };
}

impl Profile {
    /// A profile of these events with no rows. There are at most 64 names, and they differ.
    pub fn empty(alloc: Global, events: &[&str]) -> Result<Profile, OutOfMemory>
        requires limit { length events.now ≤ most_events }
        requires differ { AreApart (map (λ name. name.now) events.now) }
        ensures { IfOk result (λ p. p ≡ contents (map (λ name. name.now) events.now) None [] [] [] []) }
    {
        let mut names = Vec::with_capacity(alloc, events.len())?;
        'names: for name in events {
            names.push(Text::from_bytes(alloc, name.as_bytes())?)?;
        }
        Ok(Profile::of_events(alloc, names))
    }

    /// The same of names that it takes.
    pub(crate) fn of_events(alloc: Global, events: Vec<Text>) -> Profile
        requires limit { length events.items ≤ most_events }
        requires differ { AreApart events.items }
        ensures { result ≡ contents events.items None [] [] [] [] }
    {
        Profile {
            events,
            command: None,
            functions: Functions::new(alloc),
            files: Vec::new(alloc),
            self_rows: Vec::new(alloc),
            call_rows: Vec::new(alloc),
        }
    }

    /// The place of an event in the costs, `None` where no event has the name.
    pub fn event_index(&self, name: &str) -> Option<usize>
        ensures found { IfSome result (λ place. slice_get self.now.events place ≡ Some name.now) }
        ensures none { IfNone result (has_text self.now.events name.now ≡ false) }
    {
        place_of(&self.events, name.as_bytes())
    }
}

/// The first place of a text.
fn place_of(texts: &[Text], wanted: &[u8]) -> Option<usize>
    ensures found { IfSome result (λ place. slice_get texts.now place ≡ Some wanted.now) }
    ensures none { IfNone result (has_text texts.now wanted.now ≡ false) }
{
    'texts: for (place, text) in texts.iter().enumerate() {
        if wanted == text.as_bytes() {
            return Some(place);
        }
    }
    None
}
