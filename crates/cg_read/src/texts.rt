//! Copies of parts of the bytes, once a profile is made.

ghost use Rattle.std.specs.Prelude.{◌≡◌, ◌<◌, IfOk, All, length, map};
ghost use Rattle.cg_read.specs.Profiles.{IsProfile, contents};
ghost use Rattle.cg_read.specs.inner.Texts.{text_in};

use crate::functions::Functions;
use crate::profile::Profile;
use crate::rows::{CallRow, SelfRow};
use byte_text::{OutOfMemory, Text, TextRef};
use std::alloc::Global;

/// What a profile says beside its rows.
#[derive(Drop)]
pub(crate) struct ProfileTexts {
    pub(crate) events: Vec<Text>,
    pub(crate) command: Option<Text>,
    pub(crate) functions: Functions,
    pub(crate) files: Vec<Text>,
}

impl ProfileTexts {
    /// The profile that says these rows too.
    pub(crate) fn with_rows(self, self_rows: Vec<SelfRow>, call_rows: Vec<CallRow>) -> Profile
        requires { IsProfile (contents self.events.items self.command self.functions self.files.items self_rows.items
            call_rows.items) }
        ensures { result ≡ contents self.events.items self.command self.functions self.files.items self_rows.items
            call_rows.items }
    {
        Profile {
            events: self.events,
            command: self.command,
            functions: self.functions,
            files: self.files,
            self_rows,
            call_rows,
        }
    }
}

pub(crate) fn text_of(alloc: Global, piece: &TextRef<'_>) -> Result<Text, OutOfMemory>
    ensures { IfOk result (λ text. text ≡ piece.now) }
{
    Text::from_bytes(alloc, piece.as_bytes())
}

pub(crate) fn optional_text_of(
    alloc: Global,
    piece: &Option<TextRef<'_>>,
) -> Result<Option<Text>, OutOfMemory>
    ensures { IfOk result (λ text. text ≡ piece.now) }
{
    match piece {
        None => Ok(None),
        Some(piece) => Ok(Some(text_of(alloc, piece)?)),
    }
}

pub(crate) fn texts_of(alloc: Global, pieces: &[TextRef<'_>]) -> Result<Vec<Text>, OutOfMemory>
    ensures { IfOk result (λ texts. texts.items ≡ pieces.now) }
{
    let mut texts = Vec::with_capacity(alloc, pieces.len())?;
    'pieces: for piece in pieces {
        texts.push(text_of(alloc, piece)?)?;
    }
    Ok(texts)
}

/// Copies of the texts of these numbers.
pub(crate) fn texts_numbered(
    alloc: Global,
    texts: &[TextRef<'_>],
    numbers: &[usize],
) -> Result<Vec<Text>, OutOfMemory>
    requires { All (λ number. number < length texts.now) numbers.now }
    ensures { IfOk result (λ copies. copies.items ≡ map (text_in texts.now) numbers.now) }
{
    let mut copies = Vec::with_capacity(alloc, numbers.len())?;
    'numbers: for number in numbers {
        copies.push(text_of(alloc, &texts[*number])?)?;
    }
    Ok(copies)
}
