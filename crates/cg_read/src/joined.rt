//! Copies of texts.

ghost use Rattle.std.specs.Prelude.{◌≡◌, IfOk};

use byte_text::{OutOfMemory, Text};
use std::alloc::Global;

/// Copies of texts.
pub(crate) fn text_copies(alloc: Global, texts: &[Text]) -> Result<Vec<Text>, OutOfMemory>
    ensures { IfOk result (λ copies. copies.items ≡ texts.now) }
{
    let mut copies = Vec::with_capacity(alloc, texts.len())?;
    'texts: for text in texts {
        copies.push(text.try_clone(alloc)?)?;
    }
    Ok(copies)
}
