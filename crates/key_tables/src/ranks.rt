//! Texts by their ranks, so that each is compared with others once, however many functions have it.

ghost use Rattle.std.specs.Prelude.{◌≡◌, All, IfOk};
ghost use Rattle.key_tables.specs.Ranks.{AreTextRanks};
ghost use Rattle.name_numbers.specs.Texts.{IsInFile, texts_at};

use byte_text::{OutOfMemory, Text};
use name_numbers::{TextPlace, rank_names};
use std::alloc::Global;

/// Texts one behind another, so that comparing them looks at bytes that lie together.
#[derive(Drop)]
struct SideBySide {
    bytes: Vec<u8>,
    places: Vec<TextPlace>,
}

fn side_by_side(alloc: Global, texts: &[Text]) -> Result<SideBySide, OutOfMemory>
    ensures in_file { IfOk result (λ all. All (IsInFile all.bytes.items) all.places.items) }
    ensures texts { IfOk result (λ all. texts_at all.bytes.items all.places.items ≡ texts.now) }
{
    let mut bytes = Vec::new(alloc);
    let mut places = Vec::with_capacity(alloc, texts.len())?;
    'texts: for text in texts {
        let start = bytes.len();
        bytes.extend_from_slice(text.as_bytes())?;
        let end = bytes.len();
        places.push(TextPlace { start, end })?;
    }
    Ok(SideBySide { bytes, places })
}

/// Of each text, its place among all of them in their order.
pub fn text_ranks(alloc: Global, texts: &[Text]) -> Result<Vec<usize>, OutOfMemory>
    ensures { IfOk result (λ ranks. AreTextRanks texts.now ranks.items) }
{
    let SideBySide { bytes, places } = side_by_side(alloc, texts)?;
    Ok(rank_names(alloc, &bytes, places)?.ranks)
}
