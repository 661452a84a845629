//! Numbers as bytes, the lowest first.

ghost use Rattle.std.specs.Prelude.{◌≡◌, ◌<◌, ◌^◌, ◌++◌, OnOk};
ghost use Rattle.std.specs.List.{All};
ghost use Rattle.prog_make.specs.Encoding.{halves_bytes, words_bytes};

use byte_text::{OutOfMemory, Text};

/// Appends numbers of two bytes each.
pub fn push_halves(out: &mut Text, halves: &[u16]) -> Result<(), OutOfMemory>
    ensures { OnOk result (out.new ≡ out.old ++ halves_bytes halves.now) }
{
    'halves: for half in halves {
        out.push(&half.to_le_bytes())?;
    }
    Ok(())
}

/// Appends numbers of four bytes each.
pub fn push_words(out: &mut Text, words: &[u32]) -> Result<(), OutOfMemory>
    ensures written { OnOk result (out.new ≡ out.old ++ words_bytes words.now) }
    ensures fit { All (λ w. w < 2 ^ 32) words.now }
{
    'words: for word in words {
        out.push(&word.to_le_bytes())?;
    }
    Ok(())
}
