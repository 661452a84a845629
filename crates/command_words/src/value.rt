//! The VALUEs of options.

ghost use Rattle.std.specs.Prelude.{◌≡◌};
ghost use Rattle.std.specs.List.{list_any};
ghost use Rattle.std.specs.Str.{bytes_eq};
ghost use Rattle.command_words.specs.Rows.{kind_of};
ghost use Rattle.command_words.specs.Values.{accepts, number, shape_of, small_number};

use crate::table::Kind;
use cache_lru::Geometry;

/// Whether an option of this kind may have this VALUE.
pub fn accepts(kind: Kind, text: &str) -> bool
    ensures { result ≡ accepts (kind_of kind) text.now }
{
    match kind {
        Kind::AnyText => true,
        Kind::Sized(least, most) => {
            least <= text.len() && most.is_none_or(|most| text.len() <= most)
        }
        Kind::Number(least, most) => match number(text) {
            Some(number) => least <= number && number <= most,
            None => false,
        },
        Kind::Cache => geometry(text).is_some(),
        Kind::OneOf(words) => is_among(words, text),
    }
}

/// Whether the text is one of these.
pub fn is_among(words: &[&str], text: &str) -> bool
    ensures { result ≡ list_any (λ word. bytes_eq word.now text.now) words.now }
{
    words.iter().any(|word| *word == text)
}

/// The number that decimal digits write, with an optional `+` before them.
#[tactic(auto, using(crate::proofs::ValueLemmas::parsed))]
pub fn number(text: &str) -> Option<u64>
    ensures { result ≡ number text.now }
{
    text.parse().ok()
}

/// The same, up to 32 bits.
#[tactic(auto, using(crate::proofs::ValueLemmas::parsed))]
pub fn small_number(text: &str) -> Option<u32>
    ensures { result ≡ small_number text.now }
{
    text.parse().ok()
}

/// The cache that `SIZE,ASSOC,LINE` writes.
pub fn geometry(text: &str) -> Option<Geometry>
    ensures { result ≡ shape_of text.now }
{
    let (size, others) = text.split_once(',')?;
    let (assoc, line) = others.split_once(',')?;
    Geometry::new(
        small_number(size)?,
        small_number(assoc)?,
        small_number(line)?,
    )
}
