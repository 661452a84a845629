//! Cleaned names, side by side in bytes of their own.

ghost use Rattle.std.specs.Prelude.{◌≡◌, ◌≤◌, ◌++◌, ◌∷◌, [], List, ℕ, Some, IfOk, OnOk, All, map, slice_get};
ghost use Rattle.std.specs.List.Sorted.{IsStrictlySortedBy};
ghost use Rattle.std.specs.Ordering.{nat_cmp};
ghost use Rattle.std.specs.Cmp.Lexicographic.{slice_cmp};
ghost use Rattle.byte_text.specs.Names.{clean_name};
ghost use Rattle.byte_text.specs.Names.{unknown as unknown_name};
ghost use Rattle.name_numbers.specs.inner.CleanNames.{printed_byte, is_changed, IsWithin, IsPrinted, Grows};
ghost use Rattle.name_numbers.specs.Keys.{NumberEach};
ghost use Rattle.name_numbers.specs.Texts.{text_at, texts_at, IsInFile};

use crate::names::{Names, rank_texts};
use crate::numbering::Numbering;
use crate::text_place::TextPlace;
use byte_text::{OutOfMemory, UNKNOWN, clean_name};
use std::alloc::Global;

/// Cleaned names by the bytes in which they stand.
#[derive(Drop)]
pub(crate) struct CleanNames {
    pub(crate) bytes: Vec<u8>,
    /// Where each name stands, in the order of the names.
    pub(crate) places: Vec<TextPlace>,
    /// The number of each name among these, by the rank of the name that isn't cleaned.
    pub(crate) ranks: Vec<usize>,
    /// The number of the name that stands where none is known.
    pub(crate) unknown: usize,
}

/// A byte that isn't a printable character of ASCII becomes a question mark.
fn printed_byte(byte: u8) -> u8
    ensures { result ≡ printed_byte byte }
{
    match byte {
        b' '..=b'~' => byte,
        _ => b'?',
    }
}

/// The part of a file in which all these places are.
fn spread(places: &[TextPlace]) -> TextPlace
    ensures within { All (IsWithin result) places.now }
    ensures in_file { (bytes : List ℕ) → All (IsInFile bytes) places.now → IsInFile bytes result }
{
    let mut part = match places.first() {
        Some(place) => *place,
        None => TextPlace::NOWHERE,
    };
    'places: for place in places {
        part = TextPlace {
            start: part.start.min(place.start),
            end: part.end.max(place.end),
        };
    }
    part
}

/// A text with a question mark for each byte that isn't printable.
fn printed_text(alloc: Global, text: &[u8]) -> Result<Vec<u8>, OutOfMemory>
    ensures { IfOk result (λ bytes. bytes.items ≡ map printed_byte text.now) }
{
    let mut bytes = Vec::with_capacity(alloc, text.len())?;
    'text: for byte in text {
        bytes.push(printed_byte(*byte))?;
    }
    Ok(bytes)
}

/// Whether a name is empty, or has a space at an end, so that its cleaned form has other bytes than these.
fn is_changed(name: &[u8]) -> bool
    ensures { result ≡ is_changed name.now }
{
    match name {
        [] => true,
        [only] => *only == b' ',
        [first, .., last] => *first == b' ' || *last == b' ',
    }
}

/// Appends a text, and says where it stands.
fn push_text(bytes: &mut Vec<u8>, text: &[u8]) -> Result<TextPlace, OutOfMemory>
    ensures bytes { OnOk result (bytes.new.items ≡ bytes.old.items ++ text.now) }
    ensures in_file { IfOk result (λ place. IsInFile bytes.new.items place) }
    ensures text { IfOk result (λ place. text_at bytes.new.items place ≡ text.now) }
{
    let start = bytes.len();
    bytes.extend_from_slice(text)?;
    Ok(TextPlace {
        start,
        end: bytes.len(),
    })
}

/// Where the cleaned form of the name at a place stands in these bytes, at whose front the part of the file is printed:
/// there, or by itself.
fn push_clean(
    alloc: Global,
    bytes: &mut Vec<u8>,
    file: &[u8],
    part: TextPlace,
    place: TextPlace,
) -> Result<TextPlace, OutOfMemory>
    requires within { IsWithin part place }
    requires in_file { IsInFile file.now part }
    requires rises { place.start ≤ place.end }
    requires printed { IsPrinted file.now part bytes.old.items }
    ensures grown { OnOk result (Grows bytes.old.items bytes.new.items) }
    ensures in_file { IfOk result (IsInFile bytes.new.items) }
    ensures text { IfOk result (λ clean. text_at bytes.new.items clean ≡ clean_name (text_at file.now place)) }
{
    let name = &file[place.start..place.end];
    if is_changed(name) {
        let name = clean_name(alloc, name)?;
        return push_text(bytes, name.as_bytes());
    }
    Ok(TextPlace {
        start: place.start - part.start,
        end: place.end - part.start,
    })
}

/// The cleaned forms of names, and the name that stands where none is known behind them. What stands of the file stands
/// once, however many names are tails of one text; only a name that has a space at an end stands by itself.
fn clean_texts(
    alloc: Global,
    bytes: &mut Vec<u8>,
    file: &[u8],
    part: TextPlace,
    names: &[TextPlace],
) -> Result<Vec<TextPlace>, OutOfMemory>
    requires within { All (IsWithin part) names.now }
    requires in_file { IsInFile file.now part }
    requires rise { All (IsInFile file.now) names.now }
    requires printed { IsPrinted file.now part bytes.old.items }
    ensures in_file { IfOk result (λ places. All (IsInFile bytes.new.items) places.items) }
    ensures texts { IfOk result (λ places. texts_at bytes.new.items places.items
        ≡ map clean_name (texts_at file.now names.now) ++ unknown_name ∷ []) }
{
    let mut places = Vec::with_capacity(alloc, names.len() + 1)?;
    'names: for place in names {
        places.push(push_clean(alloc, bytes, file, part, *place)?)?;
    }
    places.push(push_text(bytes, UNKNOWN)?)?;
    Ok(places)
}

/// Cleans names, and numbers them in the order of their cleaned forms.
pub(crate) fn clean_names(alloc: Global, names: &Names<'_>) -> Result<CleanNames, OutOfMemory>
    ensures rise { IfOk result (λ c. IsStrictlySortedBy (slice_cmp nat_cmp) (texts_at c.bytes.items c.places.items)) }
    ensures in_file { IfOk result (λ c. All (IsInFile c.bytes.items) c.places.items) }
    ensures each { IfOk result (λ c.
        NumberEach (texts_at c.bytes.items c.places.items) c.ranks.items (map clean_name names.now)) }
    ensures unknown { IfOk result (λ c.
        slice_get (texts_at c.bytes.items c.places.items) c.unknown ≡ Some unknown_name) }
{
    let part = spread(&names.places);
    let text = &names.file[part.start..part.end];
    let mut bytes = printed_text(alloc, text)?;
    let places = clean_texts(alloc, &mut bytes, names.file, part, &names.places)?;
    let Numbering {
        keys: places,
        numbers: mut ranks,
    } = rank_texts(alloc, &bytes, places)?;
    let unknown = ranks.remove(ranks.len() - 1);
    Ok(CleanNames {
        bytes,
        places,
        ranks,
        unknown,
    })
}
