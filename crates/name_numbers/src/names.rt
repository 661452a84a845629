//! Names, each once, in the order of their bytes. Ranks compare as the names do.

ghost use Rattle.std.specs.Prelude.{◌≡◌, ◌<◌, ◌≤◌, List, IfOk, All, length, take};
ghost use Rattle.std.specs.List.Sorted.{IsSortedBy, IsStrictlySortedBy};
ghost use Rattle.std.specs.Ordering.{nat_cmp};
ghost use Rattle.std.specs.Cmp.Lexicographic.{slice_cmp};
ghost use Rattle.name_numbers.specs.Keys.{NumberEach};
ghost use Rattle.name_numbers.specs.declared.text_place.TextPlace.{TextPlace as PlaceValue};
ghost use Rattle.name_numbers.specs.inner.NameOrder.{is_name_before, AreAllNumbers, HaveOneFrontEach};
ghost use Rattle.name_numbers.specs.inner.Places.{behind, BeginsWith};
ghost use Rattle.name_numbers.specs.Texts.{text_at, texts_at, IsInFile};

use crate::name_order::{Fronted, in_order, repeats};
use crate::numbering::{Numbering, number_keys, pick};
use crate::text_place::TextPlace;
use crate::texts::Texts;
use byte_text::OutOfMemory;
use std::alloc::Global;
use std::marker::Model;

/// Texts by the places in a file where they stand.
#[derive(Drop)]
pub struct Names<'a> {
    pub(crate) file: &'a [u8],
    pub(crate) places: Vec<TextPlace>,
}

impl<'a> Model for Names<'a> {
    ghost use Rattle.std.specs.Prelude.{List, ℕ, All};
    ghost use Rattle.name_numbers.specs.Texts.{texts_at, IsInFile};

    ghost Value = { List (List ℕ) };

    ghost view = { λ n. texts_at n.file.now n.places.items };

    ghost invariant = { λ n. All (IsInFile n.file.now) n.places.items };
}

/// The names at some places.
#[derive(Drop)]
pub struct Ranks<'a> {
    pub names: Names<'a>,
    /// The rank of the name at each place, which is its number among these.
    pub ranks: Vec<usize>,
}

/// How many bytes at the fronts of two texts are the same.
fn common_len(x: &[u8], y: &[u8]) -> usize
    ensures within { result ≤ length x.now }
    ensures same { take result y.now ≡ take result x.now }
{
    let len = x.len().min(y.len());
    'bytes: for i in 0..len {
        if x[i] != y[i] {
            return i;
        }
    }
    len
}

/// What all texts at these places begin with, as far as it is looked for: not in texts that are tails of one another.
fn common_front<'a>(texts: &Texts<'a>, places: &[TextPlace]) -> &'a [u8]
    requires { All (IsInFile texts.now) places.now }
    ensures { All (λ place. BeginsWith result.now (text_at texts.now place)) places.now }
{
    let mut common = match places.first() {
        Some(place) if texts.are_short() => texts.text_at(*place),
        _ => b"",
    };
    'places: for place in places {
        let text = texts.text_at(*place);
        if !text.starts_with(common) {
            common = &common[..common_len(common, text)];
        }
    }
    common
}

/// The places of names in the order of the names, each name once, and the numbers of all names.
fn gather(
    alloc: Global,
    texts: &Texts<'_>,
    places: &[TextPlace],
    order: &[Fronted],
) -> Result<Numbering<TextPlace>, OutOfMemory>
    requires in_file { All (IsInFile texts.now) places.now }
    requires sorted { IsSortedBy (is_name_before (texts_at texts.now places.now)) order.now }
    requires all { AreAllNumbers (length places.now) order.now }
    requires one_front { HaveOneFrontEach (texts_at texts.now places.now) order.now }
    ensures in_file { IfOk result (λ n. All (IsInFile texts.now) n.keys.items) }
    ensures rise { IfOk result (λ n.
        IsStrictlySortedBy (slice_cmp nat_cmp) (texts_at texts.now n.keys.items)) }
    ensures each { IfOk result (λ n.
        NumberEach (texts_at texts.now n.keys.items) n.numbers.items (texts_at texts.now places.now)) }
    ensures few { IfOk result (λ n. length n.keys.items ≤ length places.now) }
{
    let mut numbers = vec![in alloc; 0; order.len()]?;
    let mut keys = Vec::with_capacity(alloc, order.len())?;
    'order: for (i, one) in order.iter().enumerate() {
        if !repeats(texts, places, &order[..i], one) {
            keys.push(places[one.number])?;
        }
        numbers[one.number] = keys.len() - 1;
    }
    Ok(Numbering { keys, numbers })
}

/// The places of texts in the order of the texts, each text once, and the numbers of the texts at some places, which are
/// told apart and numbered already.
fn rank_apart(
    alloc: Global,
    texts: &Texts<'_>,
    apart: &Numbering<TextPlace>,
) -> Result<Numbering<TextPlace>, OutOfMemory>
    requires in_file { All (IsInFile texts.now) apart.now.keys.items }
    requires numbers { All (λ number. number < length apart.now.keys.items) apart.now.numbers.items }
    ensures in_file { IfOk result (λ n. All (IsInFile texts.now) n.keys.items) }
    ensures rise { IfOk result (λ n. IsStrictlySortedBy (slice_cmp nat_cmp) (texts_at texts.now n.keys.items)) }
    ensures each { (all : List PlaceValue) → NumberEach apart.now.keys.items apart.now.numbers.items all
        → IfOk result (λ n. NumberEach (texts_at texts.now n.keys.items) n.numbers.items (texts_at texts.now all)) }
    ensures few { IfOk result (λ n. length n.keys.items ≤ length apart.now.keys.items) }
{
    let common = common_front(texts, &apart.keys);
    let order = in_order(alloc, texts, &apart.keys, common)?;
    let Numbering { keys, numbers } = gather(alloc, texts, &apart.keys, &order)?;
    let numbers = pick(alloc, &numbers, &apart.numbers)?;
    Ok(Numbering { keys, numbers })
}

/// The same of places in these bytes, where texts are compared as they stand.
pub(crate) fn rank_short(
    alloc: Global,
    bytes: &[u8],
    places: Vec<TextPlace>,
) -> Result<Numbering<TextPlace>, OutOfMemory>
    requires { All (IsInFile bytes.now) places.items }
    ensures rise { IfOk result (λ n. IsStrictlySortedBy (slice_cmp nat_cmp) (texts_at bytes.now n.keys.items)) }
    ensures each { IfOk result (λ n. NumberEach (texts_at bytes.now n.keys.items) n.numbers.items
        (texts_at bytes.now places.items)) }
    ensures few { IfOk result (λ n. length n.keys.items ≤ length places.items) }
{
    let apart = number_keys(alloc, places)?;
    rank_apart(alloc, &Texts::new(bytes), &apart)
}

/// The places of texts in the order of the texts, each text once, and the numbers of the texts at all places.
pub(crate) fn rank_texts(
    alloc: Global,
    bytes: &[u8],
    places: Vec<TextPlace>,
) -> Result<Numbering<TextPlace>, OutOfMemory>
    requires { All (IsInFile bytes.now) places.items }
    ensures in_file { IfOk result (λ n. All (IsInFile bytes.now) n.keys.items) }
    ensures rise { IfOk result (λ n. IsStrictlySortedBy (slice_cmp nat_cmp) (texts_at bytes.now n.keys.items)) }
    ensures each { IfOk result (λ n. NumberEach (texts_at bytes.now n.keys.items) n.numbers.items
        (texts_at bytes.now places.items)) }
    ensures few { IfOk result (λ n. length n.keys.items ≤ length places.items) }
{
    let apart = number_keys(alloc, places)?;
    let texts = Texts::at(alloc, bytes, &apart.keys)?;
    rank_apart(alloc, &texts, &apart)
}

/// The names at these places of a file and their ranks.
pub fn rank_names<'a>(
    alloc: Global,
    file: &'a [u8],
    places: Vec<TextPlace>,
) -> Result<Ranks<'a>, OutOfMemory>
    requires { All (IsInFile file.now) places.items }
    ensures rise { IfOk result (λ r. IsStrictlySortedBy (slice_cmp nat_cmp) r.names) }
    ensures each { IfOk result (λ r. NumberEach r.names r.ranks.items (texts_at file.now places.items)) }
    ensures few { IfOk result (λ r. length r.names ≤ length places.items) }
{
    let Numbering {
        keys: places,
        numbers: ranks,
    } = rank_texts(alloc, file, places)?;
    let names = Names { file, places };
    Ok(Ranks { names, ranks })
}
