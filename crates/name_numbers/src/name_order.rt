//! The order of names. Most are told apart by their first bytes, without a look at the file.

ghost use Rattle.std.specs.Prelude.{◌≡◌, ◌-◌, ◌↔◌, [], ◌∷◌, ◌++◌, true, Some, IfOk, All, List, ℕ, length, map};
ghost use Rattle.std.specs.Prelude.{slice_get};
ghost use Rattle.std.specs.List.Sorted.{IsSortedBy};
ghost use Rattle.name_numbers.specs.inner.Fronts.{IsFront, byte_at};
ghost use Rattle.name_numbers.specs.inner.Places.{BeginsWith};
ghost use Rattle.name_numbers.specs.Texts.{IsInFile, text_at, texts_at};
ghost use Rattle.name_numbers.specs.inner.NameOrder.{name_in, tail_of, by_front, is_name_before};
ghost use Rattle.name_numbers.specs.inner.NameOrder.{IsFronted, AreAllNumbers, HaveOneFrontEach};

use crate::text_place::TextPlace;
use crate::texts::Texts;
use byte_text::OutOfMemory;
use std::alloc::Global;
use std::cmp::Ordering;

/// A name by the number of its place, with its first bytes beside it.
#[derive(Clone, Copy)]
pub(crate) struct Fronted {
    /// The eight bytes behind what all names begin with as one number, with zeros behind a name that is shorter.
    front: u64,
    pub(crate) number: usize,
}

/// The byte at this place, and zero behind the end.
fn byte_at(bytes: &[u8], place: usize) -> u8
    ensures { result ≡ byte_at bytes.now place }
{
    match bytes.get(place) {
        Some(byte) => *byte,
        None => 0,
    }
}

fn front(bytes: &[u8]) -> u64
    ensures { IsFront bytes.now 8 result }
{
    let mut front = 0;
    'bytes: for place in 0..8 {
        front = front * 256 + u64::from(byte_at(bytes, place));
    }
    front
}

/// Where the name of this number stands, without so many bytes at its front. There is none past the last name.
fn tail_at(places: &[TextPlace], skip: usize, number: usize) -> TextPlace
    ensures in_file { (bytes : List ℕ) → All (IsInFile bytes) places.now → IsInFile bytes result }
    ensures text { (bytes : List ℕ) → All (IsInFile bytes) places.now
        → text_at bytes result ≡ tail_of (texts_at bytes places.now) skip number }
{
    match places.get(number) {
        Some(place) => place.behind(skip),
        None => TextPlace::NOWHERE,
    }
}

/// The order of two names. They are looked at only where their fronts decide nothing: names stand all over the file.
fn compare(
    texts: &Texts<'_>,
    places: &[TextPlace],
    skip: usize,
    x: &Fronted,
    y: &Fronted,
) -> Ordering
    requires { All (IsInFile texts.now) places.now }
    ensures { result ≡ by_front (texts_at texts.now places.now) skip x.now y.now }
{
    match x.front.cmp(&y.front) {
        Ordering::Equal => {
            let tail = tail_at(places, skip, x.number);
            texts.compare(tail, tail_at(places, skip, y.number))
        }
        order => order,
    }
}

/// The names at these places with their fronts, in the order of the places.
fn with_fronts(
    alloc: Global,
    texts: &Texts<'_>,
    places: &[TextPlace],
    skip: usize,
) -> Result<Vec<Fronted>, OutOfMemory>
    requires in_file { All (IsInFile texts.now) places.now }
    ensures fronts { IfOk result (λ fronted.
        All (IsFronted (texts_at texts.now places.now) skip) fronted.items) }
    ensures all { IfOk result (λ fronted. AreAllNumbers (length places.now) fronted.items) }
{
    let mut fronted = Vec::with_capacity(alloc, places.len())?;
    'places: for number in 0..places.len() {
        let front = front(texts.text_at(tail_at(places, skip, number)));
        fronted.push(Fronted { front, number })?;
    }
    Ok(fronted)
}

/// The names at these places, all of which begin with the same bytes, in the order of their bytes.
pub(crate) fn in_order(
    alloc: Global,
    texts: &Texts<'_>,
    places: &[TextPlace],
    common: &[u8],
) -> Result<Vec<Fronted>, OutOfMemory>
    requires in_file { All (IsInFile texts.now) places.now }
    requires begin { All (BeginsWith common.now) (texts_at texts.now places.now) }
    ensures sorted { IfOk result (λ order.
        IsSortedBy (is_name_before (texts_at texts.now places.now)) order.items) }
    ensures all { IfOk result (λ order. AreAllNumbers (length places.now) order.items) }
    ensures one_front { IfOk result (λ order.
        HaveOneFrontEach (texts_at texts.now places.now) order.items) }
{
    let mut order = with_fronts(alloc, texts, places, common.len())?;
    order.sort_unstable_by(|x, y| compare(texts, places, common.len(), x, y));
    Ok(order)
}

/// Whether the last of those before it has the same name.
pub(crate) fn repeats(
    texts: &Texts<'_>,
    places: &[TextPlace],
    before: &[Fronted],
    one: &Fronted,
) -> bool
    requires in_file { All (IsInFile texts.now) places.now }
    requires one_front { HaveOneFrontEach (texts_at texts.now places.now) (before.now ++ one.now ∷ []) }
    ensures { result ≡ true
        ↔ slice_get (map (name_in (texts_at texts.now places.now)) before.now) (length before.now - 1)
        ≡ Some (name_in (texts_at texts.now places.now) one.now) }
{
    let Some(last) = before.last() else {
        return false;
    };
    if last.front != one.front {
        return false;
    }
    let name = tail_at(places, 0, last.number);
    texts.compare(name, tail_at(places, 0, one.number)).is_eq()
}
