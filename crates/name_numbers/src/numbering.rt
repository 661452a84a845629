//! Keys in rising order, numbered by their places.

ghost use Rattle.std.specs.Prelude.{◌≡◌, ◌<◌, ◌≤◌, ◌+◌, ◌-◌, ◌↔◌, ◌∷◌, ℕ, Some, true, IfOk, All, map, length};
ghost use Rattle.std.specs.Prelude.{slice_get, slice_index, Contains};
ghost use Rattle.std.specs.Ordering.{is_lt};
ghost use Rattle.std.specs.List.Sorted.{IsSortedBy, IsStrictlySortedBy};
ghost use Rattle.name_numbers.specs.Keys.{NumberEach};
ghost use Rattle.name_numbers.specs.inner.Tagging.{HaveOneKeyEach, NumberTagged};

use byte_text::{ExactOrder, OutOfMemory};
use std::alloc::Global;

/// Each of the keys once, in rising order.
pub fn distinct<K: ExactOrder + Drop>(keys: Vec<K>) -> Result<Vec<K>, OutOfMemory>
    ensures rise { IfOk result (λ sorted. IsStrictlySortedBy K.cmp sorted.items) }
    ensures same { IfOk result (λ sorted. (key : K) → Contains sorted.items key ↔ Contains keys.items key) }
{
    let mut sorted = keys;
    sorted.sort()?;
    sorted.dedup();
    Ok(sorted)
}

/// A key, and its place in a list.
#[derive(Drop)]
pub(crate) struct Tagged<K> {
    key: K,
    place: usize,
}

fn tag<K: ExactOrder + Drop>(alloc: Global, keys: Vec<K>) -> Result<Vec<Tagged<K>>, OutOfMemory>
    ensures keys { IfOk result (λ tagged. map (λ t. t.key) tagged.items ≡ keys.items) }
    ensures kept { IfOk result (λ tagged. All (λ t. slice_get keys.items t.place ≡ Some t.key) tagged.items) }
    ensures all { IfOk result (λ tagged. (k : ℕ)
        → k < length keys.items → Contains (map (λ t. t.place) tagged.items) k) }
{
    let mut tagged = Vec::with_capacity(alloc, keys.len())?;
    'keys: for key in keys {
        let place = tagged.len();
        tagged.push(Tagged { key, place })?;
    }
    Ok(tagged)
}

/// Keys, each once, in rising order, and numbers among them.
#[derive(Drop)]
pub(crate) struct Numbering<K> {
    pub(crate) keys: Vec<K>,
    pub(crate) numbers: Vec<usize>,
}

/// Whether this key is the last one.
fn is_last<K: ExactOrder>(keys: &[K], key: &K) -> bool
    ensures { result ≡ true ↔ slice_get keys.now (length keys.now - 1) ≡ Some key.now }
{
    match keys.last() {
        Some(last) => last == key,
        None => false,
    }
}

/// The keys of a list that is sorted by them, each once, and their numbers at their places.
fn gather<K: ExactOrder + Drop>(
    alloc: Global,
    tagged: Vec<Tagged<K>>,
) -> Result<Numbering<K>, OutOfMemory>
    requires sorted { IsSortedBy (λ x y. is_lt (K.cmp x.key y.key)) tagged.items }
    requires within { All (λ t. t.place < length tagged.items) tagged.items }
    requires alike { HaveOneKeyEach tagged.items }
    ensures rise { IfOk result (λ n. IsStrictlySortedBy K.cmp n.keys.items) }
    ensures same { IfOk result (λ n. (key : K)
        → Contains n.keys.items key ↔ Contains (map (λ t. t.key) tagged.items) key) }
    ensures few { IfOk result (λ n. length n.keys.items ≤ length tagged.items) }
    ensures each { IfOk result (λ n. NumberTagged n.keys.items n.numbers.items tagged.items) }
{
    let mut numbers = vec![in alloc; 0; tagged.len()]?;
    let mut keys = Vec::with_capacity(alloc, tagged.len())?;
    'tagged: for one in tagged {
        let Tagged { key, place } = one;
        if is_last(&keys, &key) {
            drop(key);
        } else {
            keys.push(key)?;
        }
        numbers[place] = keys.len() - 1;
    }
    Ok(Numbering { keys, numbers })
}

/// The keys of a list, each once, and the numbers of all. The list is sorted, which is one pass where it is in order, and
/// nothing is searched for: what compares texts looks all over the file.
pub(crate) fn number_keys<K: ExactOrder + Drop>(
    alloc: Global,
    all: Vec<K>,
) -> Result<Numbering<K>, OutOfMemory>
    ensures rise { IfOk result (λ n. IsStrictlySortedBy K.cmp n.keys.items) }
    ensures same { IfOk result (λ n. (key : K) → Contains n.keys.items key ↔ Contains all.items key) }
    ensures few { IfOk result (λ n. length n.keys.items ≤ length all.items) }
    ensures each { IfOk result (λ n. NumberEach n.keys.items n.numbers.items all.items) }
{
    let mut tagged = tag(alloc, all)?;
    tagged.sort_unstable_by(|x, y| x.key.cmp(&y.key));
    gather(alloc, tagged)
}

/// Keys, each once, in rising order, numbers among them, and the number of one key more.
#[derive(Drop)]
pub struct NumberedWith<K> {
    pub keys: Vec<K>,
    pub numbers: Vec<usize>,
    pub last: usize,
}

/// The keys of a list and one key more, each once, and the numbers of all. Where the list is in order, so it is with the
/// one more at its place.
pub fn numbered_with<K: ExactOrder + Drop>(
    alloc: Global,
    all: Vec<K>,
    last: K,
) -> Result<NumberedWith<K>, OutOfMemory>
    ensures rise { IfOk result (λ n. IsStrictlySortedBy K.cmp n.keys.items) }
    ensures same { IfOk result (λ n. (key : K) → Contains n.keys.items key ↔ Contains (last ∷ all.items) key) }
    ensures few { IfOk result (λ n. length n.keys.items ≤ length all.items + 1) }
    ensures each { IfOk result (λ n. NumberEach n.keys.items n.numbers.items all.items) }
    ensures last { IfOk result (λ n. slice_get n.keys.items n.last ≡ Some last) }
{
    let mut all = all;
    let place = all.partition_point(|key| *key < last);
    all.insert(place, last)?;
    let Numbering { keys, mut numbers } = number_keys(alloc, all)?;
    let last = numbers.remove(place);
    Ok(NumberedWith {
        keys,
        numbers,
        last,
    })
}

/// The numbers at these places.
pub(crate) fn pick(
    alloc: Global,
    numbers: &[usize],
    places: &[usize],
) -> Result<Vec<usize>, OutOfMemory>
    requires { All (λ place. place < length numbers.now) places.now }
    ensures { IfOk result (λ chosen. chosen.items ≡ map (slice_index numbers.now) places.now) }
{
    let mut chosen = Vec::with_capacity(alloc, places.len())?;
    'places: for place in places {
        chosen.push(numbers[*place])?;
    }
    Ok(chosen)
}
