//! Where the keys of a list that grows stand.

ghost use Rattle.std.specs.Prelude.{◌≡◌, ◌+◌, ◌<◌, ◌^◌, ◌++◌, ◌∷◌, true, [], List, IfNone, IfOk, IfSome, OnOk, length};
ghost use Rattle.std.specs.BTreeMap.{get};
ghost use Rattle.key_tables.specs.Keys.{missing};
ghost use Rattle.key_tables.specs.Keys.{AreApart};
ghost use Rattle.key_tables.specs.Keys.{NumberEach};
ghost use Rattle.key_tables.specs.Indexes.{AreFound, Knows};

use crate::table::Key;
use byte_text::OutOfMemory;
use std::alloc::Global;
use std::collections::BTreeMap;

/// The places of a list's first keys. It learns those that have come since before it is asked, so that a list to which
/// others are joined again and again is looked through once.
#[derive(Drop)]
pub struct Index<K: Key> {
    pub places: BTreeMap<K, usize>,
    /// How many keys it knows.
    pub count: usize,
}

/// The keys that a list gains from another, and the numbers that the other's keys then have.
#[derive(Drop)]
pub struct KeyGain<K: Key> {
    pub added: Vec<K>,
    pub numbers: Vec<usize>,
}

impl<K: Key> Index<K> {
    /// It knows no key yet.
    pub fn new(alloc: Global) -> Index<K>
        ensures { (keys : List K) → Knows K.cmp keys result }
    {
        Index {
            places: BTreeMap::new(alloc),
            count: 0,
        }
    }

    /// Learns the keys that it doesn't know yet.
    fn learn(&mut self, alloc: Global, keys: &[K]) -> Result<(), OutOfMemory>
        requires knows { Knows K.cmp keys.now self.old }
        requires apart { AreApart keys.now }
        ensures knows { Knows K.cmp keys.now self.new }
        ensures all { OnOk result (AreFound K.cmp keys.now self.new.places) }
    {
        'keys: while self.count < keys.len() {
            let key = keys[self.count].again(alloc)?;
            self.places.insert(key, self.count)?;
            self.count += 1;
        }
        Ok(())
    }

    /// The place of a key.
    fn place_of(&self, key: &K) -> Option<usize>
        ensures { result ≡ get K.cmp self.now.places key.now }
    {
        let place = *self.places.get(key)?;
        Some(place)
    }

    /// What a list gains from others.
    pub fn gain(
        &mut self,
        alloc: Global,
        own: &[K],
        others: &[K],
    ) -> Result<KeyGain<K>, OutOfMemory>
        requires knows { Knows K.cmp own.now self.old }
        requires own { AreApart own.now }
        requires others { AreApart others.now }
        requires fits { length own.now + length others.now < 2 ^ 64 }
        ensures knows { Knows K.cmp own.now self.new }
        ensures added { IfOk result (λ g. g.added.items ≡ missing K.eq own.now others.now) }
        ensures numbers { IfOk result (λ g. NumberEach (own.now ++ g.added.items) g.numbers.items others.now) }
        ensures apart { IfOk result (λ g. AreApart (own.now ++ g.added.items)) }
    {
        self.learn(alloc, own)?;
        self.gain_from(alloc, own, others)
    }

    /// The same, once all keys of the list are known.
    fn gain_from(&self, alloc: Global, own: &[K], others: &[K]) -> Result<KeyGain<K>, OutOfMemory>
        requires found { AreFound K.cmp own.now self.now.places }
        requires fits { length own.now + length others.now < 2 ^ 64 }
        ensures added { IfOk result (λ g. g.added.items ≡ missing K.eq own.now others.now) }
        ensures numbers { IfOk result (λ g. NumberEach (own.now ++ g.added.items) g.numbers.items others.now) }
    {
        let mut added = Vec::new(alloc);
        let mut numbers = Vec::with_capacity(alloc, others.len())?;
        'others: for other in others {
            let place = self.place_of(other);
            let number = place_or_added(alloc, place, own.len(), &mut added, other)?;
            numbers.push(number)?;
        }
        Ok(KeyGain { added, numbers })
    }
}

/// The place of a key, which is added behind so many where it has none.
fn place_or_added<K: Key>(
    alloc: Global,
    place: Option<usize>,
    count: usize,
    added: &mut Vec<K>,
    key: &K,
) -> Result<usize, OutOfMemory>
    requires { count + length added.old.items < 2 ^ 64 }
    ensures known { IfOk result (λ n. IfSome place (λ known. (n ≡ known) × (added.new.items ≡ added.old.items))) }
    ensures added { IfOk result (λ n. IfNone place
        ((n ≡ count + length added.old.items) × (added.new.items ≡ added.old.items ++ key.now ∷ []))) }
{
    if let Some(place) = place {
        return Ok(place);
    }
    let place = count + added.len();
    added.push(key.again(alloc)?)?;
    Ok(place)
}
