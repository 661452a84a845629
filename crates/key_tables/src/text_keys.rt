//! Tables that number keys which are made of numbers of texts.

ghost use Rattle.std.specs.Prelude.{◌≡◌, ◌≢◌, ◌<◌, ◌+◌, ℕ, Some, true, false};
ghost use Rattle.std.specs.Prelude.{[], IfNone, IfOk, IfSome, OnErr, OnOk};
ghost use Rattle.std.specs.Prelude.{length, slice_get, slice_index_or};
ghost use Rattle.std.specs.List.{AllPairs, list_any};
ghost use Rattle.key_tables.specs.inner.Firsts.{Finds, KeepsFirsts, KeepsOthers};
ghost use Rattle.key_tables.specs.Keys.{with_key};

use crate::table::{Key, stands_at};
use byte_text::OutOfMemory;
use std::alloc::Global;
use std::collections::BTreeMap;
use std::marker::Model;

/// A key that is made of numbers of texts.
pub trait TextKey: Key + Copy {
    ghost latest: { Self → ℕ };

    /// Of its texts, the one that was numbered last.
    fn latest(&self) -> usize
        ensures { result ≡ latest self.now };
}

impl TextKey for usize {
    ghost latest = { λ text. text };

    fn latest(&self) -> usize {
        *self
    }
}

/// Stands for the first key of a text that has none: there are never so many keys.
const NO_KEY: usize = usize::MAX;

/// Keys, each once, numbered from 0. Contracts see the list of them, in the order of their numbers. Most keys are the
/// first of their latest text and are found there, so that where texts come in order, what is looked at does so too.
/// Only the others are searched for.
#[derive(Drop)]
pub struct TextKeys<K: TextKey> {
    keys: Vec<K>,
    /// By the number of a text, the number of the first key whose latest text it is.
    firsts: Vec<usize>,
    /// The numbers of the other keys.
    others: BTreeMap<K, usize>,
}

impl<K: TextKey> Model for TextKeys<K> {
    ghost use Rattle.std.specs.Prelude.{List};
    ghost use Rattle.key_tables.specs.inner.Firsts.{AreNumbered};

    ghost Value = { List K };

    ghost view = { λ t. t.keys.items };

    ghost invariant = { λ t. AreNumbered K.cmp K.latest K.eq t.keys.items t.firsts.items t.others };
}

/// The number of the first key of a text, among so many keys.
fn first_of(firsts: &[usize], count: usize, text: usize) -> Option<usize>
    ensures known { IfSome result (λ _. text < length firsts.now) }
    ensures first { IfSome result (λ first. first ≡ slice_index_or firsts.now text 0) }
    ensures there { IfSome result (λ first. first < count) }
    ensures none { IfNone result (text < length firsts.now → slice_index_or firsts.now text 0 < count → ⊥) }
{
    let first = *firsts.get(text)?;
    if first < count { Some(first) } else { None }
}

/// Makes a place for the first key of a text. After a refusal all first keys are as before too.
fn make_place(firsts: &mut Vec<usize>, text: usize) -> Result<(), OutOfMemory>
    ensures known { OnOk result (text < length firsts.new.items) }
    ensures kept { KeepsFirsts firsts.old.items firsts.new.items }
{
    if text < firsts.len() {
        return Ok(());
    }
    firsts.resize(text, NO_KEY)?;
    firsts.push(NO_KEY)?;
    Ok(())
}

/// Lets a key be found by this number, which is that of the next key. After a refusal the keys that stand are found as
/// before too.
fn note<K: TextKey>(
    firsts: &mut Vec<usize>,
    others: &mut BTreeMap<K, usize>,
    number: usize,
    key: K,
) -> Result<(), OutOfMemory>
    ensures found { OnOk result (Finds K.cmp K.latest firsts.new.items others.new (number + 1) key number) }
    ensures kept { KeepsOthers K.cmp K.latest key number firsts.old.items others.old firsts.new.items others.new }
{
    let text = key.latest();
    make_place(firsts, text)?;
    if firsts[text] < number {
        others.insert(key, number)?;
    } else {
        firsts[text] = number;
    }
    Ok(())
}

impl<K: TextKey> TextKeys<K> {
    /// No keys.
    pub fn new(alloc: Global) -> TextKeys<K>
        ensures { result ≡ [] }
    {
        TextKeys {
            keys: Vec::new(alloc),
            firsts: Vec::new(alloc),
            others: BTreeMap::new(alloc),
        }
    }

    /// The keys, in the order of their numbers.
    pub fn keys(&self) -> &[K]
        ensures keys { result.now ≡ self.now }
        ensures distinct { AllPairs (λ x y. x ≢ y) self.now }
    {
        self.keys.as_slice()
    }

    /// The number of a key that stands here.
    fn find(&self, key: &K) -> Option<usize>
        ensures found { IfSome result (λ number. slice_get self.now number ≡ Some key.now) }
        ensures none { IfNone result (list_any (K.eq key.now) self.now ≡ false) }
    {
        let first = first_of(&self.firsts, self.keys.len(), key.latest())?;
        if stands_at(&self.keys, first, key) {
            return Some(first);
        }
        let other = *self.others.get(key)?;
        if stands_at(&self.keys, other, key) {
            Some(other)
        } else {
            None
        }
    }

    /// The number of a key, which is added where it isn't there yet. After a refusal the keys are as before.
    pub fn number(&mut self, key: K) -> Result<usize, OutOfMemory>
        ensures keys { IfOk result (λ _. self.new ≡ with_key K.eq self.old key) }
        ensures number { IfOk result (λ n. slice_get self.new n ≡ Some key) }
        ensures err { OnErr result (self.new ≡ self.old) }
    {
        if let Some(number) = self.find(&key) {
            return Ok(number);
        }
        let number = self.keys.len();
        note(&mut self.firsts, &mut self.others, number, key)?;
        self.keys.push(key)?;
        Ok(number)
    }
}
