//! A table that numbers texts from 0 in the order in which they came, and what any key of a table can do.

ghost use Rattle.std.specs.Prelude.{◌≡◌, ◌≢◌, ◌↔◌, Some, true, false, [], IfNone, IfOk, IfSome, OnErr, OnOk, slice_get};
ghost use Rattle.std.specs.List.{AllPairs, list_any};
ghost use Rattle.std.specs.Str.{bytes_eq};
ghost use Rattle.key_tables.specs.inner.Mixed.{IsFound, KeepsTexts, mixed};
ghost use Rattle.key_tables.specs.Keys.{with_key};

use crate::mixed::mix;
use byte_text::{OutOfMemory, Text, TextRef};
use std::alloc::Global;
use std::collections::BTreeMap;
use std::marker::Model;

/// A key that can be held twice, and is the same as any that it equals.
pub trait Key: Ord + Drop {
    /// The same key once more.
    fn again(&self, alloc: Global) -> Result<Self, OutOfMemory>
        ensures { IfOk result (λ copy. copy ≡ self.now) };

    ghost exact: { (x y : Self) → Self.eq x y ≡ true → x ≡ y };
}

impl Key for Text {
    ghost use Rattle.key_tables.specs.Same.{same_texts};

    ghost exact = { same_texts };

    fn again(&self, alloc: Global) -> Result<Self, OutOfMemory> {
        self.try_clone(alloc)
    }
}

impl Key for TextRef<'_> {
    ghost use Rattle.key_tables.specs.Same.{same_texts};

    ghost exact = { same_texts };

    fn again(&self, _alloc: Global) -> Result<Self, OutOfMemory> {
        Ok(self.again())
    }
}

impl Key for usize {
    ghost use Rattle.key_tables.specs.Same.{same_numbers};

    ghost exact = { same_numbers };

    fn again(&self, _alloc: Global) -> Result<Self, OutOfMemory> {
        Ok(*self)
    }
}

/// Whether a key stands at a place.
pub(crate) fn stands_at<K: Key>(keys: &[K], place: usize, key: &K) -> bool
    ensures { result ≡ true ↔ slice_get keys.now place ≡ Some key.now }
{
    match keys.get(place) {
        Some(other) => *other == *key,
        None => false,
    }
}

/// Texts, each once. Contracts see the list of them, in the order of their numbers.
#[derive(Drop)]
pub struct Table<'a> {
    texts: Vec<TextRef<'a>>,
    /// By the number that is made of a text's bytes, the number of the first text of which it is made.
    firsts: BTreeMap<u64, usize>,
    /// The numbers of the other texts. They are found by an order, since who writes the bytes may choose texts that are
    /// taken for one by any hash.
    others: BTreeMap<TextRef<'a>, usize>,
}

impl<'a> Model for Table<'a> {
    ghost use Rattle.std.specs.Prelude.{List, ℕ};
    ghost use Rattle.key_tables.specs.inner.Mixed.{AreTexts};

    ghost Value = { List (List ℕ) };

    ghost view = { λ t. t.texts.items };

    ghost invariant = { λ t. AreTexts t.texts.items t.firsts t.others };
}

/// Lets a text be found by this number. After a refusal the others are found as before too.
fn note<'a>(
    firsts: &mut BTreeMap<u64, usize>,
    others: &mut BTreeMap<TextRef<'a>, usize>,
    key: u64,
    text: TextRef<'a>,
    number: usize,
) -> Result<(), OutOfMemory>
    requires { key ≡ mixed text }
    ensures found { OnOk result (IsFound firsts.new others.new text.entry number) }
    ensures kept { KeepsTexts text.entry firsts.old others.old firsts.new others.new }
{
    if firsts.contains_key(&key) {
        others.insert(text, number)?;
    } else {
        firsts.insert(key, number)?;
    }
    Ok(())
}

impl<'a> Table<'a> {
    /// No texts.
    pub fn new(alloc: Global) -> Table<'a>
        ensures { result ≡ [] }
    {
        Table {
            texts: Vec::new(alloc),
            firsts: BTreeMap::new(alloc),
            others: BTreeMap::new(alloc),
        }
    }

    /// The texts, in the order of their numbers.
    pub fn keys(&self) -> &[TextRef<'a>]
        ensures keys { result.now ≡ self.now }
        ensures distinct { AllPairs (λ x y. x ≢ y) self.now }
    {
        self.texts.as_slice()
    }

    /// The number of a text that stands here.
    fn find(&self, key: u64, text: &TextRef<'a>) -> Option<usize>
        requires { key ≡ mixed text.now }
        ensures found { IfSome result (λ number. slice_get self.now number ≡ Some text.now) }
        ensures none { IfNone result (list_any (bytes_eq text.now) self.now ≡ false) }
    {
        let first = *self.firsts.get(&key)?;
        if stands_at(&self.texts, first, text) {
            return Some(first);
        }
        let other = *self.others.get(text)?;
        if stands_at(&self.texts, other, text) {
            Some(other)
        } else {
            None
        }
    }

    /// The number of a text, which is added where it isn't there yet. After a refusal the texts are as before.
    pub fn number(&mut self, text: TextRef<'a>) -> Result<usize, OutOfMemory>
        ensures keys { IfOk result (λ _. self.new ≡ with_key bytes_eq self.old text.entry) }
        ensures number { IfOk result (λ n. slice_get self.new n ≡ Some text.entry) }
        ensures err { OnErr result (self.new ≡ self.old) }
    {
        let key = mix(text.as_bytes());
        if let Some(number) = self.find(key, &text) {
            return Ok(number);
        }
        let number = self.texts.len();
        let noted = text.again();
        note(&mut self.firsts, &mut self.others, key, noted, number)?;
        self.texts.push(text)?;
        Ok(number)
    }
}
