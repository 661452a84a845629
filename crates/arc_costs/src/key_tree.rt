//! Rows that are found by the digits of their keys.

ghost use Rattle.std.specs.Prelude.{◌≡◌, ◌+◌, ◌^◌, ◌<◌, ◌≤◌, [], ◌∷◌, ◌++◌, Some, None, true, IfOk, IfErr, IfSome, IsOk, OnOk, OnErr};
ghost use Rattle.std.specs.Prelude.{length, position, is_some, slice_get};
ghost use Rattle.std.specs.List.{IsDistinct};
ghost use Rattle.std.specs.Map.{keys_of, lookup, values_of};
ghost use Rattle.indexmap.specs.IndexMap.{set_value_at};
ghost use Rattle.arc_costs.specs.inner.Tree.{Differs, Ends, IsTree, with_row};

use crate::amount::{Amount, Part};
use crate::digits::Digits;
use byte_text::OutOfMemory;
use std::alloc::Global;
use std::marker::Model;

/// How many ways lead on from a row: one for each digit.
const WAYS: usize = 4;

/// Rows in order of first addition, each with a key of its own. They are a digital search tree: a search begins at the
/// first row, and goes on by the key's next digit from each row that has another key. So it looks at no more rows than
/// a key has digits, whichever keys there are, and mostly at as many as their number has digits.
#[derive(Drop)]
pub struct KeyTree<K: Digits, A> {
    rows: Vec<(K, A)>,
    /// Of each row, for each digit the row at which a search goes on. It is 0 where none does, since no search goes on
    /// at the first row.
    next: Vec<usize>,
    /// How many rows fit without memory.
    room: usize,
}

impl<K: Digits, A> Model for KeyTree<K, A> {
    ghost use Rattle.std.specs.Map.{keys_of};
    ghost use Rattle.arc_costs.specs.Contents.{Keyed};
    ghost use Rattle.arc_costs.specs.inner.Tree.{HasRoom, IsTree};

    ghost Value = { Keyed K A };

    ghost view = { λ t. record { entries = t.rows.items; spare = t.room } };

    ghost invariant = { λ t. IsTree K.eq K.digit (keys_of t.rows.items) t.next.items
        × HasRoom t.room t.rows.len t.rows.cap t.next.len t.next.cap };
}

/// The index of a key's row, or the way on which it would come.
fn search<K: Digits, A: Copy>(rows: &[(K, A)], next: &[usize], key: &K) -> Result<usize, usize>
    requires { IsTree K.eq K.digit (keys_of rows.now) next.now }
    ensures found { IfOk result (λ index. position (K.eq key.now) (keys_of rows.now) ≡ Some index) }
    ensures none { IfErr result (λ _. lookup (K.eq key.now) rows.now ≡ None) }
    ensures end { IfErr result (Ends next.now (K.digit key.now) (Differs K.eq key.now (keys_of rows.now))) }
{
    let mut at = 0;
    'places: for place in 0..rows.len() {
        if *key == rows[at].0 {
            return Ok(at);
        }
        let way = WAYS * at + key.digit(place);
        let follower = next[way];
        if follower == 0 {
            return Err(way);
        }
        at = follower;
    }
    Err(key.digit(0))
}

/// Makes ways for one row more, to which this way leads from now on.
fn lead_to(next: &mut Vec<usize>, way: usize, row: usize)
    requires way { way < length next.old.items + 4 }
    requires room { next.old.len + 4 ≤ next.old.cap }
    ensures items { next.new.items ≡ with_row next.old.items way row }
    ensures len { next.new.len ≡ next.old.len + 4 }
    ensures cap { next.old.cap ≤ next.new.cap }
{
    next.resize(next.len() + WAYS, 0).unwrap();
    next[way] = row;
}

impl<K: Digits, A: Copy> KeyTree<K, A> {
    /// No row. It takes no memory.
    pub fn new(alloc: Global) -> KeyTree<K, A>
        ensures { result.entries ≡ [] }
    {
        KeyTree {
            rows: Vec::new(alloc),
            next: Vec::new(alloc),
            room: 0,
        }
    }

    /// The rows, in order of first addition.
    #[inline(always)]
    pub fn rows(&self) -> &[(K, A)]
        ensures rows { result.now ≡ self.now.entries }
        ensures apart { IsDistinct K.eq (keys_of self.now.entries) }
    {
        self.rows.as_slice()
    }

    /// How many rows there are.
    #[inline(always)]
    pub fn len(&self) -> usize
        ensures len { result ≡ length self.now.entries }
        ensures small { result < 2 ^ 63 }
    {
        self.rows.len()
    }

    /// The value of a row.
    #[inline(always)]
    pub fn value(&self, index: usize) -> &A
        requires { index < length self.now.entries }
        ensures { slice_get (values_of self.now.entries) index ≡ Some result.now }
    {
        &self.rows[index].1
    }

    pub fn allocator(&self) -> Global {
        *self.rows.allocator()
    }

    /// The index of a key's row. It has a frame of its own, so that who finds a row elsewhere first needs none.
    #[inline(never)]
    pub fn index_of(&self, key: &K) -> Option<usize>
        ensures index { result ≡ position (K.eq key.now) (keys_of self.now.entries) }
        ensures found { is_some result ≡ is_some (lookup (K.eq key.now) self.now.entries) }
        ensures within { IfSome result (λ index. index < length self.now.entries) }
    {
        match search(&self.rows, &self.next, key) {
            Ok(index) => Some(index),
            Err(_) => None,
        }
    }

    /// Whether the row at this index has this key.
    #[inline(always)]
    pub fn is_at(&self, index: usize, key: &K) -> bool
        ensures { result ≡ true → position (K.eq key.now) (keys_of self.now.entries) ≡ Some index }
    {
        match self.rows.get(index) {
            Some(row) => key.is(&row.0),
            None => false,
        }
    }

    /// Makes room for this many more rows.
    pub fn reserve(&mut self, count: usize) -> Result<(), OutOfMemory>
        ensures entries { self.new.entries ≡ self.old.entries }
        ensures spare { OnOk result (count ≤ self.new.spare) }
        ensures kept { self.old.spare ≤ self.new.spare }
        ensures succeeds { count ≤ self.old.spare → IsOk result }
    {
        if count <= self.room {
            return Ok(());
        }
        self.rows.reserve(count)?;
        self.next.reserve(count.saturating_mul(WAYS))?;
        self.room = count;
        Ok(())
    }

    /// Adds the row of a key that has none.
    pub fn push(&mut self, key: K, value: A) -> Result<(), OutOfMemory>
        requires { lookup (K.eq key) self.old.entries ≡ None }
        ensures entries { OnOk result (self.new.entries ≡ self.old.entries ++ (key, value) ∷ []) }
        ensures spare { self.old.spare ≤ self.new.spare + 1 }
        ensures err { OnErr result (self.new.entries ≡ self.old.entries) }
        ensures succeeds { 1 ≤ self.old.spare → IsOk result }
    {
        self.reserve(1)?;
        let Err(way) = search(&self.rows, &self.next, &key) else {
            unreachable!()
        };
        let index = self.rows.len();
        lead_to(&mut self.next, way, index);
        self.rows.push_reserved((key, value));
        self.room -= 1;
        Ok(())
    }

    /// Writes the value of a row.
    pub fn set(&mut self, index: usize, value: A)
        requires { index < length self.old.entries }
        ensures entries { self.new.entries ≡ set_value_at self.old.entries index value }
        ensures spare { self.new.spare ≡ self.old.spare }
    {
        self.rows[index].1 = value;
    }
}

impl<K: Digits, A: Amount> KeyTree<K, A> {
    /// Adds to the amount of a row.
    #[inline(always)]
    pub(crate) fn add_to<P: Part<A>>(&mut self, index: usize, amount: &P)
        requires within { index < length self.old.entries }
        requires fits { (held : A) → slice_get (values_of self.old.entries) index ≡ Some held
            → A.can_add held (P.amount amount.now) }
        ensures entries { (held : A) → slice_get (values_of self.old.entries) index ≡ Some held
            → self.new.entries ≡ set_value_at self.old.entries index (A.plus held (P.amount amount.now)) }
        ensures spare { self.new.spare ≡ self.old.spare }
        ensures whole { A.is_whole (P.amount amount.now) }
    {
        amount.add_to(&mut self.rows[index].1);
    }
}
