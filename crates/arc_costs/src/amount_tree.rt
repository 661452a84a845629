//! Amounts that are found by the digits of their keys.

ghost use Rattle.std.specs.Prelude.{◌≡◌, ◌+◌, ◌^◌, ◌<◌, ◌≤◌, [], ◌∷◌, ◌++◌, Some, None, true, IfOk, IfSome, IsOk};
ghost use Rattle.std.specs.Prelude.{OnErr, OnOk, filter, is_some, length, position, slice_get, IsPermutation};
ghost use Rattle.std.specs.List.{IsDistinct};
ghost use Rattle.std.specs.Map.{keys_of, lookup, values_of};
ghost use Rattle.indexmap.specs.IndexMap.{set_value_at};
ghost use Rattle.arc_costs.specs.Amounts.{clear_amounts};
ghost use Rattle.arc_costs.specs.inner.Shape.{AllWhole};

use crate::amount::{Amount, Part};
use crate::digits::Digits;
use crate::key_tree::KeyTree;
use crate::row_ref::RowRef;
use byte_text::OutOfMemory;
use std::alloc::Global;
use std::marker::Model;

/// Amounts by key, in order of first addition. It knows which of them aren't nothing, so that who lists or clears them
/// looks at no others.
#[derive(Drop)]
pub struct AmountTree<K: Digits, A: Amount> {
    rows: KeyTree<K, A>,
    /// The indexes of the rows that aren't nothing. It has room for the index of each row.
    some: Vec<usize>,
}

impl<K: Digits, A: Amount> Model for AmountTree<K, A> {
    ghost use Rattle.std.specs.Prelude.{◌-◌, length, min};
    ghost use Rattle.arc_costs.specs.Contents.{Keyed};
    ghost use Rattle.arc_costs.specs.inner.Somes.{Knows};

    ghost Value = { Keyed K A };

    ghost view = { λ t. record {
      entries = t.rows.entries;
      spare = min t.rows.spare (t.some.cap - length t.rows.entries);
    } };

    ghost invariant = { λ t. Knows A.is_some t.rows.entries t.some.items t.some.cap };
}

impl<K: Digits, A: Amount> AmountTree<K, A> {
    /// No row. It takes no memory.
    pub fn new(alloc: Global) -> AmountTree<K, A>
        ensures { result.entries ≡ [] }
    {
        AmountTree {
            rows: KeyTree::new(alloc),
            some: Vec::new(alloc),
        }
    }

    /// How many rows there are.
    #[inline(always)]
    pub fn len(&self) -> usize
        ensures len { result ≡ length self.now.entries }
        ensures small { result < 2 ^ 63 }
    {
        self.rows.len()
    }

    /// Whether it is seen that the row at this index has this key: where its amount isn't begun, it isn't.
    #[inline(always)]
    pub fn is_at(&self, index: usize, key: &K) -> bool
        ensures { result ≡ true → position (K.eq key.now) (keys_of self.now.entries) ≡ Some index }
    {
        self.rows.is_at(index, key) && self.rows.value(index).is_begun()
    }

    /// The index of a key's row. It is looked for at one index first, where it is found with its amount begun: so an
    /// addition there asks nothing more.
    #[inline(always)]
    pub fn index_near(&self, near: usize, key: &K) -> Option<usize>
        ensures index { result ≡ position (K.eq key.now) (keys_of self.now.entries) }
        ensures found { is_some result ≡ is_some (lookup (K.eq key.now) self.now.entries) }
        ensures within { IfSome result (λ index. index < length self.now.entries) }
    {
        if self.is_at(near, key) {
            return Some(near);
        }
        self.rows.index_of(key)
    }

    /// Makes room for this many more rows.
    pub fn reserve(&mut self, count: usize) -> Result<(), OutOfMemory>
        ensures entries { self.new.entries ≡ self.old.entries }
        ensures spare { OnOk result (count ≤ self.new.spare) }
        ensures kept { self.old.spare ≤ self.new.spare }
        ensures succeeds { count ≤ self.old.spare → IsOk result }
    {
        self.rows.reserve(count)?;
        let rows = self.rows.len().saturating_add(count);
        self.some.reserve(rows.saturating_sub(self.some.len()))?;
        Ok(())
    }

    /// Adds the row of a key that has none.
    pub fn push(&mut self, key: K, amount: A) -> Result<(), OutOfMemory>
        requires { lookup (K.eq key) self.old.entries ≡ None }
        ensures entries { OnOk result (self.new.entries ≡ self.old.entries ++ (key, amount) ∷ []) }
        ensures spare { self.old.spare ≤ self.new.spare + 1 }
        ensures err { OnErr result (self.new.entries ≡ self.old.entries) }
        ensures succeeds { 1 ≤ self.old.spare → IsOk result }
    {
        self.reserve(1)?;
        let index = self.rows.len();
        self.rows.push(key, amount)?;
        if amount.is_some() {
            self.some.push_reserved(index);
        }
        Ok(())
    }

    /// Adds to the amount of a row. One that is begun isn't nothing, so its index is among those of such rows already.
    #[inline(always)]
    pub fn add_to<P: Part<A>>(&mut self, index: usize, amount: &P)
        requires within { index < length self.old.entries }
        requires whole { AllWhole A.is_whole self.old.entries }
        requires fits { (held : A) → slice_get (values_of self.old.entries) index ≡ Some held
            → A.can_add held (P.amount amount.now) }
        ensures entries { (held : A) → slice_get (values_of self.old.entries) index ≡ Some held
            → self.new.entries ≡ set_value_at self.old.entries index (A.plus held (P.amount amount.now)) }
        ensures spare { self.new.spare ≡ self.old.spare }
        ensures whole { A.is_whole (P.amount amount.now) }
    {
        if self.rows.value(index).is_begun() {
            self.rows.add_to(index, amount);
        } else {
            self.begin(index, amount);
        }
    }

    /// Adds to an amount that may be nothing before.
    #[cold]
    #[inline(never)]
    fn begin<P: Part<A>>(&mut self, index: usize, amount: &P)
        requires within { index < length self.old.entries }
        requires whole { AllWhole A.is_whole self.old.entries }
        requires fits { (held : A) → slice_get (values_of self.old.entries) index ≡ Some held
            → A.can_add held (P.amount amount.now) }
        ensures entries { (held : A) → slice_get (values_of self.old.entries) index ≡ Some held
            → self.new.entries ≡ set_value_at self.old.entries index (A.plus held (P.amount amount.now)) }
        ensures spare { self.new.spare ≡ self.old.spare }
        ensures whole { A.is_whole (P.amount amount.now) }
    {
        let was_some = self.rows.value(index).is_some();
        self.rows.add_to(index, amount);
        let is_some = self.rows.value(index).is_some();
        if is_some != was_some {
            self.some.push_reserved(index);
        }
    }

    /// The rows that aren't nothing.
    pub fn list_rows(&self) -> Result<Vec<RowRef<'_, K, A>>, OutOfMemory>
        ensures rows { IfOk result (λ v. IsPermutation (filter (λ e. A.is_some e.1) self.now.entries) v.items) }
        ensures apart { IsDistinct K.eq (keys_of self.now.entries) }
    {
        let rows = self.rows.rows();
        // With room for one more, which a table keeps beside them.
        let room = self.some.len().saturating_add(1);
        let mut listed = Vec::with_capacity(self.rows.allocator(), room)?;
        'rows: for index in &self.some {
            listed.push(RowRef::of(&rows[*index]))?;
        }
        Ok(listed)
    }

    /// Makes every amount nothing. The keys stay.
    pub fn clear(&mut self)
        requires { AllWhole A.is_whole self.old.entries }
        ensures entries { self.new.entries ≡ clear_amounts A.nothing self.old.entries }
        ensures spare { self.new.spare ≡ self.old.spare }
    {
        'rows: for index in &self.some {
            self.rows.set(*index, A::zero());
        }
        self.some.clear();
    }
}
