//! A table of amounts by key.

ghost use Rattle.std.specs.Prelude.{◌≡◌, ◌↔◌, ◌<◌, ◌≤◌, ◌+◌, [], IfOk, IfSome, IsOk, is_some};
ghost use Rattle.std.specs.Prelude.{OnOk, Some, false, true, filter};
ghost use Rattle.std.specs.Prelude.{length, position, if◌then◌else◌, IsPermutation};
ghost use Rattle.std.specs.List.{IsDistinct};
ghost use Rattle.std.specs.List.Sorted.{IsStrictlySortedBy};
ghost use Rattle.std.specs.Map.{keys_of, lookup};
ghost use Rattle.arc_costs.specs.Amounts.{add_amount, amount_at, clear_amounts, has_key};
ghost use Rattle.arc_costs.specs.inner.Shape.{AllWhole};

use crate::amount::{Amount, Part};
use crate::amount_tree::AmountTree;
use crate::digits::Digits;
use crate::row_ref::RowRef;
use crate::sorting::sorted_by_key;
use byte_text::OutOfMemory;
use std::alloc::Global;
use std::marker::Model;

/// Amounts by key, in order of first addition. The newest key may stand in a slot beside the map, so that a key which
/// isn't in the map yet can be added without memory.
#[derive(Drop)]
pub struct Table<K: Digits, A: Amount> {
    known: AmountTree<K, A>,
    newest: Option<(K, A)>,
}

impl<K: Digits, A: Amount> Model for Table<K, A> {
    ghost use Rattle.arc_costs.specs.Contents.{Entries};
    ghost use Rattle.arc_costs.specs.inner.Shape.{IsSound, table_entries};

    ghost Value = { Entries K A };

    ghost view = { λ t. table_entries t.known.entries t.newest t.known.spare };

    ghost invariant = { λ t. IsSound K.eq A.is_whole t.known.entries t.newest };
}

impl<K: Digits, A: Amount> Table<K, A> {
    /// An empty table. It takes no memory.
    pub fn new(alloc: Global) -> Table<K, A>
        ensures rows { result.rows ≡ [] }
        ensures room { result.room ≡ 1 }
    {
        Table {
            known: AmountTree::new(alloc),
            newest: None,
        }
    }

    /// Whether there is room for one more key.
    #[inline(always)]
    pub fn has_room(&self) -> bool
        ensures { result ≡ true ↔ 1 ≤ self.now.room }
    {
        self.newest.is_none()
    }

    /// Makes room for one more key: the newest row moves into the map.
    #[inline(always)]
    pub fn reserve(&mut self) -> Result<(), OutOfMemory>
        ensures rows { self.new.rows ≡ self.old.rows }
        ensures kept { self.old.room ≤ self.new.room }
        ensures room { OnOk result (self.new.room ≡ 1) }
        ensures ahead { OnOk result (self.old.ahead ≤ self.new.ahead + 1) }
        ensures succeeds { 1 ≤ self.old.room + self.old.ahead → IsOk result }
    {
        if self.newest.is_none() {
            return Ok(());
        }
        self.make_slot()
    }

    /// What `reserve` does. It has a frame of its own, so that a call which finds room needs none.
    #[cold]
    #[inline(never)]
    fn make_slot(&mut self) -> Result<(), OutOfMemory>
        ensures rows { self.new.rows ≡ self.old.rows }
        ensures kept { self.old.room ≤ self.new.room }
        ensures room { OnOk result (self.new.room ≡ 1) }
        ensures ahead { OnOk result (self.old.ahead ≤ self.new.ahead + 1) }
        ensures succeeds { 1 ≤ self.old.room + self.old.ahead → IsOk result }
    {
        let Some((key, amount)) = self.newest else {
            return Ok(());
        };
        self.known.push(key, amount)?;
        self.newest = None;
        Ok(())
    }

    /// Makes room in the map for this many more keys.
    pub fn make_room(&mut self, count: usize) -> Result<(), OutOfMemory>
        ensures rows { self.new.rows ≡ self.old.rows }
        ensures kept { self.old.room ≤ self.new.room }
        ensures room { OnOk result (self.new.room ≡ 1) }
        ensures ahead { OnOk result (count ≤ self.new.ahead) }
    {
        self.reserve()?;
        self.known.reserve(count)?;
        Ok(())
    }

    /// Adds an amount at a key. It takes no memory.
    #[inline(always)]
    pub fn add<P: Part<A>>(&mut self, key: K, amount: &P)
        requires room { has_key K.eq key self.old.rows ≡ false → 1 ≤ self.old.room }
        requires fits { A.can_add (amount_at K.eq A.nothing self.old.rows key) (P.amount amount.now) }
        ensures rows { self.new.rows ≡ add_amount K.eq A.plus self.old.rows key (P.amount amount.now) }
        ensures room { self.new.room + (if has_key K.eq key self.old.rows then 0 else 1) ≡ self.old.room }
        ensures ahead { self.new.ahead ≡ self.old.ahead }
        ensures whole { AllWhole A.is_whole self.old.rows }
        ensures whole_amount { A.is_whole (P.amount amount.now) }
    {
        self.add_near(usize::MAX, key, amount);
    }

    /// Adds an amount at a key, whose row is looked for at this place first: one that stands there costs no hash. The
    /// answer is the place of the key's row. It takes no memory.
    #[inline(always)]
    pub fn add_near<P: Part<A>>(&mut self, near: usize, key: K, amount: &P) -> usize
        requires room { has_key K.eq key self.old.rows ≡ false → 1 ≤ self.old.room }
        requires fits { A.can_add (amount_at K.eq A.nothing self.old.rows key) (P.amount amount.now) }
        ensures rows { self.new.rows ≡ add_amount K.eq A.plus self.old.rows key (P.amount amount.now) }
        ensures place { position (K.eq key) (keys_of self.new.rows) ≡ Some result }
        ensures room { self.new.room + (if has_key K.eq key self.old.rows then 0 else 1) ≡ self.old.room }
        ensures ahead { self.new.ahead ≡ self.old.ahead }
        ensures whole { AllWhole A.is_whole self.old.rows }
        ensures whole_amount { A.is_whole (P.amount amount.now) }
    {
        if let Some(index) = self.known.index_near(near, &key) {
            self.known.add_to(index, amount);
            return index;
        }
        let last = self.known.len();
        match &mut self.newest {
            Some(row) => amount.add_to(&mut row.1),
            None => {
                let mut sum = A::zero();
                amount.add_to(&mut sum);
                self.newest = Some((key, sum));
            }
        }
        last
    }

    /// Whether the row of a key is seen at this place, without a search: a new row may stand elsewhere.
    #[inline(always)]
    pub fn is_at(&self, place: usize, key: &K) -> bool
        ensures { result ≡ true → position (K.eq key.now) (keys_of self.now.rows) ≡ Some place }
    {
        self.known.is_at(place, key)
    }

    /// Makes every amount nothing. The keys stay.
    pub fn clear(&mut self)
        ensures rows { self.new.rows ≡ clear_amounts A.nothing self.old.rows }
        ensures room { self.new.room ≡ self.old.room }
    {
        self.known.clear();
        if let Some(row) = &mut self.newest {
            row.1 = A::zero();
        }
    }

    /// The rows that aren't nothing.
    fn list_rows(&self) -> Result<Vec<RowRef<'_, K, A>>, OutOfMemory>
        ensures rows { IfOk result (λ v. IsPermutation (filter (λ e. A.is_some e.1) self.now.rows) v.items) }
        ensures apart { IsDistinct K.eq (keys_of self.now.rows) }
        ensures whole { AllWhole A.is_whole self.now.rows }
    {
        let mut rows = self.known.list_rows()?;
        let Some(row) = &self.newest else {
            return Ok(rows);
        };
        if row.1.is_some() {
            rows.push(RowRef::of(row))?;
        }
        Ok(rows)
    }

    /// The rows that aren't nothing, by rising key.
    pub fn sorted(&self) -> Result<Vec<RowRef<'_, K, A>>, OutOfMemory>
    where
        K: Ord,
        ensures rows { IfOk result (λ v. IsPermutation (filter (λ e. A.is_some e.1) self.now.rows) v.items) }
        ensures rise { IfOk result (λ v. IsStrictlySortedBy K.cmp (keys_of v.items)) }
        ensures whole { AllWhole A.is_whole self.now.rows }
    {
        sorted_by_key(self.list_rows()?)
    }
}
