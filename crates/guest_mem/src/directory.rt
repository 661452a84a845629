//! The first level: 1,024 places for tables.

ghost use Rattle.std.specs.Prelude.{◌≡◌, ◌+◌, ◌-◌, ◌*◌, ◌%◌, ◌≤◌, ◌<◌, ◌^◌, ℕ, IsTrue, is_some, OnOk, IfOk, IfNone};
ghost use Rattle.std.specs.Prelude.{IfSome, true, false, Some, None, All, length, vec_len, ◌↔◌};
ghost use Rattle.std.specs.Option.{option_copied, option_map};
ghost use Rattle.guest_mem.specs.Memory.{allows};
ghost use Rattle.guest_mem.specs.inner.Page.{IsWhole, EachAllows, zero_page, page_allows};
ghost use Rattle.guest_mem.specs.inner.Page.{written_where, protected_page};
ghost use Rattle.guest_mem.specs.inner.Directory.{page_at, page_total, has_place, missing_from};
ghost use Rattle.guest_mem.specs.inner.Table.{at_place, Alters, AltersRange, AreFree, AreGaps, IsFirst};

use crate::page::Page;
use crate::spare::SparePages;
use crate::table::{Gaps, PLACES, Table, add_places};
use std::alloc::{AllocError, Global};

/// A directory's places for tables.
#[derive(Debug, Drop)]
pub struct Directory {
    pub tables: Vec<Option<Table>>,
}

impl Directory {
    /// A directory without pages.
    #[tactic(auto, unfolding(crate::specs::inner::Directory::page_at))]
    pub fn new(alloc: Global) -> Directory
        ensures { (p : ℕ) → page_at result p ≡ None }
    {
        Directory {
            tables: Vec::new(alloc),
        }
    }

    /// The page of a number, if there is one.
    #[tactic(auto, unfolding(crate::specs::inner::Directory::page_at))]
    #[inline(always)]
    pub fn page(&self, number: usize) -> Option<&Page>
        ensures { option_copied result ≡ page_at self.now number }
    {
        match self.tables.get(number / PLACES) {
            Some(Some(table)) => table.page(number % PLACES),
            _ => None,
        }
    }

    /// The page of a number, if there is one that allows what is wanted.
    #[inline(always)]
    pub fn page_allowing(&self, number: usize, want: u8) -> Option<&Page>
        ensures none { IfNone result (page_allows want (page_at self.now number) ≡ false) }
        ensures page { IfSome result (λ page. page_at self.now number ≡ Some page.now) }
        ensures allowed { IfSome result (λ page. allows want page.now.permission ≡ true) }
    {
        match self.page(number) {
            Some(page) if page.allows(want) => Some(page),
            _ => None,
        }
    }

    /// Writes into the page of a number, where there is one that allows it, and tells whether it did.
    #[tactic(auto, unfolding(crate::specs::inner::Directory::page_at))]
    #[inline(always)]
    pub fn write(&mut self, number: usize, want: u8, from: usize, bytes: &[u8]) -> bool
        requires { from + length bytes.now ≤ 4096 }
        ensures allowed { result ≡ page_allows want (page_at self.old number) }
        ensures after { Alters (page_at self.old) (page_at self.new) number
            (option_map (written_where want from bytes.now) (page_at self.old number)) }
    {
        let high = number / PLACES;
        if high >= self.tables.len() {
            return false;
        }
        match &mut self.tables[high] {
            Some(table) => table.write(number % PLACES, want, from, bytes),
            None => false,
        }
    }

    /// Gives the page of a number, if there is one, another permission.
    #[tactic(auto, unfolding(crate::specs::inner::Directory::page_at))]
    pub fn protect(&mut self, number: usize, permission: u8)
        requires { permission < 8 }
        ensures { Alters (page_at self.old) (page_at self.new) number
            (option_map (protected_page permission) (page_at self.old number)) }
    {
        let high = number / PLACES;
        if high >= self.tables.len() {
            return;
        }
        if let Some(table) = &mut self.tables[high] {
            table.protect(number % PLACES, permission);
        }
    }

    /// Takes the page of a number away.
    #[tactic(auto, unfolding(crate::specs::inner::Directory::page_at))]
    pub fn take(&mut self, number: usize) -> Option<Page>
        ensures taken { result ≡ page_at self.old number }
        ensures after { Alters (page_at self.old) (page_at self.new) number None }
    {
        let high = number / PLACES;
        if high >= self.tables.len() {
            return None;
        }
        match &mut self.tables[high] {
            Some(table) => table.take(number % PLACES),
            None => None,
        }
    }

    /// The first page number from one on, up to an end, whose page is there, or else isn't; the end where there is
    /// none. Of a table that is full, empty or absent no page is looked at.
    pub fn first(&self, from: usize, end: usize, wanted: bool) -> usize
        requires order { from ≤ end }
        requires within { end ≤ 2 ^ 20 }
        ensures { IsFirst (λ p. is_some (page_at self.now p)) wanted from end result }
    {
        let mut at = from;
        'tables: while at < end {
            let border = end.min(at - at % PLACES + PLACES);
            let found = self.first_in_table(at, border, wanted);
            if found < border {
                return found;
            }
            at = border;
        }
        end
    }

    /// `first` among pages that have one table.
    fn first_in_table(&self, from: usize, end: usize, wanted: bool) -> usize
        requires order { from < end }
        requires one { end ≤ from - from % 1024 + 1024 }
        ensures { IsFirst (λ p. is_some (page_at self.now p)) wanted from end result }
    {
        let start = from - from % PLACES;
        match self.table(from / PLACES) {
            Some(table) => start + table.first(from - start, end - start, wanted),
            None if wanted => end,
            None => from,
        }
    }

    /// A page from one on, up to an end, before which none is the first of so many free ones. It looks at no page.
    pub fn past_gaps(&self, from: usize, end: usize, pages: usize) -> usize
        requires order { from ≤ end }
        requires within { end ≤ 2 ^ 20 }
        ensures low { from ≤ result }
        ensures high { result ≤ end }
        ensures none { (p : ℕ) → from ≤ p → p < result → AreFree (λ q. is_some (page_at self.now q)) p pages end → ⊥ }
    {
        let mut start = from;
        'tables: for high in from.div_ceil(PLACES)..end / PLACES {
            if let Some(gaps) = self.gaps(high) {
                let at = high * PLACES;
                if at + usize::from(gaps.first) - start >= pages
                    || usize::from(gaps.widest) >= pages
                {
                    return start;
                }
                start = at + usize::from(gaps.past);
            }
        }
        start
    }

    /// The gaps of the table at a place, where there are pages and they were looked for.
    fn gaps(&self, high: usize) -> Option<Gaps>
        ensures { IfSome result (λ gaps. AreGaps (λ q. is_some (page_at self.now (high * 1024 + q))) gaps) }
    {
        match self.table(high) {
            Some(table) => table.gaps(),
            None => None,
        }
    }

    /// The table at a place, if there is one.
    fn table(&self, place: usize) -> Option<&Table>
        ensures { option_copied result ≡ at_place self.now.tables.items place }
    {
        match self.tables.get(place) {
            Some(Some(table)) => Some(table),
            _ => None,
        }
    }

    /// Puts the page of a number in its place.
    #[tactic(auto, unfolding(crate::specs::inner::Directory::page_at, crate::specs::inner::Directory::has_place))]
    pub fn put(&mut self, number: usize, page: Page)
        requires place { IsTrue (has_place self.old number) }
        requires whole { IsWhole page }
        ensures after { Alters (page_at self.old) (page_at self.new) number (Some page) }
        ensures places { (p : ℕ) → has_place self.new p ≡ has_place self.old p }
    {
        match &mut self.tables[number / PLACES] {
            Some(table) => table.put(number % PLACES, page),
            None => unreachable!(),
        }
    }

    /// Makes a place for the page of a number, and changes no page.
    #[tactic(auto, unfolding(crate::specs::inner::Directory::page_at, crate::specs::inner::Directory::has_place))]
    pub fn reserve(&mut self, alloc: Global, number: usize) -> Result<(), AllocError>
        requires { number < 2 ^ 20 }
        ensures pages { (p : ℕ) → page_at self.new p ≡ page_at self.old p }
        ensures places { (p : ℕ) → IsTrue (has_place self.old p) → IsTrue (has_place self.new p) }
        ensures place { OnOk result (IsTrue (has_place self.new number)) }
    {
        add_places(&mut self.tables)?;
        let high = number / PLACES;
        if self.tables[high].is_none() {
            let table = Table::new(alloc)?;
            self.tables[high] = Some(table);
        }
        Ok(())
    }

    /// Whether each of `count` pages from the first on is there and allows what is wanted.
    pub fn pages_allow(&self, first: usize, count: usize, want: u8) -> bool
        requires { first + count ≤ 2 ^ 20 }
        ensures { IsTrue result ↔ EachAllows (page_at self.now) want first count }
    {
        for step in 0..count {
            match self.page(first + step) {
                Some(page) => {
                    if !page.allows(want) {
                        return false;
                    }
                }
                None => return false,
            }
        }
        true
    }

    /// How many of `count` pages from the first on are not there.
    pub fn missing(&self, first: usize, count: usize) -> usize
        requires { first + count ≤ 2 ^ 20 }
        ensures value { result ≡ missing_from (page_at self.now) first count }
        ensures bound { result ≤ count }
    {
        let mut missing = 0;
        for step in 0..count {
            if self.page(first + step).is_none() {
                missing += 1;
            }
        }
        missing
    }

    /// Makes places for `count` pages from the first on, and changes no page.
    pub fn reserve_range(
        &mut self,
        alloc: Global,
        first: usize,
        count: usize,
    ) -> Result<(), AllocError>
        requires { first + count ≤ 2 ^ 20 }
        ensures pages { (p : ℕ) → page_at self.new p ≡ page_at self.old p }
        ensures places { OnOk result ((k : ℕ) → k < count → IsTrue (has_place self.new (first + k))) }
    {
        for step in 0..count {
            self.reserve(alloc, first + step)?;
        }
        Ok(())
    }

    /// Looks for the gaps of all tables that have one of `count` pages from the first on, and changes no page.
    fn settle(&mut self, first: usize, count: usize)
        requires { first + count ≤ 2 ^ 20 }
        ensures { (p : ℕ) → page_at self.new p ≡ page_at self.old p }
    {
        for high in first / PLACES..(first + count).div_ceil(PLACES) {
            self.settle_table(high);
        }
    }

    /// Looks for the gaps of the table at a place, if there is one.
    #[tactic(auto, unfolding(crate::specs::inner::Directory::page_at))]
    fn settle_table(&mut self, high: usize)
        ensures { (p : ℕ) → page_at self.new p ≡ page_at self.old p }
    {
        if high >= self.tables.len() {
            return;
        }
        if let Some(table) = &mut self.tables[high] {
            table.settle();
        }
    }

    /// Puts pages, all of one value, in their places from the first on.
    pub fn fill(&mut self, first: usize, mut fresh: Vec<Page>, permission: u8)
        requires range { first + vec_len fresh ≤ 2 ^ 20 }
        requires places { (k : ℕ) → k < vec_len fresh → IsTrue (has_place self.old (first + k)) }
        requires fresh { All (λ page. page ≡ zero_page permission) fresh.items }
        requires permission { permission < 8 }
        ensures { AltersRange (page_at self.old) (page_at self.new) first (vec_len fresh)
            (λ _. Some (zero_page permission)) }
    {
        let count = fresh.len();
        while let Some(page) = fresh.pop() {
            self.put(first + fresh.len(), page);
        }
        self.settle(first, count);
    }

    /// Takes the page of a number away, which is spare then, and tells how many went.
    fn remove(&mut self, number: usize, spare: &mut SparePages) -> usize
        requires { number < 2 ^ 20 }
        ensures after { Alters (page_at self.old) (page_at self.new) number None }
        ensures taken { result + page_total self.new ≡ page_total self.old }
        ensures one { result ≤ 1 }
    {
        match self.take(number) {
            Some(page) => {
                spare.put(page);
                1
            }
            None => 0,
        }
    }

    /// Takes `count` pages from the first on away, which are spare then, and tells how many were there.
    pub fn clear(&mut self, first: usize, count: usize, spare: &mut SparePages) -> usize
        requires { first + count ≤ 2 ^ 20 }
        ensures after { AltersRange (page_at self.old) (page_at self.new) first count (λ _. None) }
        ensures taken { result + page_total self.new ≡ page_total self.old }
    {
        let end = first + count;
        let mut taken = 0;
        let mut at = self.first(first, end, true);
        'there: while at < end {
            taken += self.remove(at, spare);
            at = self.first(at + 1, end, true);
        }
        self.settle(first, count);
        taken
    }

    /// Gives `count` pages from the first on, where they are there, another permission.
    pub fn protect_range(&mut self, first: usize, count: usize, permission: u8)
        requires range { first + count ≤ 2 ^ 20 }
        requires permission { permission < 8 }
        ensures { AltersRange (page_at self.old) (page_at self.new) first count
            (option_map (protected_page permission)) }
    {
        for step in 0..count {
            self.protect(first + step, permission);
        }
    }
}

/// So many pages of zeros, the spare ones among them.
pub fn fresh_pages(
    alloc: Global,
    spare: &mut SparePages,
    count: usize,
    permission: u8,
) -> Result<Vec<Page>, AllocError>
    requires range { count ≤ 2 ^ 20 }
    requires permission { permission < 8 }
    ensures len { IfOk result (λ pages. vec_len pages ≡ count) }
    ensures zeros { IfOk result (λ pages. All (λ page. page ≡ zero_page permission) pages.items) }
{
    spare.reserve()?;
    let mut pages = Vec::with_capacity(alloc, count)?;
    while pages.len() < count {
        pages.push(spare.zeroed(alloc, permission)?)?;
    }
    Ok(pages)
}
