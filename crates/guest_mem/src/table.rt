//! The second level: 1,024 places for pages.

ghost use Rattle.std.specs.Prelude.{◌≡◌, ◌+◌, ◌≤◌, ◌<◌, ℕ, length, vec_len, not, true, is_some, IfOk, OnOk, Some, None, IfSome};
ghost use Rattle.std.specs.Option.{option_copied, option_map, ForSome};
ghost use Rattle.guest_mem.specs.inner.Page.{IsWhole, page_allows, written_where, protected_page};
ghost use Rattle.guest_mem.specs.inner.Table.{at_place, full_places, IsFirst, AreGaps, PlaceChanged};

use crate::page::Page;
use std::alloc::{AllocError, Global};

/// The places of a level: each is chosen by ten bits of an address.
pub const PLACES: usize = 1024;

/// Adds empty places until there are 1,024.
#[tactic(auto, using(crate::proofs::Places::place_pushed))]
pub fn add_places<T: Drop>(places: &mut Vec<Option<T>>) -> Result<(), AllocError>
    ensures kept { (q : ℕ) → at_place places.new.items q ≡ at_place places.old.items q }
    ensures longer { vec_len places.old ≤ vec_len places.new }
    ensures full { OnOk result (1024 ≤ vec_len places.new) }
{
    while places.len() < PLACES {
        places.push(None)?;
    }
    Ok(())
}

/// Where pages stand in a table: the first place with one, the place past the last one, and the most free places in a
/// row between two. In two bytes each, so that a table is no longer by them.
#[derive(Clone, Copy, Debug)]
pub struct Gaps {
    pub first: u16,
    pub past: u16,
    pub widest: u16,
}

/// Of a table without pages, and of one that wasn't looked through since a page was taken.
const UNKNOWN: Gaps = Gaps {
    first: 1024,
    past: 0,
    widest: 0,
};

/// A table's places for pages.
#[derive(Debug, Drop)]
pub struct Table {
    pub places: Vec<Option<Page>>,
    /// How many pages there are.
    mapped: u16,
    /// What was found when the places were last looked through.
    gaps: Gaps,
    ghost full: { 1024 ≤ length places.items },
    ghost whole: { (q : ℕ) → ForSome (at_place places.items q) IsWhole },
    ghost counted: { full_places places.items ≡ mapped },
    ghost seen: { gaps.first < 1024 → AreGaps (λ q. is_some (at_place places.items q)) gaps },
}

impl Table {
    /// A table without pages.
    pub fn new(alloc: Global) -> Result<Table, AllocError>
        ensures { IfOk result (λ table. (q : ℕ) → at_place table.places.items q ≡ None) }
    {
        let mut places = Vec::with_capacity(alloc, PLACES)?;
        add_places(&mut places)?;
        Ok(Table {
            places,
            mapped: 0,
            gaps: UNKNOWN,
        })
    }

    /// The page at a place, if there is one.
    #[inline(always)]
    pub fn page(&self, place: usize) -> Option<&Page>
        ensures { option_copied result ≡ at_place self.now.places.items place }
    {
        match self.places.get(place) {
            Some(Some(page)) => Some(page),
            _ => None,
        }
    }

    /// Writes into the page at a place, where there is one that allows it, and tells whether it did.
    #[inline(always)]
    pub fn write(&mut self, place: usize, want: u8, from: usize, bytes: &[u8]) -> bool
        requires { from + length bytes.now ≤ 4096 }
        ensures allowed { result ≡ page_allows want (at_place self.old.places.items place) }
        ensures after { PlaceChanged self.old.places.items self.new.places.items place
            (option_map (written_where want from bytes.now) (at_place self.old.places.items place)) }
    {
        if place >= self.places.len() {
            return false;
        }
        match &mut self.places[place] {
            Some(page) => page.write(want, from, bytes),
            None => false,
        }
    }

    /// Gives the page at a place, if there is one, another permission.
    pub fn protect(&mut self, place: usize, permission: u8)
        requires { permission < 8 }
        ensures { PlaceChanged self.old.places.items self.new.places.items place
            (option_map (protected_page permission) (at_place self.old.places.items place)) }
    {
        if place >= self.places.len() {
            return;
        }
        match &mut self.places[place] {
            Some(page) => page.protect(permission),
            None => {}
        }
    }

    /// Takes the page at a place away.
    pub fn take(&mut self, place: usize) -> Option<Page>
        requires { place < 1024 }
        ensures taken { result ≡ at_place self.old.places.items place }
        ensures after { PlaceChanged self.old.places.items self.new.places.items place None }
    {
        let page = self.places[place].take();
        self.mapped -= u16::from(page.is_some());
        self.gaps = UNKNOWN;
        page
    }

    /// Puts a page at a place.
    pub fn put(&mut self, place: usize, page: Page)
        requires within { place < 1024 }
        requires whole { IsWhole page }
        ensures { PlaceChanged self.old.places.items self.new.places.items place (Some page) }
    {
        self.mapped += u16::from(self.places[place].is_none());
        self.places[place] = Some(page);
    }

    /// Whether the count alone tells that no place has a page, where one with a page is wanted; or that each has one,
    /// where one without is wanted.
    fn lacks(&self, wanted: bool) -> bool
        ensures { result ≡ true → (q : ℕ) → q < 1024 → is_some (at_place self.now.places.items q) ≡ not wanted }
    {
        if wanted {
            self.mapped == 0
        } else {
            usize::from(self.mapped) == PLACES
        }
    }

    /// The first place from one on, up to an end, that has a page, or else that has none; the end where there is no
    /// such place. A table without any isn't looked through.
    pub fn first(&self, from: usize, end: usize, wanted: bool) -> usize
        requires order { from ≤ end }
        requires within { end ≤ 1024 }
        ensures { IsFirst (λ q. is_some (at_place self.now.places.items q)) wanted from end result }
    {
        if self.lacks(wanted) {
            return end;
        }
        'places: for place in from..end {
            if self.page(place).is_some() == wanted {
                return place;
            }
        }
        end
    }
    /// The gaps, where there are pages and they were looked for since one was taken.
    pub fn gaps(&self) -> Option<Gaps>
        ensures { IfSome result (λ gaps. AreGaps (λ q. is_some (at_place self.now.places.items q)) gaps) }
    {
        if usize::from(self.gaps.first) < PLACES {
            return Some(self.gaps);
        }
        None
    }

    /// Whether there is a page at a place.
    fn has(&self, place: usize) -> bool
        ensures { result ≡ is_some (at_place self.now.places.items place) }
    {
        self.page(place).is_some()
    }

    /// Looks for the gaps.
    fn look(&self) -> Gaps
        ensures { result.first < 1024 → AreGaps (λ q. is_some (at_place self.now.places.items q)) result }
    {
        let first = self.first(0, PLACES, true);
        let mut past = first;
        let mut widest: usize = 0;
        'places: for place in first..PLACES {
            let wider = widest.max(place - past);
            if self.has(place) {
                widest = wider;
                past = place + 1;
            }
        }
        Gaps {
            first: first as u16,
            past: past as u16,
            widest: widest as u16,
        }
    }

    /// Looks for the gaps and keeps what is found.
    pub fn settle(&mut self)
        ensures { self.new.places.items ≡ self.old.places.items }
    {
        self.gaps = self.look();
    }
}
