//! One cache.

ghost use Rattle.std.specs.Prelude.{◌≡◌, ℕ, ◌+◌, ◌*◌, ◌^◌, ◌<◌, ◌≤◌, List, [], ◌∷◌, ◌++◌, not, IfOk, false, true};
ghost use Rattle.cache_lru.specs.Shape.{Shape, IsGeometry, block_of};
ghost use Rattle.cache_lru.specs.History.{blocks_of, hits, misses};
ghost use Rattle.cache_lru.specs.Lines.{StandsFor, empty_line};

use crate::geometry::Geometry;
use crate::ways::touch_set;
use byte_text::OutOfMemory;
use std::alloc::Global;
use std::marker::Model;

/// What stands in an empty line: no block, since a line has 16 bytes or more.
const EMPTY: u32 = u32::MAX;

/// The first and the last address where none is known.
const NO_START: u32 = u32::MAX;

const NO_END: u32 = 0;

/// A cache that replaces, in a full set, the block that was referred to least recently. It keeps the blocks of each
/// set, the newest first.
#[derive(Drop)]
pub struct Cache {
    shape: Geometry,
    /// The power of two that the line length is.
    line_bits: u32,
    /// The number of sets less 1.
    set_mask: u32,
    /// The block that was moved to the front of its set, or found there, last: it stands there still.
    newest: u32,
    /// From the first of these addresses to the second all are in that block; there are none where the first is the
    /// higher one.
    start: u32,
    end: u32,
    /// The block in each line, set after set.
    lines: Vec<u32>,
}

impl Model for Cache {
    ghost use Rattle.cache_lru.specs.Lines.{Cache};
    ghost use Rattle.cache_lru.specs.inner.Layout.{IsLaidOut};

    ghost Value = { Cache };

    ghost view = { λ c. record { shape = c.shape; lines = c.lines.items } };

    ghost invariant = { λ c. IsLaidOut c.shape c.line_bits c.set_mask c.newest c.start c.end c.lines.items };
}

impl Cache {
    /// An empty cache of this geometry. It takes all its memory here, four bytes for each line.
    pub fn new(alloc: Global, shape: Geometry) -> Result<Cache, OutOfMemory>
        ensures { IfOk result (λ cache. StandsFor shape cache []) }
    {
        let sets = shape.sets();
        let count = sets as usize * shape.assoc() as usize;
        Ok(Cache {
            shape,
            line_bits: shape.line_bits(),
            set_mask: sets - 1,
            newest: EMPTY,
            start: NO_START,
            end: NO_END,
            lines: vec![in alloc; EMPTY; count]?,
        })
    }

    /// Refers to each block that these bytes touch, the lower first. True for a miss, where one of them misses.
    #[inline(always)]
    pub fn refer(&mut self, addr: u32, len: u32) -> bool
        requires some { 1 ≤ len }
        requires few { len ≤ 4 }
        requires within { addr + len ≤ 2 ^ 32 }
        ensures miss { (shape : Shape) (history : List ℕ) → StandsFor shape self.old history
            → result ≡ misses shape history (blocks_of shape (record { addr = addr; len = len })) }
        ensures stands { (shape : Shape) (history : List ℕ) → StandsFor shape self.old history
            → StandsFor shape self.new (history ++ blocks_of shape (record { addr = addr; len = len })) }
    {
        let first = self.block(addr);
        let last = self.block(addr + (len - 1));
        if last == first {
            return self.refer_block(first);
        }
        self.refer_block(first) | self.refer_other(last, true)
    }

    /// Whether these bytes lie in one block that stands first in its set: a reference to it is a hit that changes
    /// nothing. That block is known at once the next time.
    #[inline(always)]
    pub fn is_first(&mut self, addr: u32, len: u32) -> bool
        requires some { 1 ≤ len }
        requires few { len ≤ 4 }
        requires within { addr + len ≤ 2 ^ 32 }
        ensures same { self.new ≡ self.old }
        ensures hit { result ≡ true → (shape : Shape) (history : List ℕ) → StandsFor shape self.old history
            → misses shape history (blocks_of shape (record { addr = addr; len = len })) ≡ false }
        ensures stands { result ≡ true → (shape : Shape) (history : List ℕ) → StandsFor shape self.old history
            → StandsFor shape self.old (history ++ blocks_of shape (record { addr = addr; len = len })) }
    {
        let last = addr + (len - 1);
        if self.is_within(addr, last) {
            return true;
        }
        let block = self.block(addr);
        if self.block(last) != block {
            return false;
        }
        self.stands_first(block)
    }

    /// Whether these are two addresses of the newest block, where these are known.
    #[inline(always)]
    fn is_within(&self, first: u32, last: u32) -> bool
        requires { first ≤ last }
        ensures alike { result ≡ true → block_of self.now.shape last ≡ block_of self.now.shape first }
        ensures hit { result ≡ true → (shape : Shape) (history : List ℕ) → StandsFor shape self.now history
            → hits shape history (block_of self.now.shape first) ≡ true }
        ensures stands { result ≡ true → (shape : Shape) (history : List ℕ) → StandsFor shape self.now history
            → StandsFor shape self.now (history ++ block_of self.now.shape first ∷ []) }
    {
        self.start <= first && last <= self.end
    }

    /// Whether this is the block of which it was told last that it stands first in its set, where it stands still.
    #[inline(always)]
    fn is_newest(&self, block: u32) -> bool
        requires { block < empty_line }
        ensures hit { result ≡ true → (shape : Shape) (history : List ℕ) → StandsFor shape self.now history
            → hits shape history block ≡ true }
        ensures stands { result ≡ true → (shape : Shape) (history : List ℕ) → StandsFor shape self.now history
            → StandsFor shape self.now (history ++ block ∷ []) }
    {
        block == self.newest
    }

    /// Whether a block stands first in its set, and so is the newest from here on.
    #[inline(always)]
    fn stands_first(&mut self, block: u32) -> bool
        requires below { block < empty_line }
        requires fits { block * self.old.shape.line < 2 ^ 32 }
        ensures same { self.new ≡ self.old }
        ensures hit { result ≡ true → (shape : Shape) (history : List ℕ) → StandsFor shape self.old history
            → hits shape history block ≡ true }
        ensures stands { result ≡ true → (shape : Shape) (history : List ℕ) → StandsFor shape self.old history
            → StandsFor shape self.old (history ++ block ∷ []) }
    {
        let set = (block & self.set_mask) as usize;
        let first = self.lines[set * self.shape.assoc() as usize];
        if first != block {
            return false;
        }
        self.newest = block;
        self.start = block << self.line_bits;
        self.end = self.start.saturating_add(self.shape.line() - 1);
        true
    }

    /// The block of an address.
    #[inline(always)]
    fn block(&self, addr: u32) -> u32
        ensures value { result ≡ block_of self.now.shape addr }
        ensures below { result < empty_line }
        ensures geometry { IsGeometry self.now.shape }
    {
        addr >> self.line_bits
    }

    /// Refers to one block. True for a miss.
    #[inline(always)]
    fn refer_block(&mut self, block: u32) -> bool
        requires { block < empty_line }
        ensures miss { (shape : Shape) (history : List ℕ) → StandsFor shape self.old history
            → result ≡ not (hits shape history block) }
        ensures stands { (shape : Shape) (history : List ℕ) → StandsFor shape self.old history
            → StandsFor shape self.new (history ++ block ∷ []) }
    {
        if self.is_newest(block) {
            return false;
        }
        self.refer_other(block, false)
    }

    /// What `refer_block` does, without a look at the newest block. It is quicker where the set is known to hold such a
    /// block seldom.
    #[inline(always)]
    fn refer_other(&mut self, block: u32, is_seldom_held: bool) -> bool
        requires { block < empty_line }
        ensures miss { (shape : Shape) (history : List ℕ) → StandsFor shape self.old history
            → result ≡ not (hits shape history block) }
        ensures stands { (shape : Shape) (history : List ℕ) → StandsFor shape self.old history
            → StandsFor shape self.new (history ++ block ∷ []) }
    {
        self.newest = block;
        self.start = NO_START;
        self.end = NO_END;
        let set = block & self.set_mask;
        let assoc = self.shape.assoc() as usize;
        let place = touch_set(&mut self.lines, set as usize, assoc, block, is_seldom_held);
        place == assoc
    }
}
