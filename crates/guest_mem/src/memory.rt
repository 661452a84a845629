//! The guest's memory.

ghost use Rattle.std.specs.Prelude.{◌≡◌, ◌+◌, ◌*◌, ◌/◌, ◌%◌, ◌^◌, ◌<◌, ◌≤◌, ◌↔◌, ◌⊎◌, ℕ, IsTrue, IfOk};
ghost use Rattle.std.specs.Prelude.{OnOk, OnErr, IfNone, IfSome, Some, length, is_ok, true, false};
ghost use Rattle.std.specs.Result.{IsOk, result_ok};
ghost use Rattle.std.specs.FinMap as map;
ghost use Rattle.guest_mem.specs.Memory.{prot_read, prot_write, prot_exec, page_limit, allows_at, may, byte_at, bytes_at};
ghost use Rattle.guest_mem.specs.Memory.{bytes_of, number_of, load_at, write_at, store_at, zero_range, unmap_at, protect_at};
ghost use Rattle.guest_mem.specs.Memory.{page_count, page_mapped, pages_mapped, SameElsewhere};

use crate::directory::{Directory, fresh_pages};
use crate::error::{Access, CopyError, MapError};
use crate::page::{EXECUTE, PAGE_BYTES, READ, WRITE};
use crate::spare::SparePages;
use byte_text::Text;
use std::alloc::Global;
use std::marker::Model;

/// The most pages that a guest may have mapped: 256 MiB.
pub const MAX_PAGES: u32 = 65_536;

/// The memory of a guest with 32-bit addresses: pages of 4,096 bytes with a permission, which is a
/// sum of `READ`, `WRITE` and `EXECUTE`. Where a permission with writing is given, the page gets
/// reading as well.
///
/// Loads and stores follow the RISC-V unprivileged manual, "Load and Store Instructions": numbers are
/// little-endian, and an access that is not aligned works. An access does not wrap around the last
/// address. Contracts see the memory as a finite map from addresses to a byte and a permission.
#[derive(Debug, Drop)]
pub struct GuestMem {
    directory: Directory,
    mapped: u32,
    spare: SparePages,
    alloc: Global,
}

impl Model for GuestMem {
    ghost use Rattle.std.specs.Prelude.{◌≡◌};
    ghost use Rattle.std.specs.Coded.{coded_ℕ};
    ghost use Rattle.std.specs.FinMap as map;
    ghost use Rattle.guest_mem.specs.Memory.{Memory, cell_code};

    ghost Value = { Memory };

    ghost coded = { map.code coded_ℕ cell_code };

    ghost use Rattle.guest_mem.specs.inner.Page.{memory_of_pages};
    ghost use Rattle.guest_mem.specs.inner.Directory.{page_at, page_total};

    ghost view = { λ g. memory_of_pages (page_at g.directory) };

    ghost invariant = { λ g. g.mapped ≡ page_total g.directory };
}

impl GuestMem {
    /// A memory in which nothing is mapped. It takes no memory before the first `map`.
    pub fn new(alloc: Global) -> GuestMem
        ensures { result ≡ map.empty }
    {
        GuestMem {
            directory: Directory::new(alloc),
            mapped: 0,
            spare: SparePages::new(alloc),
            alloc,
        }
    }

    /// How many pages are mapped.
    pub fn pages(&self) -> u32
        ensures { result ≡ page_count self.now }
    {
        self.mapped
    }

    /// Whether all of `pages` pages from the address `first` on are mapped; with no pages it is true.
    pub fn mapped(&self, first: u32, pages: u32) -> bool
        requires aligned { first % 4096 ≡ 0 }
        requires within { first + pages * 4096 ≤ 2 ^ 32 }
        ensures pages { result ≡ pages_mapped self.now first pages }
        // each byte of these pages, too
        ensures bytes { result ≡ may self.now 0 first (pages * 4096) }
    {
        self.directory
            .pages_allow(first as usize / PAGE_BYTES, pages as usize, 0)
    }

    /// The first mapped page from one on, up to an end, pages by their numbers; the end where none is mapped. In 4 MiB
    /// with no page, or with all of theirs, no page is looked at.
    pub fn first_mapped(&self, from: u32, end: u32) -> u32
        requires order { from ≤ end }
        requires within { end ≤ 2 ^ 20 }
        ensures low { from ≤ result }
        ensures high { result ≤ end }
        ensures passed { (p : ℕ) → from ≤ p → p < result → page_mapped self.now (p * 4096) ≡ false }
        ensures met { result < end → page_mapped self.now (result * 4096) ≡ true }
    {
        self.directory.first(from as usize, end as usize, true) as u32
    }

    /// The first page from one on, up to an end, that isn't mapped, pages by their numbers; the end where all are. It
    /// looks at as little as `first_mapped`.
    pub fn first_free(&self, from: u32, end: u32) -> u32
        requires order { from ≤ end }
        requires within { end ≤ 2 ^ 20 }
        ensures low { from ≤ result }
        ensures high { result ≤ end }
        ensures passed { (p : ℕ) → from ≤ p → p < result → page_mapped self.now (p * 4096) ≡ true }
        ensures met { result < end → page_mapped self.now (result * 4096) ≡ false }
    {
        self.directory.first(from as usize, end as usize, false) as u32
    }

    /// A page from one on, up to an end, at which to begin the search for `pages` pages in a row that aren't mapped,
    /// pages by their numbers: no such row begins before it. It looks at no page: each 4 MiB tell how far apart
    /// their pages are.
    pub fn past_gaps(&self, from: u32, end: u32, pages: u32) -> u32
        requires order { from ≤ end }
        requires within { end ≤ 2 ^ 20 }
        ensures low { from ≤ result }
        ensures high { result ≤ end }
        ensures none { (p : ℕ) → from ≤ p → p < result → p + pages ≤ end
            → ((q : ℕ) → p ≤ q → q < p + pages → page_mapped self.now (q * 4096) ≡ false) → ⊥ }
    {
        self.directory
            .past_gaps(from as usize, end as usize, pages as usize) as u32
    }

    /// Whether each of `len` bytes from `addr` on lies below 2^32 and is mapped with all bits of `perm`.
    pub fn may(&self, addr: u32, len: u32, perm: u8) -> bool
        ensures value { result ≡ may self.now perm addr len }
        ensures each { IsTrue result ↔ ((k : ℕ) → k < len → IsTrue (allows_at self.now perm (addr + k))) }
    {
        self.directory.may(addr as usize, len as usize, perm)
    }

    /// The `len` bytes from `addr` on. `CopyError::Access` where one of them may not be read, and
    /// `CopyError::OutOfMemory` where the copy finds no memory.
    pub fn copy_out(&self, addr: u32, len: u32) -> Result<Text, CopyError>
        ensures ok { IfOk result (λ text. text ≡ bytes_at self.now addr len) }
        ensures access { (result ≡ Err CopyError.Access) ↔ (may self.now prot_read addr len ≡ false) }
        ensures empty { len ≡ 0 → IsOk result }
    {
        if !self.may(addr, len, READ) {
            return Err(CopyError::Access);
        }
        let mut bytes = Vec::with_capacity(self.alloc, len as usize)?;
        self.directory
            .append_bytes(addr as usize, len as usize, &mut bytes)?;
        Ok(Text { bytes })
    }

    /// Maps `pages` pages of zeros from the address `first` on, in place of what was mapped there.
    /// `MapError::Full` where more than 65,536 pages would then be mapped, and `MapError::OutOfMemory` where
    /// there is no memory for them; after either the memory is as before.
    pub fn map(&mut self, first: u32, pages: u32, perm: u8) -> Result<(), MapError>
        requires aligned { first % 4096 ≡ 0 }
        requires within { first + pages * 4096 ≤ 2 ^ 32 }
        requires permission { perm < 8 }
        ensures ok { OnOk result (self.new ≡ zero_range self.old first (pages * 4096) perm) }
        ensures err { OnErr result (self.new ≡ self.old) }
        ensures elsewhere { SameElsewhere self.old self.new first (pages * 4096) }
        ensures full { (result ≡ Err MapError.Full)
            ↔ (page_limit < page_count (zero_range self.old first (pages * 4096) perm)) }
    {
        let page = first as usize / PAGE_BYTES;
        let count = pages as usize;
        let missing = self.directory.missing(page, count);
        if self.mapped as usize + missing > MAX_PAGES as usize {
            return Err(MapError::Full);
        }
        self.directory.reserve_range(self.alloc, page, count)?;
        let fresh = fresh_pages(self.alloc, &mut self.spare, count, perm)?;
        self.directory.fill(page, fresh, perm);
        self.mapped += missing as u32;
        Ok(())
    }

    /// Takes `pages` pages from the address `first` on away, as far as they are mapped.
    pub fn unmap(&mut self, first: u32, pages: u32)
        requires aligned { first % 4096 ≡ 0 }
        requires within { first + pages * 4096 ≤ 2 ^ 32 }
        ensures after { self.new ≡ unmap_at self.old first (pages * 4096) }
        ensures elsewhere { SameElsewhere self.old self.new first (pages * 4096) }
        ensures none { pages ≡ 0 → self.new ≡ self.old }
    {
        let page = first as usize / PAGE_BYTES;
        let taken = self.directory.clear(page, pages as usize, &mut self.spare);
        self.mapped -= taken as u32;
    }

    /// Gives `pages` mapped pages from the address `first` on another permission.
    pub fn protect(&mut self, first: u32, pages: u32, perm: u8)
        requires aligned { first % 4096 ≡ 0 }
        requires within { first + pages * 4096 ≤ 2 ^ 32 }
        requires permission { perm < 8 }
        requires mapped { IsTrue (pages_mapped self.old first pages) }
        ensures after { self.new ≡ protect_at self.old first (pages * 4096) perm }
        ensures elsewhere { SameElsewhere self.old self.new first (pages * 4096) }
        ensures none { pages ≡ 0 → self.new ≡ self.old }
    {
        let page = first as usize / PAGE_BYTES;
        self.directory.protect_range(page, pages as usize, perm);
    }

    /// The byte at an address; `Access` where it may not be read.
    #[inline(always)]
    pub fn load8(&self, addr: u32) -> Result<u32, Access>
        ensures value { result_ok result ≡ load_at self.now prot_read addr 1 }
        ensures byte { IfOk result (λ value. value < 2 ^ 8) }
    {
        match self
            .directory
            .page_allowing(addr as usize / PAGE_BYTES, READ)
        {
            Some(page) => Ok(u32::from(page.byte(addr as usize % PAGE_BYTES))),
            None => Err(Access),
        }
    }

    /// The number of the two bytes from an address on; `Access` where one may not be read.
    #[inline(always)]
    pub fn load16(&self, addr: u32) -> Result<u32, Access>
        ensures value { result_ok result ≡ load_at self.now prot_read addr 2 }
        ensures half { IfOk result (λ value. value < 2 ^ 16) }
    {
        let place = addr as usize % PAGE_BYTES;
        if place > PAGE_BYTES - 2 {
            return self.half_across(addr);
        }
        match self
            .directory
            .page_allowing(addr as usize / PAGE_BYTES, READ)
        {
            Some(page) => Ok(u32::from(page.half(place))),
            None => Err(Access),
        }
    }

    /// The number of the four bytes from an address on; `Access` where one may not be read.
    #[inline(always)]
    pub fn load32(&self, addr: u32) -> Result<u32, Access>
        ensures { result_ok result ≡ load_at self.now prot_read addr 4 }
    {
        self.word(addr, READ)
    }

    /// The instruction word of the four bytes from an address on; `Access` where one may not be executed.
    #[inline(always)]
    pub fn fetch(&self, pc: u32) -> Result<u32, Access>
        ensures { result_ok result ≡ load_at self.now prot_exec pc 4 }
    {
        self.word(pc, EXECUTE)
    }

    /// Stores the lowest byte of a number; `Access`, and no change, where the address may not be written.
    #[inline(always)]
    pub fn store8(&mut self, addr: u32, value: u32) -> Result<(), Access>
        ensures allowed { is_ok result ≡ may self.old prot_write addr 1 }
        ensures after { self.new ≡ store_at self.old addr (bytes_of 1 value) }
        ensures refused { OnErr result (self.new ≡ self.old) }
        ensures reads_back { OnOk result (load_at self.new prot_read addr 1 ≡ Some (value % 256)) }
        ensures elsewhere { SameElsewhere self.old self.new addr 1 }
    {
        self.store(addr, &[(value % 0x100) as u8])
    }

    /// Stores the two lowest bytes of a number from an address on; `Access`, and no change, where one of
    /// these addresses may not be written.
    #[inline(always)]
    pub fn store16(&mut self, addr: u32, value: u32) -> Result<(), Access>
        ensures allowed { is_ok result ≡ may self.old prot_write addr 2 }
        ensures after { self.new ≡ store_at self.old addr (bytes_of 2 value) }
        ensures refused { OnErr result (self.new ≡ self.old) }
        ensures reads_back { OnOk result (load_at self.new prot_read addr 2 ≡ Some (value % 65536)) }
        ensures elsewhere { SameElsewhere self.old self.new addr 2 }
    {
        self.store(addr, &((value % 0x1_0000) as u16).to_le_bytes())
    }

    /// Stores a number in the four bytes from an address on; `Access`, and no change, where one of these
    /// addresses may not be written.
    // Not `always`: taken in before it is simplified, its bytes might be the page's own for all the compiler sees.
    #[inline]
    pub fn store32(&mut self, addr: u32, value: u32) -> Result<(), Access>
        ensures allowed { is_ok result ≡ may self.old prot_write addr 4 }
        ensures after { self.new ≡ store_at self.old addr (bytes_of 4 value) }
        ensures refused { OnErr result (self.new ≡ self.old) }
        ensures reads_back { OnOk result (load_at self.new prot_read addr 4 ≡ Some value) }
        ensures elsewhere { SameElsewhere self.old self.new addr 4 }
    {
        self.store(addr, &value.to_le_bytes())
    }

    /// Stores bytes from an address on; `Access`, and no change, where one of these addresses may not be
    /// written.
    pub fn copy_in(&mut self, addr: u32, bytes: &[u8]) -> Result<(), Access>
        ensures allowed { is_ok result ≡ may self.old prot_write addr (length bytes.now) }
        ensures after { self.new ≡ store_at self.old addr bytes.now }
        ensures refused { OnErr result (self.new ≡ self.old) }
        ensures elsewhere { SameElsewhere self.old self.new addr (length bytes.now) }
    {
        self.store(addr, bytes)
    }

    /// Puts bytes from an address on, all of them mapped, whatever their permission.
    pub fn put_raw(&mut self, addr: u32, bytes: &[u8])
        requires { IsTrue (may self.old 0 addr (length bytes.now)) }
        ensures after { self.new ≡ write_at self.old addr bytes.now }
        ensures elsewhere { SameElsewhere self.old self.new addr (length bytes.now) }
    {
        self.directory.put_bytes(addr as usize, bytes);
    }

    /// The word at an address, all of whose bytes allow what is wanted.
    #[inline(always)]
    fn word(&self, addr: u32, want: u8) -> Result<u32, Access>
        ensures { result_ok result ≡ load_at self.now want addr 4 }
    {
        let place = addr as usize % PAGE_BYTES;
        if place > PAGE_BYTES - 4 {
            return self.word_across(addr, want);
        }
        match self
            .directory
            .page_allowing(addr as usize / PAGE_BYTES, want)
        {
            Some(page) => Ok(page.word(place)),
            None => Err(Access),
        }
    }

    /// `word` where the bytes lie on two pages.
    #[cold]
    fn word_across(&self, addr: u32, want: u8) -> Result<u32, Access>
        ensures { result_ok result ≡ load_at self.now want addr 4 }
    {
        if !self.may(addr, 4, want) {
            return Err(Access);
        }
        Ok(u32::from_le_bytes([
            self.byte(addr),
            self.byte(addr + 1),
            self.byte(addr + 2),
            self.byte(addr + 3),
        ]))
    }

    /// `load16` where the bytes lie on two pages.
    #[cold]
    fn half_across(&self, addr: u32) -> Result<u32, Access>
        ensures value { result_ok result ≡ load_at self.now prot_read addr 2 }
        ensures half { IfOk result (λ value. value < 2 ^ 16) }
    {
        if !self.may(addr, 2, READ) {
            return Err(Access);
        }
        let half = u16::from_le_bytes([self.byte(addr), self.byte(addr + 1)]);
        Ok(u32::from(half))
    }

    /// The byte at an address, and 0 where none is mapped.
    fn byte(&self, addr: u32) -> u8
        ensures { result ≡ byte_at self.now addr }
    {
        match self.directory.page(addr as usize / PAGE_BYTES) {
            Some(page) => page.byte(addr as usize % PAGE_BYTES),
            None => 0,
        }
    }

    /// Stores bytes from an address on, each of which may be written.
    #[inline(always)]
    fn store(&mut self, addr: u32, bytes: &[u8]) -> Result<(), Access>
        ensures allowed { is_ok result ≡ may self.old prot_write addr (length bytes.now) }
        ensures after { self.new ≡ store_at self.old addr bytes.now }
        ensures refused { OnErr result (self.new ≡ self.old) }
        ensures reads_back { OnOk result (load_at self.new prot_read addr (length bytes.now)
            ≡ Some (number_of bytes.now)) }
        ensures elsewhere { SameElsewhere self.old self.new addr (length bytes.now) }
    {
        if self.directory.store(addr as usize, bytes) {
            return Ok(());
        }
        Err(Access)
    }
}
