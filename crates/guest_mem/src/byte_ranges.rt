//! Ranges of bytes over the pages of a directory.

ghost use Rattle.std.specs.Prelude.{◌≡◌, ◌+◌, ◌≤◌, ◌<◌, ◌^◌, ◌++◌, ℕ, IsTrue, OnErr, OnOk, length, is_some};
ghost use Rattle.guest_mem.specs.Memory.{prot_write, may, bytes_at, write_at, store_at};
ghost use Rattle.guest_mem.specs.inner.Page.{memory_of_pages};
ghost use Rattle.guest_mem.specs.inner.Directory.{page_at};

use crate::directory::Directory;
use crate::page::{PAGE_BYTES, WRITE};
use std::alloc::AllocError;

/// How many addresses there are.
const ADDRESSES: usize = 0x1_0000_0000;

impl Directory {
    /// Whether each of `len` bytes from `at` on is mapped and allows what is wanted.
    pub fn may(&self, at: usize, len: usize, want: u8) -> bool
        requires { at < 2 ^ 32 }
        ensures { result ≡ may (memory_of_pages (page_at self.now)) want at len }
    {
        if len == 0 {
            return true;
        }
        if len > ADDRESSES - at {
            return false;
        }
        let first = at / PAGE_BYTES;
        let last = (at + len - 1) / PAGE_BYTES;
        self.pages_allow(first, last - first + 1, want)
    }

    /// Puts bytes from `at` on, all of them mapped, whatever their permission.
    pub fn put_bytes(&mut self, at: usize, bytes: &[u8])
        requires { IsTrue (may (memory_of_pages (page_at self.old)) 0 at (length bytes.now)) }
        ensures after { memory_of_pages (page_at self.new) ≡ write_at (memory_of_pages (page_at self.old)) at bytes.now }
        ensures pages { (p : ℕ) → is_some (page_at self.new p) ≡ is_some (page_at self.old p) }
    {
        let mut done = 0;
        while done < bytes.len() {
            let from = at + done;
            let place = from % PAGE_BYTES;
            let end = bytes.len().min(done + (PAGE_BYTES - place));
            self.write(from / PAGE_BYTES, 0, place, &bytes[done..end]);
            done = end;
        }
    }

    /// Appends `len` bytes from `at` on, all of them mapped, to those of `out`.
    pub fn append_bytes(&self, at: usize, len: usize, out: &mut Vec<u8>) -> Result<(), AllocError>
        requires { IsTrue (may (memory_of_pages (page_at self.now)) 0 at len) }
        ensures ok { OnOk result (out.new.items ≡ out.old.items
            ++ bytes_at (memory_of_pages (page_at self.now)) at len) }
        ensures err { OnErr result (0 < len) }
    {
        let mut done = 0;
        while done < len {
            let from = at + done;
            let place = from % PAGE_BYTES;
            let end = len.min(done + (PAGE_BYTES - place));
            match self.page(from / PAGE_BYTES) {
                Some(page) => out.extend_from_slice(page.bytes(place, place + (end - done)))?,
                None => unreachable!(),
            }
            done = end;
        }
        Ok(())
    }

    /// Stores bytes from `at` on, where each may be written, and tells whether it did.
    #[inline(always)]
    pub fn store(&mut self, at: usize, bytes: &[u8]) -> bool
        requires { at < 2 ^ 32 }
        ensures allowed { result ≡ may (memory_of_pages (page_at self.old)) prot_write at (length bytes.now) }
        ensures after { memory_of_pages (page_at self.new) ≡ store_at (memory_of_pages (page_at self.old)) at bytes.now }
        ensures pages { (p : ℕ) → is_some (page_at self.new p) ≡ is_some (page_at self.old p) }
    {
        let place = at % PAGE_BYTES;
        if bytes.is_empty() || bytes.len() > PAGE_BYTES - place {
            return self.store_across(at, bytes);
        }
        self.write(at / PAGE_BYTES, WRITE, place, bytes)
    }

    /// `store` where the bytes lie on several pages, or where there are none.
    #[cold]
    fn store_across(&mut self, at: usize, bytes: &[u8]) -> bool
        requires { at < 2 ^ 32 }
        ensures allowed { result ≡ may (memory_of_pages (page_at self.old)) prot_write at (length bytes.now) }
        ensures after { memory_of_pages (page_at self.new) ≡ store_at (memory_of_pages (page_at self.old)) at bytes.now }
        ensures pages { (p : ℕ) → is_some (page_at self.new p) ≡ is_some (page_at self.old p) }
    {
        if !self.may(at, bytes.len(), WRITE) {
            return false;
        }
        self.put_bytes(at, bytes);
        true
    }
}
