//! One page of the guest's memory.

ghost use Rattle.std.specs.Prelude.{◌≡◌, ◌+◌, ◌≤◌, ◌<◌, ◌-◌, length, take, drop, slice_index, IfOk, IsTrue};
ghost use Rattle.guest_mem.specs.Memory.{allows, granted_permission, number_of};
ghost use Rattle.guest_mem.specs.inner.Page.{IsWhole, is_granted, zero_page, written_where, protected_page};

use std::alloc::{AllocError, Global};
use std::marker::Model;

/// The bytes of a page.
pub const PAGE_BYTES: usize = 4096;

/// The permission to read.
pub const READ: u8 = 1;
/// The permission to write.
pub const WRITE: u8 = 2;
/// The permission to execute.
pub const EXECUTE: u8 = 4;

/// The permission with reading added where it has writing.
pub fn granted_permission(permission: u8) -> u8
    requires { permission < 8 }
    ensures value { result ≡ granted_permission permission }
    ensures lawful { IsTrue (is_granted result) }
{
    if permission & WRITE == WRITE {
        return permission | READ;
    }
    permission
}

/// A page: 4,096 bytes with one permission.
#[derive(Debug, Drop)]
pub struct Page {
    permission: u8,
    bytes: Vec<u8>,
}

impl Model for Page {
    ghost use Rattle.std.specs.Prelude.{◌≡◌, IsTrue, length};
    ghost use Rattle.guest_mem.specs.inner.Page.{PageValue, is_granted};

    ghost Value = { PageValue };

    ghost view = { λ p. record { permission = p.permission; bytes = p.bytes.items } };

    ghost invariant = { λ p. IsTrue (is_granted p.permission) × (length p.bytes.items ≡ 4096) };
}

impl Page {
    /// A page of zeros.
    #[tactic(auto, unfolding(crate::specs::inner::Page::zeros))]
    pub fn zeroed(alloc: Global, permission: u8) -> Result<Page, AllocError>
        requires { permission < 8 }
        ensures value { IfOk result (λ page. page ≡ zero_page permission) }
        ensures whole { IfOk result IsWhole }
    {
        let bytes = vec![in alloc; 0u8; PAGE_BYTES]?;
        let permission = granted_permission(permission);
        Ok(Page { permission, bytes })
    }

    /// Makes it a page of zeros.
    #[tactic(auto, unfolding(crate::specs::inner::Page::zeros))]
    pub fn clear(&mut self, permission: u8)
        requires { permission < 8 }
        ensures after { self.new ≡ zero_page permission }
        ensures whole { IsWhole self.new }
    {
        self.bytes.fill(0);
        self.protect(permission);
    }

    /// Whether the page's permission has all bits of `want`.
    #[inline(always)]
    pub fn allows(&self, want: u8) -> bool
        ensures { result ≡ allows want self.now.permission }
    {
        self.permission & want == want
    }

    /// The byte at a place of the page.
    #[inline(always)]
    pub fn byte(&self, place: usize) -> u8
        requires { place < 4096 }
        ensures { result ≡ slice_index self.now.bytes place }
    {
        self.bytes[place]
    }

    /// The two bytes from a place on as a little-endian number.
    #[inline(always)]
    pub fn half(&self, place: usize) -> u16
        requires { place + 2 ≤ 4096 }
        ensures { result ≡ number_of (take 2 (drop place self.now.bytes)) }
    {
        u16::from_le_bytes([self.bytes[place], self.bytes[place + 1]])
    }

    /// The four bytes from a place on as a little-endian number.
    #[inline(always)]
    pub fn word(&self, place: usize) -> u32
        requires { place + 4 ≤ 4096 }
        ensures { result ≡ number_of (take 4 (drop place self.now.bytes)) }
    {
        u32::from_le_bytes([
            self.bytes[place],
            self.bytes[place + 1],
            self.bytes[place + 2],
            self.bytes[place + 3],
        ])
    }

    /// The bytes from a place on, up to another.
    pub fn bytes(&self, place: usize, end: usize) -> &[u8]
        requires order { place ≤ end }
        requires within { end ≤ 4096 }
        ensures { result.now ≡ take (end - place) (drop place self.now.bytes) }
    {
        &self.bytes[place..end]
    }

    /// Puts bytes in place of those from a place on, where the permission has all bits of `want`, and
    /// tells whether it did.
    #[inline(always)]
    pub fn write(&mut self, want: u8, place: usize, bytes: &[u8]) -> bool
        requires { place + length bytes.now ≤ 4096 }
        ensures allowed { result ≡ allows want self.old.permission }
        ensures after { self.new ≡ written_where want place bytes.now self.old }
        ensures whole { IsWhole self.new }
    {
        if self.permission & want != want {
            return false;
        }
        let end = place + bytes.len();
        self.bytes[place..end].copy_from_slice(bytes);
        true
    }

    /// Gives the page another permission.
    pub fn protect(&mut self, permission: u8)
        requires { permission < 8 }
        ensures after { self.new ≡ protected_page permission self.old }
        ensures whole { IsWhole self.new }
    {
        self.permission = granted_permission(permission);
    }
}
