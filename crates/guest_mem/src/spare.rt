//! Pages that are no longer mapped, for the next ones that are.

ghost use Rattle.std.specs.Prelude.{◌≡◌, ◌<◌, IfOk};
ghost use Rattle.guest_mem.specs.inner.Page.{zero_page};

use crate::page::Page;
use std::alloc::{AllocError, Global};

/// How many pages are spare at most: 1 MiB.
const MOST_PAGES: usize = 256;

/// The pages that were taken away last. They are mapped again before memory is asked for, the last one first: an
/// allocator may hand out what was given back longest ago, and then a guest that maps and unmaps a page again and
/// again would go through all memory that it ever had.
#[derive(Debug, Drop)]
pub struct SparePages {
    pages: Vec<Page>,
}

impl SparePages {
    /// No page, and no room for one.
    pub fn new(alloc: Global) -> SparePages {
        SparePages {
            pages: Vec::new(alloc),
        }
    }

    /// Makes room for pages, if there is none.
    pub fn reserve(&mut self) -> Result<(), AllocError> {
        if self.pages.capacity() == 0 {
            self.pages.reserve(MOST_PAGES)?;
        }
        Ok(())
    }

    /// Adds a page where there is room for it. It takes no memory.
    pub fn put(&mut self, page: Page) {
        if self.pages.len() < self.pages.capacity() {
            self.pages.push_reserved(page);
        }
    }

    /// A page of zeros: a spare one, and a new one where there is none.
    pub fn zeroed(&mut self, alloc: Global, permission: u8) -> Result<Page, AllocError>
        requires { permission < 8 }
        ensures { IfOk result (λ page. page ≡ zero_page permission) }
    {
        match self.pages.pop() {
            Some(mut page) => {
                page.clear(permission);
                Ok(page)
            }
            None => Page::zeroed(alloc, permission),
        }
    }
}
