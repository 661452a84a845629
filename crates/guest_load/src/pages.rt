//! The pages of a program, each with the permission that the segments on it give together.

ghost use Rattle.std.specs.Prelude.{◌≡◌, ℕ, ◌+◌, ◌*◌, ◌^◌, ◌<◌, ◌≤◌, None, unwrap_or, length, slice_index_or, IfOk};
ghost use Rattle.std.specs.List.{All};
ghost use Rattle.guest_mem.specs.Memory.{page_limit, memory_of, page_count};
ghost use Rattle.guest_load.specs.inner.Stages.{segment_permission, permission_with, page_plan, IsTable, table_cell};

use elf_read::Segment;
use guest_mem::{EXECUTE, GuestMem, MapError, PAGE_BYTES, READ, WRITE};
use std::alloc::{AllocError, Global};

/// The permission that a segment gives.
fn permission(segment: &Segment) -> u8
    ensures { result ≡ segment_permission segment.now }
{
    let read = if segment.is_readable() { READ } else { 0 };
    let write = if segment.is_writable() { WRITE } else { 0 };
    let execute = if segment.is_executable() { EXECUTE } else { 0 };
    read | write | execute
}

/// Adds the permission of a segment to those of the pages that it touches.
fn permit(table: &mut [Option<u8>], segment: &Segment)
    requires loaded { 0 < segment.now.mem_len }
    requires within { segment.now.addr + segment.now.mem_len ≤ length table.old * 4096 }
    ensures { IsTable table.new (λ page. permission_with segment.now page (slice_index_or table.old page None)) }
{
    let permission = permission(segment);
    let start = segment.addr as usize;
    let end = start + segment.mem_len as usize;
    'pages: for page in start / PAGE_BYTES..end.div_ceil(PAGE_BYTES) {
        table[page] = Some(table[page].unwrap_or(0) | permission);
    }
}

/// The permission of each page below a limit that no segment passes, where a segment touches the page.
pub fn permissions(
    alloc: Global,
    segments: &[Segment],
    pages: usize,
) -> Result<Vec<Option<u8>>, AllocError>
    requires loaded { All (λ s. 0 < s.mem_len) segments.now }
    requires within { All (λ s. s.addr + s.mem_len ≤ pages * 4096) segments.now }
    ensures table { IfOk result (λ table. IsTable table.items (page_plan segments.now)) }
    ensures length { IfOk result (λ table. length table.items ≡ pages) }
{
    let mut table = vec![in alloc; None; pages]?;
    'segments: for segment in segments {
        permit(&mut table, segment);
    }
    Ok(table)
}

/// How many pages from the first one on have the same as it.
fn run_len(pages: &[Option<u8>]) -> usize
    requires { 0 < length pages.now }
    ensures some { 0 < result }
    ensures within { result ≤ length pages.now }
    ensures same { (k : ℕ) → k < result → slice_index_or pages.now k None ≡ slice_index_or pages.now 0 None }
{
    let first = pages[0];
    'pages: for (i, page) in pages.iter().enumerate() {
        if *page != first {
            return i;
        }
    }
    pages.len()
}

/// Maps the pages of a table, each run of pages with one permission at once.
pub fn map_table(alloc: Global, table: &[Option<u8>]) -> Result<GuestMem, MapError>
    requires low { length table.now * 4096 ≤ 2 ^ 32 }
    requires lawful { (page : ℕ) → unwrap_or (slice_index_or table.now page None) 0 < 8 }
    ensures memory { IfOk result (λ mem. mem ≡ memory_of (table_cell table.now)) }
    ensures full { result ≡ Err MapError.Full → page_limit < page_count (memory_of (table_cell table.now)) }
{
    let mut mem = GuestMem::new(alloc);
    let mut page = 0;
    'runs: while page < table.len() {
        let count = run_len(&table[page..]);
        if let Some(permission) = table[page] {
            mem.map((page * PAGE_BYTES) as u32, count as u32, permission)?;
        }
        page += count;
    }
    Ok(mem)
}
