//! The segments of a program, on their way into memory.

ghost use Rattle.std.specs.Prelude.{◌≡◌, ◌+◌, ◌%◌, ◌^◌, ◌<◌, ◌≤◌, IfOk, slice_range};
ghost use Rattle.std.specs.List.{All};
ghost use Rattle.elf_read.specs.Programs.{IsPlaced};
ghost use Rattle.guest_mem.specs.Memory.{page_limit, memory_of, count_below};
ghost use Rattle.guest_load.specs.Segments.{is_touched, break_of};
ghost use Rattle.guest_load.specs.inner.Stages.{blank_cell, filled_cell};

use crate::pages::{map_table, permissions};
use elf_read::{Elf, Segment};
use guest_mem::{GuestMem, MapError, PAGE_BYTES};
use std::alloc::{AllocError, Global};

/// The segments of a program.
pub fn segments_of(alloc: Global, elf: &Elf<'_>) -> Result<Vec<Segment>, AllocError>
    ensures segments { IfOk result (λ segments. segments.items ≡ elf.now.segments) }
    ensures placed { IfOk result (λ segments. All (IsPlaced elf.now.bytes) segments.items) }
{
    let mut segments = Vec::new(alloc);
    'segments: for i in 0..elf.segment_count() {
        segments.push(elf.segment(i))?;
    }
    Ok(segments)
}

/// The first break: the end of the highest segment, rounded up to a page.
#[tactic(auto, unfolding(crate::specs::Segments::break_of))]
pub fn first_break(segments: &[Segment]) -> u32
    requires low { All (λ s. s.addr + s.mem_len ≤ 0x40000000) segments.now }
    ensures value { result ≡ break_of segments.now }
    ensures aligned { result % 4096 ≡ 0 }
    ensures low { result ≤ 0x40000000 }
    ensures above { All (λ s. s.addr + s.mem_len ≤ result) segments.now }
{
    let mut highest = 0;
    'segments: for segment in segments {
        highest = highest.max(segment.addr + segment.mem_len);
    }
    highest.next_multiple_of(PAGE_BYTES as u32)
}

/// Maps the pages that the segments touch, which end at the break, with the union of the permissions on each.
pub fn map_segments(
    alloc: Global,
    segments: &[Segment],
    first_break: u32,
) -> Result<GuestMem, MapError>
    requires loaded { All (λ s. 0 < s.mem_len) segments.now }
    requires within { All (λ s. s.addr + s.mem_len ≤ first_break) segments.now }
    requires aligned { first_break % 4096 ≡ 0 }
    ensures memory { IfOk result (λ mem. mem ≡ memory_of (blank_cell segments.now)) }
    ensures full { result ≡ Err MapError.Full → page_limit < count_below (is_touched segments.now) (2 ^ 20) }
{
    let table = permissions(alloc, segments, first_break as usize / PAGE_BYTES)?;
    map_table(alloc, &table)
}

/// The bytes that a segment has in the file.
fn file_bytes<'a>(file: &'a [u8], segment: &Segment) -> &'a [u8]
    requires { IsPlaced file.now segment.now }
    ensures { result.now ≡ slice_range file.now segment.now.offset (segment.now.offset + segment.now.file_len) }
{
    let start = segment.offset as usize;
    &file[start..start + segment.file_len as usize]
}

/// Puts the bytes of the segments of this file into their pages. The first segment is the last to be put, so it counts
/// where several have an address.
pub fn put_segments(mem: &mut GuestMem, file: &[u8], segments: &[Segment])
    requires before { mem.old ≡ memory_of (blank_cell segments.now) }
    requires placed { All (IsPlaced file.now) segments.now }
    ensures { mem.new ≡ memory_of (filled_cell file.now segments.now segments.now) }
{
    let mut left = segments.len();
    'segments: while left > 0 {
        left -= 1;
        let segment = &segments[left];
        mem.put_raw(segment.addr, file_bytes(file, segment));
    }
}
