//! Segments that share an address.

ghost use Rattle.std.specs.Prelude.{◌≡◌, ◌+◌, ◌^◌, ◌<◌, ◌≤◌, IsTrue, IfOk, OnOk, length, take};
ghost use Rattle.std.specs.List.{All, position};
ghost use Rattle.std.specs.List.Sorted.{IsNonDecreasingBy};
ghost use Rattle.elf_read.specs.Checks.{Answers};
ghost use Rattle.elf_read.specs.Overlaps.{overlaps, apart_fault, IsApart};

use crate::error::ElfError;
use crate::program::Segment;
use std::alloc::{AllocError, Global};

impl Segment {
    /// The address after its last byte.
    fn end(&self) -> u64
        ensures { result ≡ self.now.addr + self.now.mem_len }
    {
        u64::from(self.addr) + u64::from(self.mem_len)
    }

    /// Whether some address lies in both segments.
    fn overlaps(&self, other: &Segment) -> bool
        ensures { result ≡ overlaps self.now other.now }
    {
        u64::from(self.addr.max(other.addr)) < self.end().min(other.end())
    }
}

/// Whether each segment begins at or after the end of the one in front of it.
fn is_spread(sorted: &[Segment]) -> bool
    requires sorted { IsNonDecreasingBy (λ s. s.addr) sorted.now }
    requires loaded { All (λ s. 0 < s.mem_len) sorted.now }
    ensures apart { IsTrue result → IsApart sorted.now }
    ensures shared { IsApart sorted.now → IsTrue result }
{
    let mut reach = 0;
    'segments: for segment in sorted {
        if u64::from(segment.addr) < reach {
            return false;
        }
        reach = segment.end();
    }
    true
}

/// Whether no two segments share an address.
fn are_apart(alloc: Global, segments: &[Segment]) -> Result<bool, AllocError>
    requires { All (λ s. 0 < s.mem_len) segments.now }
    ensures apart { IfOk result (λ apart. IsTrue apart → IsApart segments.now) }
    ensures shared { IfOk result (λ apart. IsApart segments.now → IsTrue apart) }
{
    let mut sorted = Vec::from_slice(alloc, segments)?;
    sorted.sort_unstable_by_key(|segment| segment.addr);
    Ok(is_spread(&sorted))
}

/// The first segment that shares an address with this one.
fn first_shared(segments: &[Segment], segment: &Segment) -> Option<usize>
    ensures { result ≡ position (overlaps segment.now) segments.now }
{
    segments.iter().position(|other| segment.overlaps(other))
}

/// The number of the first segment that shares an address with one before it, where there is one:
/// by halving, since a front of segments that are apart is apart.
fn first_sharing(alloc: Global, segments: &[Segment]) -> Result<usize, AllocError>
    requires loaded { All (λ s. 0 < s.mem_len) segments.now }
    requires shared { IsApart segments.now → ⊥ }
    ensures below { IfOk result (λ j. j < length segments.now) }
    ensures apart { IfOk result (λ j. IsApart (take j segments.now)) }
    ensures shared { IfOk result (λ j. IsApart (take (j + 1) segments.now) → ⊥) }
{
    let mut apart = 0;
    let mut shared = segments.len();
    'halves: while shared - apart > 1 {
        let middle = apart + (shared - apart) / 2;
        if are_apart(alloc, &segments[..middle])? {
            apart = middle;
        } else {
            shared = middle;
        }
    }
    Ok(apart)
}

/// Refuses segments of which two share an address.
pub fn check_apart(alloc: Global, segments: &[Segment]) -> Result<(), ElfError>
    requires loaded { All (λ s. 0 < s.mem_len) segments.now }
    requires count { length segments.now < 2 ^ 16 }
    ensures fault { Answers result (apart_fault segments.now) }
    ensures apart { OnOk result (IsApart segments.now) }
{
    if are_apart(alloc, segments)? {
        return Ok(());
    }
    let j = first_sharing(alloc, segments)?;
    match first_shared(&segments[..j], &segments[j]) {
        Some(i) => Err(ElfError::Overlap(i as u32, j as u32)),
        None => unreachable!(),
    }
}
