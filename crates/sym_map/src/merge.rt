//! Two lists of ranges as one.

ghost use Rattle.std.specs.Prelude.{◌≡◌, ◌+◌, ◌<◌, ◌≤◌, ℕ, length, take, IfOk};
ghost use Rattle.std.specs.Prelude.{slice_index_or};
ghost use Rattle.sym_map.specs.inner.Ranges.{cover_at};
ghost use Rattle.sym_map.specs.inner.Rising.{Rise};
ghost use Rattle.sym_map.specs.inner.Spans.{IsMergeOf, IsPassed, IsNextStart};
ghost use Rattle.sym_map.specs.declared.range.Range.{Range as RangeValue};

use crate::range::{Cover, Range};
use byte_text::OutOfMemory;
use std::alloc::Global;

/// How many ranges of a list were passed, and what the last of them says.
#[derive(Clone, Copy)]
struct Passed {
    next: usize,
    cover: Cover,
}

impl Passed {
    const NONE: Passed = Passed {
        next: 0,
        cover: Cover::Nothing,
    };

    /// Passes the next range where it begins here.
    fn pass(self, ranges: &[Range], start: u32) -> Passed
        requires rise { Rise ranges.now }
        requires passed { IsPassed ranges.now self.next self.cover start }
        ensures passed { IsPassed ranges.now result.next result.cover (start + 1) }
        ensures here { (address : ℕ) → start ≤ address → cover_at (take result.next ranges.now) address ≡ result.cover }
        ensures before { (address : ℕ) → address < start
            → cover_at (take result.next ranges.now) address ≡ cover_at (take self.next ranges.now) address }
        ensures further { self.next ≤ result.next }
        ensures begins { (d : RangeValue) → self.next < length ranges.now
            → (slice_index_or ranges.now self.next d).start ≡ start → self.next < result.next }
    {
        match ranges.get(self.next) {
            Some(range) if range.start == start => Passed {
                next: self.next + 1,
                cover: range.cover,
            },
            _ => self,
        }
    }
}

/// The least start among the next ranges of two lists.
fn next_start(above: &[Range], above_next: usize, below: &[Range], below_next: usize) -> Option<u32>
    ensures { IsNextStart above.now above_next below.now below_next result }
{
    match (above.get(above_next), below.get(below_next)) {
        (Some(x), Some(y)) => Some(x.start.min(y.start)),
        (Some(x), None) => Some(x.start),
        (None, Some(y)) => Some(y.start),
        (None, None) => None,
    }
}

/// What is seen where the first ranges lie over the second.
pub(crate) fn merge(
    alloc: Global,
    above: &[Range],
    below: &[Range],
) -> Result<Vec<Range>, OutOfMemory>
    requires above { Rise above.now }
    requires below { Rise below.now }
    ensures { IfOk result (λ ranges. IsMergeOf above.now below.now ranges.items) }
{
    let mut merged = Vec::with_capacity(alloc, above.len() + below.len())?;
    let mut top = Passed::NONE;
    let mut bottom = Passed::NONE;
    'ranges: while let Some(start) = next_start(above, top.next, below, bottom.next) {
        top = top.pass(above, start);
        bottom = bottom.pass(below, start);
        merged.push(Range {
            start,
            cover: top.cover.or_below(bottom.cover),
        })?;
    }
    Ok(merged)
}
