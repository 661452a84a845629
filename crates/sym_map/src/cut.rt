//! Spans that lie over each other, cut into ranges.

ghost use Rattle.std.specs.Prelude.{◌≡◌, ◌∷◌, [], IfOk};
ghost use Rattle.sym_map.specs.inner.Spans.{IsCutOf};

use crate::merge::merge;
use crate::pile::{Pile, pile_up};
use crate::range::{Range, Span};
use byte_text::OutOfMemory;
use std::alloc::Global;

/// The ranges of one span.
fn ranges_of(alloc: Global, span: &Span) -> Result<Vec<Range>, OutOfMemory>
    ensures { IfOk result (λ ranges. IsCutOf (span.now ∷ []) ranges.items) }
{
    let mut pile = Pile::new(alloc);
    pile.lay(span)?;
    pile.into_ranges()
}

/// Cuts the addresses where what is seen changes: where spans overlap, the first of them is seen.
pub(crate) fn cut(alloc: Global, spans: &[Span]) -> Result<Vec<Range>, OutOfMemory>
    ensures { IfOk result (λ ranges. IsCutOf spans.now ranges.items) }
{
    match spans.len() {
        0 => Ok(Vec::new(alloc)),
        1 => ranges_of(alloc, &spans[0]),
        len => {
            if let Some(ranges) = pile_up(alloc, spans)? {
                return Ok(ranges);
            }
            let (top, bottom) = spans.split_at(len / 2);
            let above = cut(alloc, top)?;
            let below = cut(alloc, bottom)?;
            merge(alloc, &above, &below)
        }
    }
}

/// The same of spans that are let go half by half, so that less is held at once.
pub(crate) fn cut_taking(alloc: Global, spans: Vec<Span>) -> Result<Vec<Range>, OutOfMemory>
    ensures { IfOk result (λ ranges. IsCutOf spans.items ranges.items) }
{
    if let Some(ranges) = pile_up(alloc, &spans)? {
        return Ok(ranges);
    }
    let mut top = spans;
    let bottom = top.split_off(top.len() / 2)?;
    top.shrink_to_fit();
    let above = cut(alloc, &top)?;
    drop(top);
    let below = cut(alloc, &bottom)?;
    drop(bottom);
    merge(alloc, &above, &below)
}
