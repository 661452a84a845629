//! Spans of which each begins no lower than the next one, cut one by one from the lowest up.

ghost use Rattle.std.specs.Prelude.{◌≡◌, ◌<◌, ◌≤◌, ◌^◌, ◌∷◌, ℕ, List, true, IfOk, IfSome, OnOk, max};
ghost use Rattle.std.specs.Prelude.{if◌then◌else◌, nat_lt, []};
ghost use Rattle.sym_map.specs.inner.Spans.{or_below, cover, label_cover, IsCutOf};
ghost use Rattle.sym_map.specs.inner.Piles.{stack_cover, takes, IsPileOf, IsSettled};
ghost use Rattle.sym_map.specs.declared.range.Span.{Span as SpanValue};

use crate::range::{Cover, Range, Span};
use byte_text::OutOfMemory;
use event_costs::ADDRESSES;
use std::alloc::Global;

/// What is seen of some spans below an address.
#[derive(Drop)]
struct Settled {
    ranges: Vec<Range>,
    end: u64,
}

impl Settled {
    /// Adds what is seen from the end on up to another one, if that is higher. Nothing is kept in front of the first
    /// that is seen.
    fn extend(&mut self, here: Cover, end: u64) -> Result<(), OutOfMemory>
        requires { end ≤ 2 ^ 32 }
        ensures settled { (spans : List SpanValue) → IsSettled spans self.old.ranges.items self.old.end
            → ((address : ℕ) → self.old.end ≤ address → address < end → cover spans address ≡ here)
            → OnOk result (IsSettled spans self.new.ranges.items self.new.end) }
        ensures end { OnOk result (self.new.end ≡ max self.old.end end) }
    {
        if self.end >= end {
            return Ok(());
        }
        let start = self.end as u32;
        self.end = end;
        if here.is_nothing() && self.ranges.is_empty() {
            return Ok(());
        }
        self.ranges.push(Range { start, cover: here })?;
        Ok(())
    }
}

/// Lays a span over others that begin no higher. The topmost of them isn't kept where nothing is seen of it.
fn push_on_top(stack: &mut Vec<Span>, span: Span) -> Result<(), OutOfMemory>
    ensures { (address : ℕ) → OnOk result (stack_cover stack.new.items address
        ≡ if nat_lt address span.end then label_cover span.label else stack_cover stack.old.items address) }
{
    match stack.pop() {
        Some(top) if top.end > span.end => {
            stack.push(top)?;
            stack.push(span)?;
            Ok(())
        }
        _ => {
            stack.push(span)?;
            Ok(())
        }
    }
}

/// Spans that lie over each other.
#[derive(Drop)]
pub(crate) struct Pile {
    /// What is seen below the start of the topmost one.
    settled: Settled,
    /// Those of which something may be seen from there on, the topmost last.
    stack: Vec<Span>,
}

impl Pile {
    /// No span.
    pub(crate) fn new(alloc: Global) -> Pile
        ensures pile { IsPileOf [] result.settled.ranges.items result.settled.end result.stack.items }
        ensures start { result.settled.end ≡ 0 }
    {
        Pile {
            settled: Settled {
                ranges: Vec::new(alloc),
                end: 0,
            },
            stack: Vec::new(alloc),
        }
    }

    /// Whether a span covers nothing, or begins no lower than the topmost one.
    pub(crate) fn takes(&self, start: u32, end: u64) -> bool
        ensures { result ≡ takes self.now.settled.end start end }
    {
        let start = u64::from(start);
        start >= end || self.settled.end <= start
    }

    /// Settles what is seen below an address: behind the end of the topmost span that is what the one below it says.
    fn settle(&mut self, end: u64) -> Result<(), OutOfMemory>
        requires start { self.old.settled.end ≤ end }
        requires end { end ≤ 2 ^ 32 }
        ensures pile { (spans : List SpanValue)
            → IsPileOf spans self.old.settled.ranges.items self.old.settled.end self.old.stack.items
            → OnOk result (IsPileOf spans self.new.settled.ranges.items self.new.settled.end self.new.stack.items) }
        ensures end { OnOk result (self.new.settled.end ≡ end) }
    {
        'stack: while let Some(top) = self.stack.pop() {
            if top.end >= end {
                self.settled.extend(top.label.cover(), end)?;
                self.stack.push(top)?;
                return Ok(());
            }
            self.settled.extend(top.label.cover(), top.end)?;
        }
        self.settled.extend(Cover::Nothing, end)?;
        Ok(())
    }

    /// Lays a span over the others.
    pub(crate) fn lay(&mut self, span: &Span) -> Result<(), OutOfMemory>
        requires { span.now.start < span.now.end → self.old.settled.end ≤ span.now.start }
        ensures pile { (spans : List SpanValue)
            → IsPileOf spans self.old.settled.ranges.items self.old.settled.end self.old.stack.items
            → OnOk result (IsPileOf (span.now ∷ spans)
            self.new.settled.ranges.items self.new.settled.end self.new.stack.items) }
        ensures end { OnOk result (self.new.settled.end ≤ max self.old.settled.end span.now.start) }
        ensures within { self.old.settled.end ≤ 2 ^ 32 → OnOk result (self.new.settled.end ≤ 2 ^ 32) }
    {
        if u64::from(span.start) >= span.end {
            return Ok(());
        }
        self.settle(u64::from(span.start))?;
        push_on_top(&mut self.stack, *span)?;
        Ok(())
    }

    pub(crate) fn into_ranges(self) -> Result<Vec<Range>, OutOfMemory>
        requires { self.settled.end ≤ 2 ^ 32 }
        ensures { (spans : List SpanValue) → IsPileOf spans self.settled.ranges.items self.settled.end self.stack.items
            → IfOk result (λ ranges. IsCutOf spans ranges.items) }
    {
        let mut pile = self;
        pile.settle(ADDRESSES)?;
        Ok(pile.settled.ranges)
    }
}

/// The ranges of spans, where each begins no lower than the next one; otherwise nothing. It takes one step for each
/// span and each range.
pub(crate) fn pile_up(alloc: Global, spans: &[Span]) -> Result<Option<Vec<Range>>, OutOfMemory>
    ensures { IfOk result (λ made. IfSome made (λ ranges. IsCutOf spans.now ranges.items)) }
{
    let mut pile = Pile::new(alloc);
    'spans: for i in (0..spans.len()).rev() {
        if !pile.takes(spans[i].start, spans[i].end) {
            return Ok(None);
        }
        pile.lay(&spans[i])?;
    }
    Ok(Some(pile.into_ranges()?))
}
