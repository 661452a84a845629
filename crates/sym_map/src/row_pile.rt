//! Rows of the line table, cut into ranges sequence by sequence.

ghost use Rattle.std.specs.Prelude.{◌≡◌, ◌+◌, ◌<◌, ◌≤◌, ◌^◌, ◌++◌, List, IfOk, IfSome, OnOk, length};
ghost use Rattle.std.specs.Prelude.{slice_index_or, slice_range};
ghost use Rattle.dwarf_line.specs.declared.row.Row.{Row as RowValue};
ghost use Rattle.dwarf_line.specs.Rows.{IsPlaced, IsRising, row_address, sequence_in};
ghost use Rattle.sym_map.specs.declared.range.Label.TheVariants as label;
ghost use Rattle.sym_map.specs.declared.range.Span.{Span as SpanValue};
ghost use Rattle.sym_map.specs.inner.Piles.{IsPileOf};
ghost use Rattle.sym_map.specs.inner.Rows.{line_here, line_spans, pile, piles};
ghost use Rattle.sym_map.specs.inner.Spans.{IsCutOf};

use crate::merge::merge;
use crate::pile::Pile;
use crate::range::{Label, LineHere, Range, Span};
use byte_text::OutOfMemory;
use dwarf_line::{Row, Rows, Sequence};
use event_costs::FileId;
use std::alloc::Global;

/// Rows, and the number that each of their files has in the map.
#[derive(Clone, Copy)]
pub(crate) struct Numbered<'a> {
    pub(crate) rows: &'a Rows,
    pub(crate) ids: &'a [u32],
}

impl<'a> Numbered<'a> {
    /// The line of a row.
    fn line(&self, row: Row) -> LineHere
        requires { row.file < length self.now.ids.now }
        ensures { result ≡ line_here self.now.ids.now row }
    {
        LineHere {
            file: FileId(self.ids[row.file as usize]),
            line: row.line,
        }
    }

    /// Lays the rows of a sequence over spans that begin no higher than the first of them.
    fn lay(&self, laid: &mut Pile, sequence: Sequence) -> Result<(), OutOfMemory>
        requires as_many { length self.now.ids.now ≡ length self.now.rows.now.files }
        requires placed { IsPlaced (length self.now.rows.now.rows) sequence }
        requires rises { IsRising row_address (sequence_in self.now.rows.now.rows sequence) }
        requires start { (d : RowValue)
            → (slice_index_or self.now.rows.now.rows sequence.first d).addr < sequence.end
            → laid.old.settled.end ≤ (slice_index_or self.now.rows.now.rows sequence.first d).addr }
        ensures pile { (spans : List SpanValue)
            → IsPileOf spans laid.old.settled.ranges.items laid.old.settled.end laid.old.stack.items
            → OnOk result (IsPileOf (line_spans self.now.ids.now (pile self.now.rows.now.rows sequence) ++ spans)
            laid.new.settled.ranges.items laid.new.settled.end laid.new.stack.items) }
        ensures end { laid.old.settled.end ≤ 2 ^ 32 → OnOk result (laid.new.settled.end ≤ 2 ^ 32) }
    {
        'rows: for i in sequence.first..sequence.last {
            let row = self.rows.row(i);
            laid.lay(&Span {
                start: row.addr,
                end: u64::from(sequence.end),
                label: Label::Line(self.line(row)),
            })?;
        }
        Ok(())
    }

    /// The ranges of one sequence.
    fn one(&self, alloc: Global, number: usize) -> Result<Vec<Range>, OutOfMemory>
        requires as_many { length self.now.ids.now ≡ length self.now.rows.now.files }
        requires within { number < length self.now.rows.now.sequences }
        ensures { IfOk result (λ ranges. IsCutOf (line_spans self.now.ids.now
            (piles self.now.rows.now.rows (slice_range self.now.rows.now.sequences number (number + 1))))
            ranges.items) }
    {
        let mut pile = Pile::new(alloc);
        self.lay(&mut pile, self.rows.sequence(number))?;
        pile.into_ranges()
    }

    /// The ranges of these sequences, where each begins no lower than what is seen of the next ones; otherwise nothing.
    /// It takes one step for each row and each range.
    fn pile_up(
        &self,
        alloc: Global,
        first: usize,
        last: usize,
    ) -> Result<Option<Vec<Range>>, OutOfMemory>
        requires as_many { length self.now.ids.now ≡ length self.now.rows.now.files }
        requires order { first ≤ last }
        requires within { last ≤ length self.now.rows.now.sequences }
        ensures { IfOk result (λ made. IfSome made (λ ranges. IsCutOf (line_spans self.now.ids.now
            (piles self.now.rows.now.rows (slice_range self.now.rows.now.sequences first last)))
            ranges.items)) }
    {
        let mut pile = Pile::new(alloc);
        'sequences: for number in (first..last).rev() {
            let sequence = self.rows.sequence(number);
            let start = self.rows.row(sequence.first).addr;
            if !pile.takes(start, u64::from(sequence.end)) {
                return Ok(None);
            }
            self.lay(&mut pile, sequence)?;
        }
        Ok(Some(pile.into_ranges()?))
    }

    /// Cuts the addresses where the line changes that the sequences from `first` up to `last` give them, of which the
    /// first one counts.
    pub(crate) fn cut(
        &self,
        alloc: Global,
        first: usize,
        last: usize,
    ) -> Result<Vec<Range>, OutOfMemory>
        requires as_many { length self.now.ids.now ≡ length self.now.rows.now.files }
        requires order { first ≤ last }
        requires within { last ≤ length self.now.rows.now.sequences }
        ensures { IfOk result (λ ranges. IsCutOf (line_spans self.now.ids.now
            (piles self.now.rows.now.rows (slice_range self.now.rows.now.sequences first last)))
            ranges.items) }
    {
        match last - first {
            0 => Ok(Vec::new(alloc)),
            1 => self.one(alloc, first),
            len => {
                if let Some(ranges) = self.pile_up(alloc, first, last)? {
                    return Ok(ranges);
                }
                let middle = first + len / 2;
                let above = self.cut(alloc, first, middle)?;
                let below = self.cut(alloc, middle, last)?;
                merge(alloc, &above, &below)
            }
        }
    }
}
