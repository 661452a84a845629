//! The tables of a thread: its line rows and its arc rows.

ghost use Rattle.std.specs.Prelude.{◌≡◌, ◌↔◌, ℕ, ◌+◌, ◌^◌, ◌<◌, ◌≤◌, [], ◌∷◌, ◌++◌, All};
ghost use Rattle.std.specs.Prelude.{List, IfOk, IsOk, OnOk, OnErr, Some};
ghost use Rattle.std.specs.Prelude.{false, true, filter, map, slice_index, ◌||◌, if◌then◌else◌, IsPermutation};
ghost use Rattle.std.specs.List.Sorted.{IsStrictlySortedBy};
ghost use Rattle.event_costs.specs.Costs.{IsWhole};
ghost use Rattle.event_costs.specs.Keys.{ArcKey as ArcKeyValue, Place as PlaceValue};
ghost use Rattle.arc_costs.specs.Arcs.{ArcsStandFor, add_arc, add_arcs, arc_of, arc_sum, call_of_arc, call_sum};
ghost use Rattle.arc_costs.specs.Arcs.{cleared_arcs, cost_of_arc, has_arc, is_some_arc};
ghost use Rattle.arc_costs.specs.Lines.{LinesStandFor, add_line, add_lines, cleared_lines, has_line, is_some_line};
ghost use Rattle.arc_costs.specs.Lines.{line, line_index, line_sum, place_of};
ghost use Rattle.event_costs.specs.Order.{arc_order, place_order, same_arc, same_place};
ghost use Rattle.arc_costs.specs.Rows.{ArcRow as ArcRowValue, LineRow as LineRowValue};

use crate::amount::Part;
use crate::listing::{arc_rows, line_rows};
use crate::merging::{merge_arcs, merge_lines};
use crate::near_arcs::NearArcs;
use crate::rows::{ArcRow, LineRow, TableRows};
use crate::table::Table;
use crate::total::Total;
use byte_text::OutOfMemory;
use event_costs::{ArcKey, Cost, FuncId, Number, Ones, Place};
use std::alloc::Global;
use std::marker::Model;

/// Line rows and arc rows, summed up by place and by arc. Contracts see both lists in order of first addition, and how
/// many new keys each takes without memory.
#[derive(Drop)]
pub struct Tables<N: Number = FuncId> {
    lines: Table<Place<N>, Cost>,
    arcs: Table<ArcKey<N>, Total>,
    /// Where the rows of arcs are looked for first.
    near: NearArcs,
}

impl<N: Number> Model for Tables<N> {
    ghost use Rattle.std.specs.Prelude.{map};
    ghost use Rattle.arc_costs.specs.Contents.{Contents, arc_row, cost_row};

    ghost Value = { Contents };

    ghost view = { λ t. record {
      lines = map cost_row t.lines.rows;
      arcs = map arc_row t.arcs.rows;
      line_room = t.lines.room;
      arc_room = t.arcs.room;
    } };
}

impl<N: Number> Tables<N> {
    /// Empty tables, with room for one place and one arc. It takes no memory.
    pub fn new(alloc: Global) -> Tables<N>
        ensures lines { result.lines ≡ [] }
        ensures arcs { result.arcs ≡ [] }
        ensures line_room { result.line_room ≡ 1 }
        ensures arc_room { result.arc_room ≡ 1 }
    {
        Tables {
            lines: Table::new(alloc),
            arcs: Table::new(alloc),
            near: NearArcs::NONE,
        }
    }

    /// Whether there is room for one more place and one more arc.
    #[inline(always)]
    pub fn has_room(&self) -> bool
        ensures { result ≡ true ↔ (1 ≤ self.now.line_room) × (1 ≤ self.now.arc_room) }
    {
        self.lines.has_room() && self.arcs.has_room()
    }

    /// Makes room for one more place and one more arc.
    #[inline(always)]
    pub fn reserve(&mut self) -> Result<(), OutOfMemory>
        ensures lines { self.new.lines ≡ self.old.lines }
        ensures arcs { self.new.arcs ≡ self.old.arcs }
        ensures line_room { OnOk result (1 ≤ self.new.line_room) }
        ensures arc_room { OnOk result (1 ≤ self.new.arc_room) }
        ensures line_room_kept { self.old.line_room ≤ self.new.line_room }
        ensures arc_room_kept { self.old.arc_room ≤ self.new.arc_room }
        // With room in both there is nothing to do.
        ensures succeeds { 1 ≤ self.old.line_room → 1 ≤ self.old.arc_room → IsOk result }
    {
        self.lines.reserve()?;
        self.arcs.reserve()
    }

    /// Adds a cost at a place. It takes no memory.
    pub fn add_line(&mut self, place: Place<N>, cost: &Cost)
        requires room { has_line place self.old.lines ≡ false → 1 ≤ self.old.line_room }
        requires fits { (event : ℕ) → line_sum event place self.old.lines + slice_index cost.now event < 2 ^ 64 }
        ensures lines { self.new.lines ≡ add_line self.old.lines (line place cost.now) }
        ensures arcs { self.new.arcs ≡ self.old.arcs }
        ensures line_room { self.new.line_room + (if has_line place self.old.lines then 0 else 1) ≡ self.old.line_room }
        ensures arc_room { self.new.arc_room ≡ self.old.arc_room }
        // No key goes, and this one is there.
        ensures keys { (other : PlaceValue)
            → has_line other self.new.lines ≡ same_place other place || has_line other self.old.lines }
        // The rows stand for one addition more.
        ensures stands { (additions : List LineRowValue) → LinesStandFor self.old.lines additions
            → LinesStandFor self.new.lines (additions ++ line place cost.now ∷ []) }
    {
        self.add_line_near(usize::MAX, place, cost);
    }

    /// Adds a cost at a place, whose row is looked for at this index first: one that stands there costs no hash. The
    /// answer is the index of the place's row. It takes no memory.
    pub fn add_line_near(&mut self, near: usize, place: Place<N>, cost: &Cost) -> usize
        requires room { has_line place self.old.lines ≡ false → 1 ≤ self.old.line_room }
        requires fits { (event : ℕ) → line_sum event place self.old.lines + slice_index cost.now event < 2 ^ 64 }
        ensures lines { self.new.lines ≡ add_line self.old.lines (line place cost.now) }
        ensures arcs { self.new.arcs ≡ self.old.arcs }
        ensures line_room { self.new.line_room + (if has_line place self.old.lines then 0 else 1) ≡ self.old.line_room }
        ensures arc_room { self.new.arc_room ≡ self.old.arc_room }
        // No key goes, and this one is there.
        ensures keys { (other : PlaceValue)
            → has_line other self.new.lines ≡ same_place other place || has_line other self.old.lines }
        // The rows stand for one addition more.
        ensures stands { (additions : List LineRowValue) → LinesStandFor self.old.lines additions
            → LinesStandFor self.new.lines (additions ++ line place cost.now ∷ []) }
        ensures index { line_index place self.new.lines ≡ Some result }
    {
        self.add_line_part(near, place, cost)
    }

    /// What `add_line_near` does, for the cost of one event. It touches only the numbers of the kinds that the event
    /// counts as.
    #[inline(always)]
    pub fn add_line_ones_near(&mut self, near: usize, place: Place<N>, ones: &Ones) -> usize
        requires room { has_line place self.old.lines ≡ false → 1 ≤ self.old.line_room }
        requires fits { (event : ℕ) → line_sum event place self.old.lines + slice_index ones.now event < 2 ^ 64 }
        ensures lines { self.new.lines ≡ add_line self.old.lines (line place ones.now) }
        ensures arcs { self.new.arcs ≡ self.old.arcs }
        ensures line_room { self.new.line_room + (if has_line place self.old.lines then 0 else 1) ≡ self.old.line_room }
        ensures arc_room { self.new.arc_room ≡ self.old.arc_room }
        // No key goes, and this one is there.
        ensures keys { (other : PlaceValue)
            → has_line other self.new.lines ≡ same_place other place || has_line other self.old.lines }
        // The rows stand for one addition more.
        ensures stands { (additions : List LineRowValue) → LinesStandFor self.old.lines additions
            → LinesStandFor self.new.lines (additions ++ line place ones.now ∷ []) }
        ensures index { line_index place self.new.lines ≡ Some result }
    {
        self.add_line_part(near, place, ones)
    }

    /// Adds what stands for a cost at a place, whose row is looked for at this index first.
    #[inline(always)]
    fn add_line_part<C: Part<Cost>>(&mut self, near: usize, place: Place<N>, cost: &C) -> usize
        requires room { has_line place self.old.lines ≡ false → 1 ≤ self.old.line_room }
        requires fits { (event : ℕ) → line_sum event place self.old.lines + slice_index (C.amount cost.now) event
            < 2 ^ 64 }
        ensures lines { self.new.lines ≡ add_line self.old.lines (line place (C.amount cost.now)) }
        ensures arcs { self.new.arcs ≡ self.old.arcs }
        ensures line_room { self.new.line_room + (if has_line place self.old.lines then 0 else 1) ≡ self.old.line_room }
        ensures arc_room { self.new.arc_room ≡ self.old.arc_room }
        // No key goes, and this one is there.
        ensures keys { (other : PlaceValue)
            → has_line other self.new.lines ≡ same_place other place || has_line other self.old.lines }
        // The rows stand for one addition more.
        ensures stands { (additions : List LineRowValue) → LinesStandFor self.old.lines additions
            → LinesStandFor self.new.lines (additions ++ line place (C.amount cost.now) ∷ []) }
        ensures index { line_index place self.new.lines ≡ Some result }
    {
        self.lines.add_near(near, place, cost)
    }

    /// Whether the row of a place is seen at this index, without a search: a new row may stand elsewhere.
    #[inline(always)]
    pub fn is_line_at(&self, index: usize, place: Place<N>) -> bool
        ensures { result ≡ true → line_index place self.now.lines ≡ Some index }
    {
        self.lines.is_at(index, &place)
    }

    /// Adds a cost at an arc. It takes no memory.
    pub fn add_arc(&mut self, arc: &ArcKey<N>, cost: &Cost)
        requires room { has_arc arc.now self.old.arcs ≡ false → 1 ≤ self.old.arc_room }
        requires fits { (event : ℕ) → arc_sum event arc.now self.old.arcs + slice_index cost.now event < 2 ^ 64 }
        ensures arcs { self.new.arcs ≡ add_arc self.old.arcs (cost_of_arc arc.now cost.now) }
        ensures lines { self.new.lines ≡ self.old.lines }
        ensures arc_room { self.new.arc_room + (if has_arc arc.now self.old.arcs then 0 else 1) ≡ self.old.arc_room }
        ensures line_room { self.new.line_room ≡ self.old.line_room }
        ensures keys { (other : ArcKeyValue)
            → has_arc other self.new.arcs ≡ same_arc other arc.now || has_arc other self.old.arcs }
        ensures stands { (additions : List ArcRowValue) → ArcsStandFor self.old.arcs additions
            → ArcsStandFor self.new.arcs (additions ++ cost_of_arc arc.now cost.now ∷ []) }
    {
        let near = self.near.of(arc);
        let row = self.arcs.add_near(near, *arc, &Total::of_cost(cost));
        self.near.remember(arc, row);
    }

    /// Counts a call of an arc. It takes no memory.
    pub fn count_call(&mut self, arc: &ArcKey<N>)
        requires room { has_arc arc.now self.old.arcs ≡ false → 1 ≤ self.old.arc_room }
        requires fits { call_sum arc.now self.old.arcs + 1 < 2 ^ 64 }
        ensures arcs { self.new.arcs ≡ add_arc self.old.arcs (call_of_arc arc.now) }
        ensures lines { self.new.lines ≡ self.old.lines }
        ensures arc_room { self.new.arc_room + (if has_arc arc.now self.old.arcs then 0 else 1) ≡ self.old.arc_room }
        ensures line_room { self.new.line_room ≡ self.old.line_room }
        ensures keys { (other : ArcKeyValue)
            → has_arc other self.new.arcs ≡ same_arc other arc.now || has_arc other self.old.arcs }
        ensures stands { (additions : List ArcRowValue) → ArcsStandFor self.old.arcs additions
            → ArcsStandFor self.new.arcs (additions ++ call_of_arc arc.now ∷ []) }
    {
        let near = self.near.of(arc);
        let row = self.arcs.add_near(near, *arc, &Total::ONE_CALL);
        self.near.remember(arc, row);
    }

    /// The rows that aren't all 0: lines by function, file and line, arcs by caller, file, line and callee.
    pub fn sorted(&self) -> Result<TableRows<N>, OutOfMemory>
        ensures lines { IfOk result (λ rows. IsPermutation (filter is_some_line self.now.lines) rows.lines) }
        ensures arcs { IfOk result (λ rows. IsPermutation (filter is_some_arc self.now.arcs) rows.arcs) }
        // No key comes twice.
        ensures lines_rise { IfOk result (λ rows. IsStrictlySortedBy place_order (map place_of rows.lines)) }
        ensures arcs_rise { IfOk result (λ rows. IsStrictlySortedBy arc_order (map arc_of rows.arcs)) }
        // Each cost has a number for each kind of event.
        ensures whole_lines { IfOk result (λ rows. All (λ row. IsWhole row.cost) rows.lines) }
        ensures whole_arcs { IfOk result (λ rows. All (λ row. IsWhole row.cost) rows.arcs) }
        // The rows stand for what the tables stand for.
        ensures lines_stand { IfOk result (λ rows. (additions : List LineRowValue) → LinesStandFor self.now.lines additions
            → LinesStandFor rows.lines additions) }
        ensures arcs_stand { IfOk result (λ rows. (additions : List ArcRowValue) → ArcsStandFor self.now.arcs additions
            → ArcsStandFor rows.arcs additions) }
    {
        let lines = line_rows(&self.lines.sorted()?)?;
        let arcs = arc_rows(&self.arcs.sorted()?)?;
        Ok(TableRows { lines, arcs })
    }

    /// Makes every row 0. The keys stay.
    pub fn clear(&mut self)
        ensures lines { self.new.lines ≡ cleared_lines self.old.lines }
        ensures arcs { self.new.arcs ≡ cleared_arcs self.old.arcs }
        ensures line_room { self.new.line_room ≡ self.old.line_room }
        ensures arc_room { self.new.arc_room ≡ self.old.arc_room }
        ensures line_keys { (place : PlaceValue) → has_line place self.new.lines ≡ has_line place self.old.lines }
        ensures arc_keys { (arc : ArcKeyValue) → has_arc arc self.new.arcs ≡ has_arc arc self.old.arcs }
        ensures lines_stand { LinesStandFor self.new.lines [] }
        ensures arcs_stand { ArcsStandFor self.new.arcs [] }
    {
        self.lines.clear();
        self.arcs.clear();
    }

    /// Adds rows, one by one in their order. All memory is taken before anything changes.
    pub fn merge(&mut self, other: &TableRows<N>) -> Result<(), OutOfMemory>
        requires line_costs { (event : ℕ) (place : PlaceValue)
            → line_sum event place self.old.lines + line_sum event place other.now.lines < 2 ^ 64 }
        requires arc_costs { (event : ℕ) (arc : ArcKeyValue)
            → arc_sum event arc self.old.arcs + arc_sum event arc other.now.arcs < 2 ^ 64 }
        requires calls { (arc : ArcKeyValue) → call_sum arc self.old.arcs + call_sum arc other.now.arcs < 2 ^ 64 }
        ensures lines { OnOk result (self.new.lines ≡ add_lines self.old.lines other.now.lines) }
        ensures arcs { OnOk result (self.new.arcs ≡ add_arcs self.old.arcs other.now.arcs) }
        ensures err_lines { OnErr result (self.new.lines ≡ self.old.lines) }
        ensures err_arcs { OnErr result (self.new.arcs ≡ self.old.arcs) }
        ensures line_room { self.old.line_room ≤ self.new.line_room }
        ensures arc_room { self.old.arc_room ≤ self.new.arc_room }
        ensures line_keys { OnOk result ((place : PlaceValue) → has_line place self.new.lines
            ≡ has_line place self.old.lines || has_line place other.now.lines) }
        ensures arc_keys { OnOk result ((arc : ArcKeyValue) → has_arc arc self.new.arcs
            ≡ has_arc arc self.old.arcs || has_arc arc other.now.arcs) }
        ensures lines_stand { OnOk result ((additions : List LineRowValue) → LinesStandFor self.old.lines additions
            → LinesStandFor self.new.lines (additions ++ other.now.lines)) }
        ensures arcs_stand { OnOk result ((additions : List ArcRowValue) → ArcsStandFor self.old.arcs additions
            → ArcsStandFor self.new.arcs (additions ++ other.now.arcs)) }
    {
        self.lines.make_room(other.lines.len())?;
        self.arcs.make_room(other.arcs.len())?;
        merge_lines(&mut self.lines, &other.lines);
        merge_arcs(&mut self.arcs, &other.arcs);
        Ok(())
    }
}
