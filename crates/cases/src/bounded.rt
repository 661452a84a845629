//! Tables with a bound of their sums. Additions are values, so that a case is a list of them.

ghost use Rattle.std.specs.Prelude.{◌≡◌, ◌+◌, ◌≤◌, ◌<◌, ◌^◌, ℕ, IfOk, slice_index};
ghost use Rattle.cases.specs.Within.{IsWithin};

use arc_costs::Tables;
use byte_text::OutOfMemory;
use event_costs::{ArcKey, Cost, FileId, FuncId, Place};
use std::alloc::Global;

/// What is added: places and arcs by the numbers of their functions, files and lines, costs by their first two numbers.
#[derive(Clone, Copy)]
pub enum Step {
    Line([u32; 3], [u32; 2]),
    Arc([u32; 4], [u32; 2]),
    Call([u32; 4]),
    Clear,
}

pub fn place_of_numbers(numbers: [u32; 3]) -> Place {
    let [func, file, line] = numbers;
    Place {
        func: FuncId(func),
        file: FileId(file),
        line,
    }
}

pub fn arc(numbers: [u32; 4]) -> ArcKey {
    let [caller, file, line, callee] = numbers;
    ArcKey {
        caller: FuncId(caller),
        file: FileId(file),
        line,
        callee: FuncId(callee),
    }
}

pub fn cost(counts: [u32; 2]) -> Cost
    ensures { (event : ℕ) → slice_index result event < 2 ^ 32 }
{
    let mut cost = Cost::ZERO;
    cost.n[0] = u64::from(counts[0]);
    cost.n[1] = u64::from(counts[1]);
    cost
}

/// Tables, and a bound of all their sums.
#[derive(Drop)]
pub struct Bounded {
    pub tables: Tables,
    pub limit: u64,
}

impl Bounded {
    pub fn new(alloc: Global) -> Bounded
        ensures within { IsWithin result.limit result.tables.lines result.tables.arcs }
        ensures limit { result.limit ≡ 0 }
    {
        Bounded {
            tables: Tables::new(alloc),
            limit: 0,
        }
    }

    fn reserve(&mut self) -> Result<(), OutOfMemory>
        ensures tables { (self.new.tables.lines ≡ self.old.tables.lines)
            × (self.new.tables.arcs ≡ self.old.tables.arcs) }
        ensures limit { self.new.limit ≡ self.old.limit }
        ensures table_room { IfOk result (λ _. (1 ≤ self.new.tables.line_room) × (1 ≤ self.new.tables.arc_room)) }
    {
        self.tables.reserve()
    }

    fn add_line(&mut self, place: Place, cost: &Cost)
        requires small { (event : ℕ) → slice_index cost.now event < 2 ^ 32 }
        requires within { IsWithin self.old.limit self.old.tables.lines self.old.tables.arcs }
        requires limit { self.old.limit < 2 ^ 62 }
        requires table_room { 1 ≤ self.old.tables.line_room }
        ensures within { IsWithin self.new.limit self.new.tables.lines self.new.tables.arcs }
        ensures limit { self.new.limit ≤ self.old.limit + 2 ^ 32 }
    {
        self.tables.add_line(place, cost);
        self.limit += 1 << 32;
    }

    fn add_arc(&mut self, arc: ArcKey, cost: &Cost)
        requires small { (event : ℕ) → slice_index cost.now event < 2 ^ 32 }
        requires within { IsWithin self.old.limit self.old.tables.lines self.old.tables.arcs }
        requires limit { self.old.limit < 2 ^ 62 }
        requires table_room { 1 ≤ self.old.tables.arc_room }
        ensures within { IsWithin self.new.limit self.new.tables.lines self.new.tables.arcs }
        ensures limit { self.new.limit ≤ self.old.limit + 2 ^ 32 }
    {
        self.tables.add_arc(&arc, cost);
        self.limit += 1 << 32;
    }

    fn count_call(&mut self, arc: ArcKey)
        requires within { IsWithin self.old.limit self.old.tables.lines self.old.tables.arcs }
        requires limit { self.old.limit < 2 ^ 62 }
        requires table_room { 1 ≤ self.old.tables.arc_room }
        ensures within { IsWithin self.new.limit self.new.tables.lines self.new.tables.arcs }
        ensures limit { self.new.limit ≤ self.old.limit + 2 ^ 32 }
    {
        self.tables.count_call(&arc);
        self.limit += 1 << 32;
    }

    fn clear(&mut self)
        requires within { IsWithin self.old.limit self.old.tables.lines self.old.tables.arcs }
        requires limit { self.old.limit < 2 ^ 62 }
        ensures within { IsWithin self.new.limit self.new.tables.lines self.new.tables.arcs }
        ensures limit { self.new.limit ≤ self.old.limit + 2 ^ 32 }
    {
        self.tables.clear();
    }

    /// Makes room and adds.
    pub fn take(&mut self, step: &Step) -> Result<(), OutOfMemory>
        requires within { IsWithin self.old.limit self.old.tables.lines self.old.tables.arcs }
        requires limit { self.old.limit < 2 ^ 62 }
        ensures within { IsWithin self.new.limit self.new.tables.lines self.new.tables.arcs }
        ensures limit { self.new.limit ≤ self.old.limit + 2 ^ 32 }
    {
        self.reserve()?;
        match *step {
            Step::Line(at, counts) => self.add_line(place_of_numbers(at), &cost(counts)),
            Step::Arc(at, counts) => self.add_arc(arc(at), &cost(counts)),
            Step::Call(at) => self.count_call(arc(at)),
            Step::Clear => self.clear(),
        }
        Ok(())
    }
}
