//! Writes the text of a part of many rows.

ghost use Rattle.std.specs.Prelude.{IfOk, All};
ghost use Rattle.cg_format.specs.Part.{AreKnown, IsKnownArc, IsKnownLine};

use crate::map::{BASE, map_of};
use arc_costs::{ArcRow, LineRow, TableRows};
use byte_text::{OutOfMemory, Text};
use cache_lru::Geometry;
use cg_format::{PartHead, Trigger, write_part};
use event_costs::{ArcKey, Cost, ThreadNo};
use std::alloc::{AllocError, Global};
use sym_map::SymMap;

/// How many functions the rows are of, in turn; where the program has fewer, some rows are of no function.
const FUNCTIONS: u32 = 20_000;

/// The cost of a row.
fn cost_of(row: u32) -> Cost {
    let mut cost = Cost::ZERO;
    cost.n[0] = u64::from(row).wrapping_mul(37);
    cost.n[1] = u64::from(row);
    cost.n[3] = u64::from(row % 5);
    cost
}

/// The address of an instruction of the functions, which have four each.
fn address(instruction: u32) -> u32 {
    BASE.wrapping_add((instruction % FUNCTIONS.wrapping_mul(4)).wrapping_mul(4))
}

fn line_rows(alloc: Global, map: &SymMap, count: u32) -> Result<Vec<LineRow>, AllocError>
    ensures { IfOk result (λ rows. All (IsKnownLine map.now) rows.items) }
{
    let mut rows = Vec::new(alloc);
    'rows: for row in 0..count {
        let place = map.place(address(row));
        let cost = cost_of(row);
        rows.push(LineRow { place, cost })?;
    }
    Ok(rows)
}

fn arc_row(map: &SymMap, row: u32) -> ArcRow
    ensures { IsKnownArc map.now result }
{
    let from = map.place(address(row));
    let arc = ArcKey {
        caller: from.func,
        file: from.file,
        line: from.line,
        callee: map.place(address(row.wrapping_mul(28))).func,
    };
    ArcRow {
        arc,
        calls: u64::from(row),
        cost: cost_of(row),
    }
}

fn arc_rows(alloc: Global, map: &SymMap, count: u32) -> Result<Vec<ArcRow>, AllocError>
    ensures { IfOk result (λ rows. All (IsKnownArc map.now) rows.items) }
{
    let mut rows = Vec::new(alloc);
    'rows: for row in 0..count {
        rows.push(arc_row(map, row))?;
    }
    Ok(rows)
}

fn head(alloc: Global) -> Option<PartHead> {
    let first = Geometry::new(32_768, 8, 64)?;
    let last = Geometry::new(8_388_608, 16, 64)?;
    let cmd = Text::from_bytes(alloc, b"many").ok()?;
    let object = cmd.try_clone(alloc).ok()?;
    Some(PartHead {
        thread: ThreadNo(1),
        part: 1,
        cmd,
        object,
        i1: first,
        d1: first,
        ll: last,
        trigger: Trigger::Termination,
        branch: false,
    })
}

/// So many rows, of lines the one half and of arcs the other.
fn rows(alloc: Global, map: &SymMap, count: u32) -> Result<TableRows, AllocError>
    ensures { IfOk result (AreKnown map.now) }
{
    let lines = line_rows(alloc, map, count / 2)?;
    let arcs = arc_rows(alloc, map, count / 2)?;
    Ok(TableRows { lines, arcs })
}

/// The bytes of so many parts, each of so many rows.
fn bytes_of_parts(
    alloc: Global,
    head: &PartHead,
    map: &SymMap,
    count: u32,
    parts: u32,
) -> Result<u64, OutOfMemory> {
    let rows = rows(alloc, map, count)?;
    let mut sum = 0u64;
    for _ in 0..parts {
        let text = write_part(alloc, head, &rows, map)?;
        sum = sum.wrapping_add(text.as_bytes().len() as u64);
    }
    Ok(sum)
}

/// `@FILE ROWS PARTS`: writes so many parts of the program of the file, each of so many rows, of lines the one half and of arcs the other.
pub fn parts(alloc: Global, file: &[u8], numbers: &[u32]) -> Option<u64> {
    let &[count, parts] = numbers else {
        return None;
    };
    let head = head(alloc)?;
    let map = map_of(alloc, file)?;
    bytes_of_parts(alloc, &head, &map, count, parts).ok()
}
