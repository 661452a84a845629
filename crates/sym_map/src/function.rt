//! What makes a function.

ghost use Rattle.std.specs.Prelude.{◌≡◌, ◌<◌, ◌^◌, ◌↔◌, IfOk, Contains, length};
ghost use Rattle.std.specs.List.Sorted.{IsStrictlyIncreasing};
ghost use Rattle.event_costs.specs.FuncSet.{numbers};
ghost use Rattle.event_costs.specs.declared.numbers.FuncId.{FuncId as FuncIdValue};
ghost use Rattle.sym_map.specs.SymbolMap.{IsNamed};
ghost use Rattle.sym_map.specs.inner.Functions.{home_at};
ghost use Rattle.sym_map.specs.inner.Rising.{Rise};

use crate::functions::Functions;
use crate::lines::Lines;
use crate::range::cover_at;
use byte_text::{OutOfMemory, TextRef};
use event_costs::{FileId, FuncId};
use std::alloc::Global;

/// A function: the file in which it begins, and its cleaned name.
#[derive(Debug, Drop)]
pub(crate) struct Function<'a> {
    pub(crate) home: FileId,
    pub(crate) name: TextRef<'a>,
}

/// The file in which the line of an address is.
pub(crate) fn home_at(lines: &Lines, address: u32) -> FileId
    requires { Rise lines.now.ranges.items }
    ensures { result ≡ home_at lines.now.ranges.items lines.now.unknown address }
{
    match cover_at(&lines.ranges, address).line() {
        Some(line) => line.file,
        None => lines.unknown,
    }
}

/// The numbers of the functions of a name, in rising order.
pub(crate) fn named_among(
    alloc: Global,
    functions: &Functions,
    name: &[u8],
) -> Result<Vec<FuncId>, OutOfMemory>
    requires { length functions.now < 2 ^ 32 }
    ensures rise { IfOk result (λ found. IsStrictlyIncreasing (numbers found.items)) }
    ensures each { IfOk result (λ found. (func : FuncIdValue)
        → Contains found.items func ↔ IsNamed functions.now name.now func) }
{
    let mut found = Vec::new(alloc);
    'functions: for number in 0..functions.len() {
        if functions.get(number).name.as_bytes() == name {
            found.push(FuncId(number as u32))?;
        }
    }
    Ok(found)
}
