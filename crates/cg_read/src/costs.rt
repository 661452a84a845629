//! The costs on a cost line.

ghost use Rattle.std.specs.Prelude.{◌≡◌, ◌≤◌, length, None, [], IfOk, OnOk, IfErr, unwrap_or, vec_len};
ghost use Rattle.cg_lines.specs.Faults.{Refuses};
ghost use Rattle.cg_read.specs.Meaning.{numbers, numbers_fault, padded, values};

use crate::rows::CostList;
use byte_text::OutOfMemory;
use cg_lines::{Fault, Number, Words, number_of};
use std::alloc::Global;

/// Puts the costs on a cost line of a file with this many events to a list.
fn push_costs(items: &mut Vec<u64>, text: &[u8], count: usize) -> Result<(), Fault>
    requires { items.old.items ≡ [] }
    ensures sound { OnOk result (numbers_fault count (numbers text.now) ≡ None) }
    ensures costs { OnOk result (items.new.items ≡ unwrap_or (values (numbers text.now)) []) }
    ensures few { OnOk result (vec_len items.new ≤ count) }
    ensures err { IfErr result (λ e. Refuses e (numbers_fault count (numbers text.now))) }
{
    let mut in_range = true;
    'words: for word in Words::new(text) {
        let Some(number) = number_of(word) else {
            return Err(Fault::BadLine);
        };
        if items.len() == count {
            return Err(Fault::BadLine);
        }
        match number {
            Number::Fits(value) => items.push(value)?,
            Number::TooLarge => {
                in_range = false;
                items.push(0)?;
            }
        }
    }
    if !in_range {
        return Err(Fault::BadNumber);
    }
    Ok(())
}

/// The costs on a cost line of a file with this many events; missing ones are 0.
pub(crate) fn costs_of(alloc: Global, text: &[u8], count: usize) -> Result<CostList, Fault>
    ensures sound { OnOk result (numbers_fault count (numbers text.now) ≡ None) }
    ensures costs { IfOk result (λ costs. costs ≡ padded count (unwrap_or (values (numbers text.now)) [])) }
    ensures err { IfErr result (λ e. Refuses e (numbers_fault count (numbers text.now))) }
{
    let mut items = Vec::with_capacity(alloc, count)?;
    push_costs(&mut items, text, count)?;
    items.resize(count, 0)?;
    Ok(CostList { items })
}

/// A copy of costs, with 0 for those up to this many that are missing.
pub(crate) fn padded_costs(
    alloc: Global,
    costs: &CostList,
    count: usize,
) -> Result<CostList, OutOfMemory>
    requires { length costs.now ≤ count }
    ensures { IfOk result (λ copy. copy ≡ padded count costs.now) }
{
    let mut items = Vec::with_capacity(alloc, count)?;
    items.extend_from_slice(&costs.items)?;
    items.resize(count, 0)?;
    Ok(CostList { items })
}
