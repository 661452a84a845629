//! The rows of a profile by functions and files, and its totals.

ghost use Rattle.std.specs.Prelude.{◌≡◌, IfOk, length};
ghost use Rattle.cg_read.specs.Totals.{total};
ghost use Rattle.cycles.specs.Limits.{AreAllWithin};
ghost use Rattle.report_rows.specs.Lists.{AreCallLists, AreFileLists, each_event};

use crate::entries::{By, End, Entry, call_entries, lists_of, self_entries};
use crate::sums::sum_of;
use byte_text::OutOfMemory;
use cg_read::Profile;
use std::alloc::Global;

/// The total of each event.
pub fn totals(alloc: Global, profile: &Profile) -> Result<Vec<u64>, OutOfMemory>
    requires { AreAllWithin profile.now }
    ensures { IfOk result (λ totals. totals.items ≡ each_event profile.now (total profile.now)) }
{
    let entries = self_entries(alloc, &profile.self_rows, By::All)?;
    Ok(sum_of(alloc, profile.events.len(), &entries)?.cost)
}

/// The call rows by the functions at one end, at the places of those at the other end.
pub fn call_lists<'a>(
    alloc: Global,
    profile: &'a Profile,
    places: &[usize],
    end: End,
) -> Result<Vec<Vec<Entry<'a>>>, OutOfMemory>
    requires { length places.now ≡ length profile.now.functions }
    ensures { IfOk result (λ rows. AreCallLists profile.now places.now end rows.items) }
{
    let entries = call_entries(alloc, &profile.call_rows, places, end)?;
    let lists = lists_of(alloc, profile.functions.len(), &entries)?;
    Ok(lists)
}

/// The self rows of each file.
pub fn file_lists<'a>(
    alloc: Global,
    profile: &'a Profile,
) -> Result<Vec<Vec<Entry<'a>>>, OutOfMemory>
    ensures { IfOk result (λ rows. AreFileLists profile.now rows.items) }
{
    let entries = self_entries(alloc, &profile.self_rows, By::File)?;
    let lists = lists_of(alloc, profile.files.len(), &entries)?;
    Ok(lists)
}
