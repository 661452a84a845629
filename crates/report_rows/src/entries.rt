//! Rows by the lists that they belong to.

ghost use Rattle.std.specs.Prelude.{◌≡◌, ◌<◌, ◌++◌, ◌∷◌, ◌==◌, [], ℕ, List, All, IfOk, OnOk, length, map, replicate};
ghost use Rattle.std.specs.Prelude.{filter};
ghost use Rattle.call_graph.specs.Groups.{Grouping};
ghost use Rattle.report_rows.specs.Entries.{AreAtPlaces, HaveValues, EntryValue, call_entry, far_end, has_list, entry_value};
ghost use Rattle.report_rows.specs.Entries.{list_of, near_end, of_list, entry_values, self_entry};
ghost use Rattle.report_rows.specs.Tables.{lists};

use byte_text::OutOfMemory;
use cg_read::{CallRow, CostList, SelfRow};
use cycles::Groups;
use std::alloc::Global;
use std::collections::BTreeMap;

/// A row: the number of its list, its place in the list, how often it says that a function was called, and its cost.
#[derive(Clone, Copy, Debug)]
pub struct Entry<'a> {
    pub list: usize,
    pub at: u64,
    pub calls: u64,
    pub cost: &'a CostList,
}

/// What self rows are listed by.
#[derive(Clone, Copy, Debug)]
pub enum By<'a> {
    All,
    Function,
    Group(&'a Groups),
    File,
}

impl By<'_> {
    /// The list of a row.
    fn list_of(self, row: &SelfRow) -> usize
        requires { has_list self row.now }
        ensures { result ≡ list_of self.entry row.now }
    {
        match self {
            By::All => 0,
            By::Function => row.func,
            By::Group(groups) => groups.group_of(row.func),
            By::File => row.file,
        }
    }
}

/// Self rows, each at its line.
pub fn self_entries<'a>(
    alloc: Global,
    rows: &'a [SelfRow],
    by: By<'_>,
) -> Result<Vec<Entry<'a>>, OutOfMemory>
    requires { All (has_list by) rows.now }
    ensures { IfOk result (λ entries. entry_values entries.items ≡ map (self_entry by.entry) rows.now) }
{
    let mut entries = Vec::with_capacity(alloc, rows.len())?;
    'rows: for row in rows {
        entries.push(Entry {
            list: by.list_of(row),
            at: row.line,
            calls: 0,
            cost: &row.cost,
        })?;
    }
    Ok(entries)
}

/// Which end of a call lists it. The other end is its place.
#[derive(Clone, Copy, Debug)]
pub enum End {
    Caller,
    Callee,
}

impl End {
    /// The function at this end of a call.
    fn near(self, row: &CallRow) -> usize
        ensures { result ≡ near_end self row.now }
    {
        match self {
            End::Caller => row.caller,
            End::Callee => row.callee,
        }
    }

    /// The function at the other end.
    fn far(self, row: &CallRow) -> usize
        ensures { result ≡ far_end self row.now }
    {
        match self {
            End::Caller => row.callee,
            End::Callee => row.caller,
        }
    }
}

/// Call rows, each at the place of the function at the other end.
pub(crate) fn call_entries<'a>(
    alloc: Global,
    rows: &'a [CallRow],
    places: &[usize],
    end: End,
) -> Result<Vec<Entry<'a>>, OutOfMemory>
    requires { All (λ row. far_end end row < length places.now) rows.now }
    ensures { IfOk result (λ entries. entry_values entries.items ≡ map (call_entry places.now end) rows.now) }
{
    let mut entries = Vec::with_capacity(alloc, rows.len())?;
    'rows: for row in rows {
        entries.push(Entry {
            list: end.near(row),
            at: places[end.far(row)] as u64,
            calls: row.calls,
            cost: &row.cost,
        })?;
    }
    Ok(entries)
}

/// So many empty lists.
fn empty_lists<'a>(alloc: Global, count: usize) -> Result<Vec<Vec<Entry<'a>>>, OutOfMemory>
    ensures { IfOk result (λ rows. lists rows.items ≡ replicate count []) }
{
    let mut lists = Vec::with_capacity(alloc, count)?;
    'places: for _place in 0..count {
        lists.push(Vec::new(alloc))?;
    }
    Ok(lists)
}

/// The lists, each with its entries in their order.
pub fn lists_of<'a>(
    alloc: Global,
    count: usize,
    entries: &[Entry<'a>],
) -> Result<Vec<Vec<Entry<'a>>>, OutOfMemory>
    requires { All (λ k. k.list < count) (entry_values entries.now) }
    ensures { IfOk result (λ rows. HaveValues count (λ n. filter (of_list n) (entry_values entries.now)) rows.items) }
{
    let mut lists = empty_lists(alloc, count)?;
    'entries: for entry in entries {
        lists[entry.list].push(*entry)?;
    }
    Ok(lists)
}

/// Adds an entry to those at its place.
fn put_at<'a>(
    alloc: Global,
    places: &mut BTreeMap<u64, Vec<Entry<'a>>>,
    row: Entry<'a>,
) -> Result<(), OutOfMemory>
    ensures { (ks : List EntryValue) → AreAtPlaces ks places.old
        → OnOk result (AreAtPlaces (ks ++ entry_value row.entry ∷ []) places.new) }
{
    match places.get_mut(&row.at) {
        Some(list) => list.push(row)?,
        None => {
            let mut list = Vec::new(alloc);
            list.push(row)?;
            places.insert(row.at, list)?;
        }
    }
    Ok(())
}

/// The entries at each place, in their order.
pub fn by_place<'a>(
    alloc: Global,
    entries: &[Entry<'a>],
) -> Result<BTreeMap<u64, Vec<Entry<'a>>>, OutOfMemory>
    ensures { IfOk result (λ places. AreAtPlaces (entry_values entries.now) places) }
{
    let mut places = BTreeMap::new(alloc);
    'entries: for entry in entries {
        put_at(alloc, &mut places, *entry)?;
    }
    Ok(places)
}

/// The places in order, each with its entries.
pub fn into_list<'a>(
    alloc: Global,
    places: BTreeMap<u64, Vec<Entry<'a>>>,
) -> Result<Vec<(u64, Vec<Entry<'a>>)>, OutOfMemory>
    ensures { IfOk result (λ all. all.items ≡ places.entry.entries) }
{
    let all = places.into_iter().collect(alloc)?;
    Ok(all)
}
