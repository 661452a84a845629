//! The calls between functions.

ghost use Rattle.std.specs.Prelude.{◌≡◌, ◌++◌, ◌<◌, ℕ, All, OnOk, codes, decimal, flat_map, filter, length};
ghost use Rattle.annotate.specs.Calls.{call_line, calls_of, calls_text};
ghost use Rattle.report_rows.specs.Orders.{members};
ghost use Rattle.report_rows.specs.Entries.{EntryValue, AreWithin, entry_values};
ghost use Rattle.report_rows.specs.Lists.{AreCallLists};
ghost use Rattle.annotate.specs.inner.Layout.{AreFunctions, AreNeighbours, IsCalls, IsView};
ghost use Rattle.annotate.specs.inner.Layout.{cost_between, mark_of, neighbour_line, neighbours_text, side_text};

use crate::names::push_costs;
use crate::view::View;
use byte_text::{OutOfMemory, Text};
use report_rows::{End, Entry, Tree, by_place, into_list, sum_of};
use std::alloc::Global;

/// What the lines of calls are made of: the calls of each function and by each function, at the places of the functions
/// at their other ends.
#[derive(Drop)]
pub(crate) struct Calls<'a> {
    pub(crate) view: &'a View<'a>,
    pub(crate) places: &'a [usize],
    pub(crate) callers: Vec<Vec<Entry<'a>>>,
    pub(crate) callees: Vec<Vec<Entry<'a>>>,
}

/// How a line begins of a function that calls, and of one that is called.
fn mark_of(end: End) -> &'static [u8]
    ensures { result.now ≡ mark_of end }
{
    match end {
        End::Caller => b"  > ",
        End::Callee => b"  < ",
    }
}

impl Calls<'_> {
    /// Writes what was counted under calls between two functions, where they aren't in one group.
    fn put_cost(
        &self,
        text: &mut Text,
        function: usize,
        other: usize,
        cost: &[u64],
    ) -> Result<(), OutOfMemory>
        requires view { IsView self.now.view.now }
        requires function { function < length self.now.view.now.profile.now.functions }
        requires other { other < length self.now.view.now.profile.now.functions }
        ensures { OnOk result (text.new ≡ text.old ++ cost_between self.now.view.now function other cost.now) }
    {
        let groups = self.view.groups;
        if groups.group_of(function) == groups.group_of(other) {
            return text.push(b"-");
        }
        push_costs(text, cost)
    }

    /// Writes the calls between a function and another one.
    fn put_call(
        &self,
        alloc: Global,
        text: &mut Text,
        mark: &[u8],
        function: usize,
        other: usize,
        rows: &[Entry<'_>],
    ) -> Result<(), OutOfMemory>
        requires view { IsView self.now.view.now }
        requires function { function < length self.now.view.now.profile.now.functions }
        requires other { other < length self.now.view.now.profile.now.functions }
        requires within { AreWithin (length self.now.view.now.profile.now.events) (entry_values rows.now) }
        ensures { OnOk result (text.new ≡ text.old
            ++ neighbour_line self.now.view.now mark.now function other (entry_values rows.now)) }
    {
        let view = self.view;
        let profile = view.profile;
        let sum = sum_of(alloc, profile.events.len(), rows)?;
        text.push(mark)?;
        text.push_number(sum.calls)?;
        text.push(b" | ")?;
        self.put_cost(text, function, other, &sum.cost)?;
        text.push(b" | ")?;
        view.put_name(text, other)?;
        text.push(b"\n")?;
        Ok(())
    }

    /// Writes the calls between a function and each other one, by the rows at their places.
    fn put_neighbours(
        &self,
        alloc: Global,
        text: &mut Text,
        mark: &[u8],
        function: usize,
        rows: &[Entry<'_>],
    ) -> Result<(), OutOfMemory>
        requires calls { IsCalls self.now }
        requires function { function < length self.now.view.now.profile.now.functions }
        requires rows { AreNeighbours self.now.view.now (entry_values rows.now) }
        ensures { OnOk result (text.new ≡ text.old
            ++ neighbours_text self.now.view.now mark.now function (entry_values rows.now)) }
    {
        let functions = self.view.functions;
        let places = into_list(alloc, by_place(alloc, rows)?)?;
        'places: for (place, rows) in &places {
            let other = functions[*place as usize];
            self.put_call(alloc, text, mark, function, other, rows)?;
        }
        Ok(())
    }

    /// Writes the calls that have a function at this end, where `lists` has those of each function.
    fn put_side(
        &self,
        alloc: Global,
        text: &mut Text,
        end: End,
        function: usize,
        lists: &[Vec<Entry<'_>>],
    ) -> Result<(), OutOfMemory>
        requires calls { IsCalls self.now }
        requires function { function < length self.now.view.now.profile.now.functions }
        requires lists { AreCallLists self.now.view.now.profile.now self.now.places.now end lists.now }
        ensures { OnOk result (text.new ≡ text.old
            ++ side_text self.now.view.now.profile.now self.now.view.now.groups.now
            self.now.view.now.functions.now end function) }
    {
        self.put_neighbours(alloc, text, mark_of(end), function, &lists[function])
    }

    /// Writes a function with the calls that are shown.
    fn put_function(
        &self,
        alloc: Global,
        text: &mut Text,
        tree: Tree,
        function: usize,
    ) -> Result<(), OutOfMemory>
        requires calls { IsCalls self.now }
        requires function { function < length self.now.view.now.profile.now.functions }
        ensures { OnOk result (text.new ≡ text.old
            ++ calls_of self.now.view.now.profile.now self.now.view.now.groups.now
            self.now.view.now.functions.now tree function) }
    {
        if let Tree::Off = tree {
            return Ok(());
        }
        self.view.put_name(text, function)?;
        text.push(b"\n")?;
        match tree {
            Tree::Off => Ok(()),
            Tree::Caller => self.put_side(alloc, text, End::Callee, function, &self.callers),
            Tree::Calling => self.put_side(alloc, text, End::Caller, function, &self.callees),
            Tree::Both => {
                self.put_side(alloc, text, End::Callee, function, &self.callers)?;
                self.put_side(alloc, text, End::Caller, function, &self.callees)
            }
        }
    }

    /// Writes functions with the calls that are shown.
    fn put_members(
        &self,
        alloc: Global,
        text: &mut Text,
        tree: Tree,
        members: &[usize],
    ) -> Result<(), OutOfMemory>
        requires calls { IsCalls self.now }
        requires functions { AreFunctions self.now.view.now.profile.now members.now }
        ensures { OnOk result (text.new ≡ text.old
            ++ flat_map (calls_of self.now.view.now.profile.now self.now.view.now.groups.now
            self.now.view.now.functions.now tree) members.now) }
    {
        'members: for function in members {
            self.put_function(alloc, text, tree, *function)?;
        }
        Ok(())
    }

    /// Writes the functions of the groups that are shown.
    pub(crate) fn put_groups(
        &self,
        alloc: Global,
        text: &mut Text,
        tree: Tree,
        shown: &[usize],
    ) -> Result<(), OutOfMemory>
        requires calls { IsCalls self.now }
        requires groups { All (λ group. group < length self.now.view.now.groups.now.cyclic) shown.now }
        ensures { OnOk result (text.new ≡ text.old
            ++ calls_text self.now.view.now.profile.now self.now.view.now.groups.now
            self.now.view.now.functions.now shown.now tree) }
    {
        if let Tree::Off = tree {
            return Ok(());
        }
        text.push(b"\n-- calls\n")?;
        'groups: for group in shown {
            let view = self.view;
            self.put_members(alloc, text, tree, view.members_of(*group))?;
        }
        Ok(())
    }
}
