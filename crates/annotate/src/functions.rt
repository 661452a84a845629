//! The groups of functions with their costs.

ghost use Rattle.std.specs.Prelude.{◌≡◌, ◌++◌, ◌<◌, ℕ, All, OnOk, codes, flat_map, length};
ghost use Rattle.call_graph.specs.Groups.{is_member};
ghost use Rattle.annotate.specs.Functions.{cycle_text, function_text, functions_text, group_rest, group_text};
ghost use Rattle.annotate.specs.Functions.{self_and_name};
ghost use Rattle.report_rows.specs.Orders.{members};
ghost use Rattle.annotate.specs.inner.Layout.{AreFunctions, IsView};
ghost use Rattle.report_rows.specs.Tables.{lists};

use crate::names::{push_costs, push_name};
use crate::view::View;
use byte_text::{OutOfMemory, Text};

impl View<'_> {
    /// Writes the name of a function.
    pub(crate) fn put_name(&self, text: &mut Text, function: usize) -> Result<(), OutOfMemory>
        requires { function < length self.now.profile.now.functions }
        ensures { OnOk result (text.new ≡ text.old ++ function_text self.now.profile.now function) }
    {
        let profile = self.profile;
        push_name(self.alloc, text, &profile.functions.at(function))
    }

    /// Writes what was counted in a function, and its name.
    fn put_function(&self, text: &mut Text, function: usize) -> Result<(), OutOfMemory>
        requires view { IsView self.now }
        requires function { function < length self.now.profile.now.functions }
        ensures { OnOk result (text.new ≡ text.old ++ self_and_name self.now.profile.now function) }
    {
        text.push(self.selfs[function].as_bytes())?;
        text.push(b" | ")?;
        self.put_name(text, function)?;
        text.push(b"\n")
    }

    /// Writes the functions of a cycle.
    fn put_members(&self, text: &mut Text, members: &[usize]) -> Result<(), OutOfMemory>
        requires view { IsView self.now }
        requires functions { AreFunctions self.now.profile.now members.now }
        ensures { OnOk result (text.new ≡ text.old
            ++ flat_map (λ f. codes "  - | " ++ self_and_name self.now.profile.now f) members.now) }
    {
        'members: for function in members {
            text.push(b"  - | ")?;
            self.put_function(text, *function)?;
        }
        Ok(())
    }

    /// Writes what was counted in a cycle, its number and its functions.
    fn put_cycle(
        &self,
        text: &mut Text,
        group: usize,
        number: u64,
        members: &[usize],
    ) -> Result<(), OutOfMemory>
        requires view { IsView self.now }
        requires group { group < length self.now.groups.now.cyclic }
        requires functions { AreFunctions self.now.profile.now members.now }
        ensures { OnOk result (text.new ≡ text.old
            ++ cycle_text self.now.profile.now (is_member self.now.groups.now group) number members.now) }
    {
        text.push(self.group_selfs[group].as_bytes())?;
        text.push(b" | <cycle ")?;
        text.push_number(number)?;
        text.push(b">\n")?;
        self.put_members(text, members)
    }

    /// The functions of a group, in order.
    pub(crate) fn members_of(&self, group: usize) -> &[usize]
        requires view { IsView self.now }
        requires group { group < length self.now.groups.now.cyclic }
        ensures members { result.now ≡ members self.now.groups.now self.now.functions.now group }
        ensures functions { AreFunctions self.now.profile.now result.now }
    {
        &self.members[group]
    }

    /// Writes a group behind its cost. A cycle has this number.
    fn put_rest(&self, text: &mut Text, group: usize, number: u64) -> Result<(), OutOfMemory>
        requires view { IsView self.now }
        requires group { group < length self.now.groups.now.cyclic }
        ensures { OnOk result (text.new ≡ text.old
            ++ group_rest self.now.profile.now (is_member self.now.groups.now group) number
            (members self.now.groups.now self.now.functions.now group)) }
    {
        let members = self.members_of(group);
        if members.len() == 1 {
            return self.put_function(text, members[0]);
        }
        self.put_cycle(text, group, number, members)
    }

    /// Writes a group. A cycle has this number.
    fn put_group(&self, text: &mut Text, group: usize, number: u64) -> Result<(), OutOfMemory>
        requires view { IsView self.now }
        requires group { group < length self.now.groups.now.cyclic }
        ensures { OnOk result (text.new ≡ text.old
            ++ group_text self.now.profile.now self.now.groups.now self.now.costs.now
            self.now.functions.now number group) }
    {
        let cost = &self.costs[group];
        push_costs(text, &cost.items)?;
        text.push(b" | ")?;
        self.put_rest(text, group, number)
    }

    /// Writes the groups that are shown.
    pub(crate) fn put_groups(&self, text: &mut Text, shown: &[usize]) -> Result<(), OutOfMemory>
        requires view { IsView self.now }
        requires groups { All (λ group. group < length self.now.groups.now.cyclic) shown.now }
        ensures { OnOk result (text.new ≡ text.old
            ++ functions_text self.now.profile.now self.now.groups.now self.now.costs.now
            self.now.functions.now shown.now) }
    {
        text.push(b"\n-- functions\n")?;
        let mut cycles: u64 = 0;
        'groups: for group in shown {
            self.put_group(text, *group, cycles + 1)?;
            if self.members_of(*group).len() > 1 {
                cycles += 1;
            }
        }
        Ok(())
    }
}
