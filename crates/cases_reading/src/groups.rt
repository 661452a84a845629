//! The groups of a profile's functions, and what each costs with all that it calls.

ghost use Rattle.std.specs.Prelude.{◌≡◌, length};

use cg_read::{CostList, Profile};
use cycles::{Groups, groups, inclusive};
use script_lines::{Escaped, Numbers};
use std::alloc::{AllocError, Global};
use std::fmt::{Display, Error, Formatter, Write};

/// The names of a group's functions, in alphabetical order.
fn members(
    alloc: Global,
    profile: &Profile,
    groups: &Groups,
    group: usize,
) -> Result<Vec<String>, AllocError>
    requires { length groups.now.number ≡ length profile.now.functions }
{
    let mut names = Vec::new(alloc);
    for number in 0..profile.functions.len() {
        if groups.group_of(number) == group {
            let function = profile.functions.at(number);
            names.push(format!(in alloc; "{}", Escaped(function.name.as_bytes()))?)?;
        }
    }
    names.sort()?;
    Ok(names)
}

/// A group: the names of its functions, a star where it is a cycle, and its costs.
#[derive(Clone, Copy)]
struct Group<'a> {
    names: &'a [String],
    is_cycle: bool,
    cost: &'a CostList,
}

impl Display for Group<'_> {
    fn fmt<W: Write>(&self, f: &mut Formatter<W>) -> std::result::Result<(), Error> {
        let mut space = "";
        for name in self.names {
            write!(f, "{space}{name}")?;
            space = " ";
        }
        let star = if self.is_cycle { " *" } else { "" };
        let cost = self.cost;
        write!(f, "{star}{}", Numbers(&cost.items))
    }
}

/// A line for each group, in alphabetical order.
fn lines_of(
    alloc: Global,
    profile: &Profile,
    groups: &Groups,
    costs: &[CostList],
) -> Result<Vec<String>, AllocError>
    requires all { length groups.now.number ≡ length profile.now.functions }
    requires each { length costs.now ≡ length groups.now.cyclic }
{
    let mut lines = Vec::new(alloc);
    for (group, cost) in costs.iter().enumerate() {
        let names = members(alloc, profile, groups, group)?;
        let is_cycle = groups.is_cycle(group);
        let line = Group {
            names: &names,
            is_cycle,
            cost,
        };
        lines.push(format!(in alloc; "{line}")?)?;
    }
    lines.sort()?;
    Ok(lines)
}

/// Prints the line of each group; or the first sum that is too great.
pub fn print_groups(rt: &HostRuntime, profile: &Profile) -> anyhow::Result<()> {
    let alloc = rt.alloc();
    let groups = groups(alloc, profile)?;
    match inclusive(alloc, profile, &groups) {
        Ok(costs) => {
            for line in &lines_of(alloc, profile, &groups, &costs)? {
                println!(rt; "{line}")?;
            }
        }
        Err(error) => println!(rt; "{error}")?,
    }
    Ok(())
}
