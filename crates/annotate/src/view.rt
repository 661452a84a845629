//! What the lines of functions are made of.

use byte_text::Text;
use cg_read::{CostList, Profile};
use cycles::Groups;
use std::alloc::Global;

/// A profile with its groups and their costs, and all functions in order.
#[derive(Drop)]
pub(crate) struct View<'a> {
    pub(crate) alloc: Global,
    pub(crate) profile: &'a Profile,
    pub(crate) groups: &'a Groups,
    pub(crate) costs: &'a [CostList],
    pub(crate) functions: &'a [usize],
    /// The functions of each group, in order.
    pub(crate) members: &'a [Vec<usize>],
    /// What was counted in each function, and in each group, as texts.
    pub(crate) selfs: Vec<Text>,
    pub(crate) group_selfs: Vec<Text>,
}
