//! Functions and groups in the order of the report.

ghost use Rattle.std.specs.Prelude.{◌≡◌, ◌*◌, ◌<◌, ℕ, All, IfOk, [], length, map, replicate, filter, nat_le};
ghost use Rattle.std.specs.Prelude.{IsPermutation};
ghost use Rattle.cg_read.specs.Profiles.{function_at};
ghost use Rattle.cycles.specs.Costs.{IsGroupsOf, group_at};
ghost use Rattle.report_rows.specs.Orders.{IsArranged, key_order, members, numbers};
ghost use Rattle.report_rows.specs.Ranks.{ArePlaces, IsSequence};
ghost use Rattle.report_rows.specs.Ranks.{AreShown, first_place, numbered_function, rank_of};
ghost use Rattle.report_rows.specs.Tables.{AreLists, lists};

use crate::options::ReportOptions;
use byte_text::OutOfMemory;
use cg_read::{CostList, FunctionNumbers, Functions, Profile};
use cycles::Groups;
use std::alloc::Global;
use std::cmp::Reverse;

/// A function by the ranks of its texts, with its number. The order is that of the report.
#[derive(Clone, Copy, Debug, PartialEq, Eq, PartialOrd, Ord)]
struct NumberedFunction {
    file: usize,
    name: usize,
    object: usize,
    number: usize,
}

fn with_numbers(
    alloc: Global,
    ranks: &[FunctionNumbers],
) -> Result<Vec<NumberedFunction>, OutOfMemory>
    ensures { IfOk result (λ all. all.items ≡ map (numbered_function ranks.now) (numbers (length ranks.now))) }
{
    let mut all = Vec::with_capacity(alloc, ranks.len())?;
    'functions: for (number, function) in ranks.iter().enumerate() {
        all.push(NumberedFunction {
            file: function.file,
            name: function.name,
            object: function.object,
            number,
        })?;
    }
    Ok(all)
}

/// The functions by their numbers, in order.
fn functions_in_order(alloc: Global, functions: &Functions) -> Result<Vec<usize>, OutOfMemory>
    ensures { IfOk result (λ order. IsArranged
        (λ f g. key_order (function_at functions.now f) (function_at functions.now g))
        (numbers (length functions.now)) order.items) }
{
    let ranks = functions.ranks(alloc)?;
    let mut sorted = with_numbers(alloc, &ranks)?;
    sorted.sort()?;
    let mut order = Vec::with_capacity(alloc, sorted.len())?;
    'functions: for function in &sorted {
        order.push(function.number)?;
    }
    Ok(order)
}

/// The place of each function in the order.
fn places_of(alloc: Global, order: &[usize]) -> Result<Vec<usize>, OutOfMemory>
    requires { IsPermutation (numbers (length order.now)) order.now }
    ensures { IfOk result (λ places. ArePlaces order.now places.items) }
{
    let mut places = vec![in alloc; 0; order.len()]?;
    'functions: for (place, function) in order.iter().enumerate() {
        places[*function] = place;
    }
    Ok(places)
}

fn empty_lists(alloc: Global, count: usize) -> Result<Vec<Vec<usize>>, OutOfMemory>
    ensures { IfOk result (λ rows. lists rows.items ≡ replicate count []) }
{
    let mut lists = Vec::with_capacity(alloc, count)?;
    'places: for _place in 0..count {
        lists.push(Vec::new(alloc))?;
    }
    Ok(lists)
}

/// The functions of each group, in order.
fn members_of(
    alloc: Global,
    order: &[usize],
    groups: &Groups,
) -> Result<Vec<Vec<usize>>, OutOfMemory>
    requires functions { All (λ f. f < length groups.now.number) order.now }
    requires groups { All (λ f. group_at groups.now f < length groups.now.cyclic) order.now }
    ensures { IfOk result (λ rows. AreLists (length groups.now.cyclic) (members groups.now order.now) rows.items) }
{
    let mut members = empty_lists(alloc, groups.count())?;
    'functions: for function in order {
        members[groups.group_of(*function)].push(*function)?;
    }
    Ok(members)
}

/// All functions in order.
#[derive(Debug, Drop)]
pub struct Sequence {
    pub functions: Vec<usize>,
    /// The place of each function.
    pub places: Vec<usize>,
    /// The functions of each group, in order.
    pub members: Vec<Vec<usize>>,
}

/// The functions of a profile in order.
pub fn ordered(alloc: Global, profile: &Profile, groups: &Groups) -> Result<Sequence, OutOfMemory>
    requires { IsGroupsOf profile.now groups.now }
    ensures { IfOk result (λ order. IsSequence profile.now groups.now order) }
{
    let functions = functions_in_order(alloc, &profile.functions)?;
    let places = places_of(alloc, &functions)?;
    let members = members_of(alloc, &functions, groups)?;
    Ok(Sequence {
        functions,
        places,
        members,
    })
}

/// What a group stands by: its falling cost of an event, and then the place of its least function.
#[derive(Clone, Copy, Debug, PartialEq, Eq, PartialOrd, Ord)]
struct Rank {
    cost: Reverse<u64>,
    least: usize,
    group: usize,
}

/// The place of the first of a group's functions.
fn least_of(members: &[usize], places: &[usize]) -> usize
    requires { All (λ f. f < length places.now) members.now }
    ensures { result ≡ first_place places.now members.now }
{
    match members.first() {
        Some(function) => places[*function],
        None => places.len(),
    }
}

fn ranks(
    alloc: Global,
    costs: &[CostList],
    sort: usize,
    members: &[Vec<usize>],
    places: &[usize],
) -> Result<Vec<Rank>, OutOfMemory>
    requires sort { All (λ cost. sort < length cost) costs.now }
    requires members { length members.now ≡ length costs.now }
    requires places { All (λ fs. All (λ f. f < length places.now) fs) (lists members.now) }
    ensures { IfOk result (λ ranks. ranks.items
        ≡ map (rank_of costs.now sort (lists members.now) places.now) (numbers (length costs.now))) }
{
    let mut ranks = Vec::with_capacity(alloc, costs.len())?;
    'groups: for (group, cost) in costs.iter().enumerate() {
        ranks.push(Rank {
            cost: Reverse(cost.at(sort)),
            least: least_of(&members[group], places),
            group,
        })?;
    }
    Ok(ranks)
}

/// Whether a cost is at least so many percent of a total.
fn is_shown(cost: u64, threshold: u32, total: u64) -> bool
    ensures { result ≡ nat_le (threshold * total) (cost * 100) }
{
    u128::from(threshold) * u128::from(total) <= u128::from(cost) * 100
}

/// The groups that are shown, in order.
pub fn groups_shown(
    alloc: Global,
    costs: &[CostList],
    options: &ReportOptions,
    total: u64,
    members: &[Vec<usize>],
    places: &[usize],
) -> Result<Vec<usize>, OutOfMemory>
    requires sort { All (λ cost. options.now.sort < length cost) costs.now }
    requires members { length members.now ≡ length costs.now }
    requires places { All (λ fs. All (λ f. f < length places.now) fs) (lists members.now) }
    ensures { IfOk result (λ shown. AreShown costs.now options.now total (lists members.now) places.now shown.items) }
{
    let mut ranks = ranks(alloc, costs, options.sort, members, places)?;
    ranks.sort()?;
    let mut shown = Vec::new(alloc);
    'groups: for rank in &ranks {
        if is_shown(rank.cost.0, options.threshold, total) {
            shown.push(rank.group)?;
        }
    }
    Ok(shown)
}
