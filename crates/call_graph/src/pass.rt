//! One pass over the functions, which numbers the groups.
//!
//! It follows the calls from each function and keeps the path of those that it has not finished. Where it meets a
//! function of the path, all that follows that one on the path is one group with it. This is the path-based form of
//! the search for strongly connected components (Purdom, Munro, Gabow), with what is to be visited in a list of its
//! own: each function enters the path once, and each arc is looked at once.

ghost use Rattle.std.specs.Prelude.{◌≡◌, ◌<◌, ◌≤◌, ◌+◌, All, IfOk, OnOk, length, slice_index, map, None};
ghost use Rattle.call_graph.specs.inner.Rows.{StayWithin, lists};
ghost use Rattle.call_graph.specs.inner.Pass.{CanLook, CanStep, IsClosed, IsCut, IsEntered, IsFinished, IsLater};
ghost use Rattle.call_graph.specs.inner.Pass.{IsRanked, IsShut, KeepsFair, Stands, group_in, ranks, remaining};

use crate::visit_state::{Mark, VisitState};
use std::alloc::{AllocError, Global};

/// Where a pass stands.
#[derive(Drop)]
pub(crate) struct Pass {
    pub(crate) states: Vec<VisitState>,
    /// The functions that are not finished, in the order in which they were met.
    pub(crate) path: Vec<usize>,
    /// Where the groups of the path begin, as far as they are known.
    pub(crate) marks: Vec<Mark>,
    /// The functions that are still to be looked at.
    pub(crate) work: Vec<usize>,
    /// How many groups are finished.
    pub(crate) count: usize,
}

/// Puts a function that was not met yet at the end of the path, with a mark of its own, and what it calls on the list
/// of work.
fn enter(pass: &mut Pass, callees: &[usize], function: usize) -> Result<(), AllocError>
    requires { function < length pass.old.states.items }
    ensures { OnOk result (IsEntered pass.old callees.now function pass.new) }
{
    let start = pass.path.len();
    let height = pass.work.len();
    pass.marks.push(Mark { start, height })?;
    pass.path.push(function)?;
    pass.work.extend_from_slice(callees)?;
    pass.states[function] = VisitState::Open(start);
    Ok(())
}

/// Drops the marks that start above a place of the path, so that all functions from there on are one group.
fn join(marks: &mut Vec<Mark>, place: usize)
    ensures { IsCut marks.old.items (place + 1) marks.new.items }
{
    'marks: while let Some(mark) = marks.last() {
        if mark.start <= place {
            break;
        }
        marks.pop();
    }
}

/// Puts these functions into a group.
fn give(states: &mut [VisitState], functions: &[usize], group: usize)
    requires met { All (λ f. 0 < slice_index (ranks states.old) f) functions.now }
    ensures ranked { IsRanked (ranks states.old) functions.now (length states.old + 1 + group) (ranks states.new) }
    ensures fair { KeepsFair states.old states.new }
{
    'functions: for function in functions {
        states[*function] = VisitState::Closed(group);
    }
}

/// Finishes the last group of the path.
fn close(pass: &mut Pass, start: usize)
    requires start { start ≤ length pass.old.path.items }
    requires met { All (λ f. 0 < slice_index (ranks pass.old.states.items) f) pass.old.path.items }
    requires count { pass.old.count < length pass.old.states.items }
    ensures { IsShut pass.old start pass.new }
{
    give(&mut pass.states, &pass.path[start..], pass.count);
    pass.path.truncate(start);
    pass.marks.pop();
    pass.count += 1;
}

/// Looks at a function that a function of the path calls.
fn look_at(pass: &mut Pass, rows: &[Vec<usize>], function: usize) -> Result<(), AllocError>
    requires { CanLook (lists rows.now) pass.old function }
    ensures later { OnOk result (IsLater (lists rows.now) pass.old pass.new) }
    ensures no_more { OnOk result (remaining (lists rows.now) pass.new ≤ remaining (lists rows.now) pass.old) }
{
    match pass.states[function] {
        VisitState::New => enter(pass, &rows[function], function),
        VisitState::Open(place) => {
            join(&mut pass.marks, place);
            Ok(())
        }
        VisitState::Closed(_) => Ok(()),
    }
}

/// Takes the last function from the list of work, or finishes the last group where nothing of it is left to look at.
fn step(pass: &mut Pass, rows: &[Vec<usize>], mark: Mark) -> Result<(), AllocError>
    requires { CanStep (lists rows.now) pass.old mark }
    ensures later { OnOk result (IsLater (lists rows.now) pass.old pass.new) }
    ensures less { OnOk result (remaining (lists rows.now) pass.new < remaining (lists rows.now) pass.old) }
{
    if pass.work.len() <= mark.height {
        close(pass, mark.start);
        return Ok(());
    }
    match pass.work.pop() {
        Some(function) => look_at(pass, rows, function),
        None => Ok(()),
    }
}

/// Finishes a function and all that it reaches.
fn visit(pass: &mut Pass, rows: &[Vec<usize>], root: usize) -> Result<(), AllocError>
    requires stands { Stands (lists rows.now) None pass.old }
    requires stay { StayWithin (lists rows.now) }
    requires finished { length pass.old.marks.items ≡ 0 }
    requires root { root < length rows.now }
    ensures later { OnOk result (IsLater (lists rows.now) pass.old pass.new) }
    ensures finished { OnOk result (length pass.new.marks.items ≡ 0) }
    ensures met { OnOk result (0 < slice_index (ranks pass.new.states.items) root) }
{
    if let VisitState::New = pass.states[root] {
        enter(pass, &rows[root], root)?;
    }
    'steps: while let Some(mark) = pass.marks.last().copied() {
        step(pass, rows, mark)?;
    }
    Ok(())
}

/// A pass over all functions.
pub(crate) fn pass_over(alloc: Global, rows: &[Vec<usize>]) -> Result<Pass, AllocError>
    requires { StayWithin (lists rows.now) }
    ensures { IfOk result (λ pass. IsFinished (lists rows.now) pass) }
{
    let mut pass = Pass {
        states: vec![in alloc; VisitState::New; rows.len()]?,
        path: Vec::new(alloc),
        marks: Vec::new(alloc),
        work: Vec::new(alloc),
        count: 0,
    };
    'roots: for root in 0..rows.len() {
        visit(&mut pass, rows, root)?;
    }
    Ok(pass)
}

/// The groups of functions that are all finished.
pub(crate) fn groups_met(alloc: Global, states: &[VisitState]) -> Result<Vec<usize>, AllocError>
    requires { All IsClosed states.now }
    ensures { IfOk result (λ numbers. numbers.items ≡ map group_in states.now) }
{
    let mut numbers = Vec::with_capacity(alloc, states.len())?;
    'states: for state in states {
        let VisitState::Closed(group) = state else {
            unreachable!()
        };
        numbers.push(*group)?;
    }
    Ok(numbers)
}
