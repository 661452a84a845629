//! Sums that tell lists of frames, and of what was told, from others: each number counts by its place.

use crate::log::Telling;
use prof_base::ArcKey;
use shadow_stack::{Frame, Kind};

/// A sum with one number more.
fn sum_of(sum: u64, number: u64) -> u64 {
    sum.wrapping_mul(31).wrapping_add(number)
}

fn sum_of_arc(sum: u64, arc: &ArcKey) -> u64 {
    let mut sum = sum;
    for number in [arc.caller.0, arc.file.0, arc.line, arc.callee.0] {
        sum = sum_of(sum, u64::from(number));
    }
    sum
}

fn sum_of_entry(sum: u64, from: Option<ArcKey>) -> u64 {
    match from {
        Some(arc) => sum_of_arc(sum, &arc),
        None => sum,
    }
}

/// The numbers of a kind.
fn numbers_of(kind: Kind) -> [u32; 3] {
    match kind {
        Kind::Root => [1, 0, 0],
        Kind::Jump => [2, 0, 0],
        Kind::Call(ret, sp) => [3, ret, sp],
    }
}

/// A sum with a frame: its function, its kind, the instructions at its start, and the arc that entered it.
pub fn sum_of_frame(sum: u64, frame: &Frame) -> u64 {
    let mut sum = sum_of(sum, u64::from(frame.func.0));
    for number in numbers_of(frame.kind) {
        sum = sum_of(sum, u64::from(number));
    }
    sum_of_entry(sum_of(sum, frame.start.n[0]), frame.from)
}

/// A sum with what was told: 1 for an arc that was pushed, and what a closed one has cost with 2 more.
pub fn sum_of_tellings(sum: u64, told: &[Telling]) -> u64 {
    let mut sum = sum;
    for told in told {
        sum = match told {
            Telling::Pushed(arc) => sum_of(sum_of_arc(sum, arc), 1),
            Telling::Closed(arc, cost) => sum_of(sum_of_arc(sum, arc), cost.wrapping_add(2)),
        };
    }
    sum
}
