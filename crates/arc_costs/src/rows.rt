//! The rows of a profile's part.

ghost use Rattle.std.specs.Prelude.{◌≡◌};

use event_costs::{ArcKey, ContextNo, Cost, FuncId, Number, Place};
use std::alloc::AllocError;
use std::marker::Model;

/// The cost of a place.
#[derive(Copy, Debug)]
pub struct LineRow<N: Number = FuncId> {
    pub place: Place<N>,
    pub cost: Cost,
}

impl<N: Number> Model for LineRow<N> {
    ghost use Rattle.arc_costs.specs.Rows.{LineRow};

    ghost Value = { LineRow };

    ghost view = { λ r. record { place = r.place; cost = r.cost } };

    ghost inverse = { λ v. record { place = v.place; cost = v.cost } };
}

impl<N: Number> Clone for LineRow<N> {
    ghost is_clone = { λ row copy. copy ≡ row };

    fn clone(&self) -> Result<LineRow<N>, AllocError> {
        Ok(*self)
    }
}

impl<N: Number> LineRow<N> {
    /// The same row, with a number of 64 bits.
    pub fn wide(&self) -> LineRow<ContextNo>
        ensures { result ≡ self.now }
    {
        LineRow {
            place: self.place.wide(),
            cost: self.cost,
        }
    }
}

/// The calls of an arc, and the cost of its frames.
#[derive(Copy, Debug)]
pub struct ArcRow<N: Number = FuncId> {
    pub arc: ArcKey<N>,
    pub calls: u64,
    pub cost: Cost,
}

impl<N: Number> Model for ArcRow<N> {
    ghost use Rattle.arc_costs.specs.Rows.{ArcRow};

    ghost Value = { ArcRow };

    ghost view = { λ r. record { arc = r.arc; calls = r.calls; cost = r.cost } };

    ghost inverse = { λ v. record { arc = v.arc; calls = v.calls; cost = v.cost } };
}

impl<N: Number> Clone for ArcRow<N> {
    ghost is_clone = { λ row copy. copy ≡ row };

    fn clone(&self) -> Result<ArcRow<N>, AllocError> {
        Ok(*self)
    }
}

impl<N: Number> ArcRow<N> {
    /// The same row, with numbers of 64 bits.
    pub fn wide(&self) -> ArcRow<ContextNo>
        ensures { result ≡ self.now }
    {
        ArcRow {
            arc: self.arc.wide(),
            calls: self.calls,
            cost: self.cost,
        }
    }
}

/// Rows of both kinds. Contracts see the two lists.
#[derive(Debug, Drop)]
pub struct TableRows<N: Number = FuncId> {
    pub lines: Vec<LineRow<N>>,
    pub arcs: Vec<ArcRow<N>>,
}

impl<N: Number> Model for TableRows<N> {
    ghost use Rattle.arc_costs.specs.Contents.{Listed};

    ghost Value = { Listed };

    ghost view = { λ r. record { lines = r.lines.items; arcs = r.arcs.items } };
}
