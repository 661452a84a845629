//! The keys by which costs are counted.

ghost use Rattle.std.specs.Prelude.{◌≡◌, Some};
ghost use Rattle.std.proofs.Common.{refl};
ghost use Rattle.std.specs.Cmp as cmp;
ghost use Rattle.event_costs.specs.Order.{arc_order, place_order, same_arc, same_place};
ghost use Rattle.event_costs.specs.inner.KeyOrder.{arc_equiv, arc_partial, arc_ties, arc_total};
ghost use Rattle.event_costs.specs.inner.KeyOrder.{place_equiv, place_partial, place_ties, place_total};

use crate::numbers::{ContextNo, FileId, FuncId, Number};
use std::alloc::AllocError;
use std::cmp::Ordering;
use std::marker::Model;

/// Where an instruction stands: its function, and the source line it came from. A calling context may stand in place of
/// the function.
#[derive(Copy, Debug)]
pub struct Place<N: Number = FuncId> {
    pub func: N,
    pub file: FileId,
    pub line: u32,
}

impl<N: Number> Model for Place<N> {
    ghost use Rattle.std.proofs.Common.{ap};
    ghost use Rattle.event_costs.specs.Keys.{Place};

    ghost Value = { Place };

    ghost view = { λ p. record { func = N.number p.func; file = p.file; line = p.line } };

    ghost inverse = { λ v. record { func = N.of_number v.func; file = v.file; line = v.line } };

    ghost inverse_ok = { λ p _. ap (λ n. record { func = n; file = p.file; line = p.line }) (N.given_back p.func) };
}

impl<N: Number> Clone for Place<N> {
    ghost is_clone = { λ place copy. copy ≡ place };

    fn clone(&self) -> Result<Place<N>, AllocError> {
        Ok(*self)
    }
}

impl<N: Number> Place<N> {
    /// The same place, with a number of 64 bits.
    #[inline(always)]
    pub fn wide(&self) -> Place<ContextNo>
        ensures { result ≡ self.now }
    {
        Place {
            func: self.func.wide(),
            file: self.file,
            line: self.line,
        }
    }
}

impl<N: Number> PartialEq for Place<N> {
    ghost eq = { same_place };

    ghost laws = { cmp.partial_equiv_from_equiv place_equiv };

    #[inline(always)]
    fn eq(&self, other: &Self) -> bool {
        self.func.wide().0 == other.func.wide().0
            && self.file.0 == other.file.0
            && self.line == other.line
    }
}

impl<N: Number> Eq for Place<N> {
    ghost laws = { place_equiv };
}

impl<N: Number> PartialOrd for Place<N> {
    ghost partial_cmp = { λ x y. Some (place_order x y) };

    ghost laws = { place_partial };

    fn partial_cmp(&self, other: &Self) -> Option<Ordering> {
        Some(self.cmp(other))
    }
}

/// By function, file and line.
impl<N: Number> Ord for Place<N> {
    ghost cmp = { place_order };

    ghost total = { place_total };

    ghost matches_partial_cmp = { λ x y. refl };

    ghost matches_eq = { λ x y. place_ties x y };

    fn cmp(&self, other: &Self) -> Ordering {
        let by_func = self.func.wide().0.cmp(&other.func.wide().0);
        by_func
            .then(self.file.0.cmp(&other.file.0))
            .then(self.line.cmp(&other.line))
    }
}

/// A call arc: the calling function, the file and line of the call, and the called function. Calling contexts may stand
/// in place of the functions.
#[derive(Copy, Debug)]
pub struct ArcKey<N: Number = FuncId> {
    pub caller: N,
    pub file: FileId,
    pub line: u32,
    pub callee: N,
}

impl<N: Number> Model for ArcKey<N> {
    ghost use Rattle.event_costs.specs.Keys.{ArcKey};

    ghost Value = { ArcKey };

    ghost view = { λ a. record {
      caller = N.number a.caller;
      file = a.file;
      line = a.line;
      callee = N.number a.callee;
    } };

    ghost inverse = { λ v. record {
      caller = N.of_number v.caller;
      file = v.file;
      line = v.line;
      callee = N.of_number v.callee;
    } };

    ghost inverse_ok = { λ a _. λ i. record {
      caller = N.given_back a.caller i;
      file = a.file;
      line = a.line;
      callee = N.given_back a.callee i;
    } };
}

impl<N: Number> Clone for ArcKey<N> {
    ghost is_clone = { λ arc copy. copy ≡ arc };

    fn clone(&self) -> Result<ArcKey<N>, AllocError> {
        Ok(*self)
    }
}

impl<N: Number> ArcKey<N> {
    /// The same arc, with numbers of 64 bits.
    #[inline(always)]
    pub fn wide(&self) -> ArcKey<ContextNo>
        ensures { result ≡ self.now }
    {
        ArcKey {
            caller: self.caller.wide(),
            file: self.file,
            line: self.line,
            callee: self.callee.wide(),
        }
    }
}

impl<N: Number> PartialEq for ArcKey<N> {
    ghost eq = { same_arc };

    ghost laws = { cmp.partial_equiv_from_equiv arc_equiv };

    #[inline(always)]
    fn eq(&self, other: &Self) -> bool {
        self.caller.wide().0 == other.caller.wide().0
            && self.file.0 == other.file.0
            && self.line == other.line
            && self.callee.wide().0 == other.callee.wide().0
    }
}

impl<N: Number> Eq for ArcKey<N> {
    ghost laws = { arc_equiv };
}

impl<N: Number> PartialOrd for ArcKey<N> {
    ghost partial_cmp = { λ x y. Some (arc_order x y) };

    ghost laws = { arc_partial };

    fn partial_cmp(&self, other: &Self) -> Option<Ordering> {
        Some(self.cmp(other))
    }
}

/// By caller, file, line and callee.
impl<N: Number> Ord for ArcKey<N> {
    ghost cmp = { arc_order };

    ghost total = { arc_total };

    ghost matches_partial_cmp = { λ x y. refl };

    ghost matches_eq = { λ x y. arc_ties x y };

    fn cmp(&self, other: &Self) -> Ordering {
        let by_caller = self.caller.wide().0.cmp(&other.caller.wide().0);
        let by_callee = self.callee.wide().0.cmp(&other.callee.wide().0);
        by_caller
            .then(self.file.0.cmp(&other.file.0))
            .then(self.line.cmp(&other.line))
            .then(by_callee)
    }
}
