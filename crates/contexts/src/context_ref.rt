//! Calling contexts that are kept elsewhere.

ghost use Rattle.std.specs.Prelude.{◌≡◌, Some, IfOk};
ghost use Rattle.std.proofs.Common.{refl};
ghost use Rattle.std.specs.Str.{bytes_eq};
ghost use Rattle.std.specs.Ordering.{nat_cmp};
ghost use Rattle.std.specs.Cmp as cmp;
ghost use Rattle.std.specs.Cmp.Lexicographic.{slice_cmp, nat_list_eq_equiv, nat_list_cmp_total, texts_po, texts_ties};
ghost use Rattle.contexts.specs.Contexts.{context_at};
ghost use Rattle.contexts.specs.Contexts.{function_of};
ghost use Rattle.contexts.specs.inner.Ties.{same_contexts};

use crate::func_list::FuncList;
use byte_text::{ExactOrder, OutOfMemory};
use event_costs::{ContextNo, FuncId};
use std::alloc::Global;
use std::cmp::Ordering;
use std::marker::Model;

/// A calling context that is kept elsewhere. Contracts see the list of its functions' numbers, as of a `FuncList`.
#[derive(Debug, Drop)]
pub struct ContextRef<'a> {
    functions: &'a [u32],
}

impl<'a> Model for ContextRef<'a> {
    ghost use Rattle.std.specs.Prelude.{List, ℕ};

    ghost Value = { List ℕ };

    ghost view = { λ c. c.functions.now };
}

impl<'a> ContextRef<'a> {
    /// The context of these functions, the nearest first.
    pub fn new(functions: &'a [u32]) -> ContextRef<'a>
        ensures { result ≡ functions.now }
    {
        ContextRef { functions }
    }

    /// Its functions' numbers.
    pub fn as_slice(&self) -> &'a [u32]
        ensures { result.now ≡ self.now }
    {
        self.functions
    }

    /// The first function, 0 where there is none.
    pub fn first(&self) -> FuncId
        ensures { result ≡ function_of self.now }
    {
        match self.functions.first() {
            Some(func) => FuncId(*func),
            None => FuncId(0),
        }
    }

    /// A list of its own.
    pub fn to_list(&self, alloc: Global) -> Result<FuncList, OutOfMemory>
        ensures { IfOk result (λ list. list ≡ self.now) }
    {
        let mut items = Vec::with_capacity(alloc, self.functions.len())?;
        'functions: for func in self.functions {
            items.push(FuncId(*func))?;
        }
        Ok(FuncList { items })
    }
}

/// The context of this number, one without functions where there is none.
pub fn context_at<'a>(contexts: &[ContextRef<'a>], number: ContextNo) -> ContextRef<'a>
    ensures { result ≡ context_at contexts.now number }
{
    match contexts.get(number.0 as usize) {
        Some(context) => ContextRef::new(context.functions),
        None => ContextRef::new(&[]),
    }
}

impl PartialEq for ContextRef<'_> {
    ghost eq = { bytes_eq };

    ghost laws = { cmp.partial_equiv_from_equiv nat_list_eq_equiv };

    fn eq(&self, other: &Self) -> bool {
        self.as_slice() == other.as_slice()
    }
}

impl Eq for ContextRef<'_> {
    ghost laws = { nat_list_eq_equiv };
}

impl PartialOrd for ContextRef<'_> {
    ghost partial_cmp = { λ x y. Some (slice_cmp nat_cmp x y) };

    ghost laws = { texts_po };

    fn partial_cmp(&self, other: &Self) -> Option<Ordering> {
        Some(self.cmp(other))
    }
}

/// Contexts are in the order of their functions' numbers, and one that another begins with comes before it.
impl Ord for ContextRef<'_> {
    ghost cmp = { slice_cmp nat_cmp };

    ghost total = { nat_list_cmp_total };

    ghost matches_partial_cmp = { λ x y. refl };

    ghost matches_eq = { λ x y. texts_ties x y };

    fn cmp(&self, other: &Self) -> Ordering {
        self.as_slice().cmp(&other.as_slice())
    }
}

impl ExactOrder for ContextRef<'_> {
    ghost exact = { same_contexts };
}
