//! A calling context of bounded length.

ghost use Rattle.std.specs.Prelude.{◌≡◌, ◌∷◌, ◌<◌, ◌≤◌, [], take};
ghost use Rattle.std.specs.Str.{bytes_eq};
ghost use Rattle.std.specs.Cmp as cmp;
ghost use Rattle.std.specs.Cmp.Lexicographic.{nat_list_eq_equiv};
ghost use Rattle.contexts.specs.inner.Keys.{digit_at, equal_contexts, few_digits};

use crate::context_ref::ContextRef;
use arc_costs::Digits;
use event_costs::FuncId;
use std::marker::Model;

/// The most functions of a context: one and its callers, of which there are at most 16.
const MOST: usize = 17;

/// A calling context as a key of a fixed size. Contracts see the list of its functions' numbers, the nearest first, of
/// which there are 1 to 17.
#[derive(Clone, Copy, Debug)]
pub struct Context {
    functions: [u32; MOST],
    len: usize,
}

impl Model for Context {
    ghost use Rattle.std.specs.Prelude.{List, ℕ, length, take};
    ghost use Rattle.contexts.specs.inner.Keys.{IsCut, padded, padded_back, taken_length};

    ghost Value = { List ℕ };

    ghost view = { λ c. take c.len c.functions };

    ghost invariant = { λ c. IsCut c.len c.functions };

    ghost inverse = { λ c. record { functions = padded 17 c; len = length c } };

    ghost inverse_ok = { λ c cut. λ i. record {
      functions = padded_back c.len c.functions cut i;
      len = taken_length c.len c.functions cut i;
    } };
}

impl PartialEq for Context {
    ghost eq = { bytes_eq };

    ghost laws = { cmp.partial_equiv_from_equiv nat_list_eq_equiv };

    #[inline(always)]
    fn eq(&self, other: &Self) -> bool {
        self.as_slice() == other.as_slice()
    }
}

impl Eq for Context {
    ghost laws = { nat_list_eq_equiv };
}

/// Two bits of each function in turn, from the lowest on.
impl Digits for Context {
    ghost digit = { digit_at };

    ghost few = { few_digits };

    ghost exact = { equal_contexts };

    #[tactic(auto, unfolding(crate::specs::inner::Keys::digit_at))]
    fn digit(&self, place: usize) -> usize {
        let function = match self.as_slice().get(place % MOST) {
            Some(function) => *function,
            None => 0,
        };
        ((function >> (2 * (place / MOST).min(15))) % 4) as usize
    }
}

impl Context {
    /// The context of a thread's first function.
    pub fn of(func: FuncId) -> Context
        ensures { result ≡ func.0 ∷ [] }
    {
        let mut functions = [0; MOST];
        functions[0] = func.0;
        Context { functions, len: 1 }
    }

    /// The context of a function that is entered from this one, with at most so many functions.
    pub fn entering(&self, func: FuncId, most: usize) -> Context
        requires some { 0 < most }
        requires few { most ≤ 17 }
        ensures { result ≡ take most (func.0 ∷ self.now) }
    {
        let beneath = self.as_slice();
        let mut functions = [0; MOST];
        functions[0] = func.0;
        let len = (beneath.len() + 1).min(most);
        'places: for place in 1..len {
            functions[place] = beneath[place - 1];
        }
        Context { functions, len }
    }

    #[inline(always)]
    fn as_slice(&self) -> &[u32]
        ensures { result.now ≡ self.now }
    {
        &self.functions[..self.len]
    }

    /// It, kept here.
    pub fn as_ref(&self) -> ContextRef<'_>
        ensures { result ≡ self.now }
    {
        ContextRef::new(self.as_slice())
    }
}
