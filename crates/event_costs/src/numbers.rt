//! Numbers that stand for threads, functions, files and calling contexts.

ghost use Rattle.std.specs.Prelude.{◌≡◌, ◌%◌, ◌^◌};
ghost use Rattle.std.proofs.Common.{refl};
ghost use Rattle.event_costs.specs.declared.numbers.FuncId.{FuncId as FuncIdValue};

use std::fmt::Debug;
use std::marker::Model;

/// A guest thread, counted from 1 in order of creation.
#[derive(Clone, Copy, Debug, PartialEq, Eq, PartialOrd, Ord, Hash)]
pub struct ThreadNo(pub u32);

/// A function's number in the symbol map, from 0.
#[derive(Clone, Copy, Debug, PartialEq, Eq, PartialOrd, Ord)]
pub struct FuncId(pub u32);

/// A source file's number in the symbol map, from 0.
#[derive(Clone, Copy, Debug, PartialEq, Eq, PartialOrd, Ord)]
pub struct FileId(pub u32);

/// A calling context's number, from 0. There are more contexts than 32 bits can number. Where a function may stand too,
/// it has its own number. Contracts see both alike.
#[derive(Clone, Copy, Debug, PartialEq, Eq, PartialOrd, Ord)]
pub struct ContextNo(pub u64);

impl Model for ContextNo {
    ghost use Rattle.event_costs.specs.declared.numbers.FuncId.{FuncId};

    ghost Value = { FuncId };

    ghost view = { λ c. record { 0 = c.0 } };

    ghost inverse = { λ v. record { 0 = v.0 } };
}

impl ContextNo {
    /// Its low 32 bits.
    #[inline(always)]
    pub fn low(self) -> u32
        ensures { result ≡ self.0 % 2 ^ 32 }
    {
        (self.0 % (1 << 32)) as u32
    }
}

/// The number of a function or of a calling context.
pub trait Number: Copy + Debug {
    ghost number: { Self → FuncIdValue };

    ghost of_number: { FuncIdValue → Self };

    ghost given_back: { (n : Self) → of_number (number n) ≡ n };

    /// The same number with 64 bits.
    fn wide(self) -> ContextNo
        ensures { result ≡ number self };
}

impl Number for FuncId {
    ghost number = { λ func. func };

    ghost of_number = { λ func. func };

    ghost given_back = { λ func. refl };

    #[inline(always)]
    fn wide(self) -> ContextNo {
        ContextNo(u64::from(self.0))
    }
}

impl Number for ContextNo {
    ghost number = { λ context. context };

    ghost of_number = { λ context. context };

    ghost given_back = { λ context. refl };

    #[inline(always)]
    fn wide(self) -> ContextNo {
        self
    }
}
