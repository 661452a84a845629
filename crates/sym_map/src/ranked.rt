//! Candidates in the order of preference.

ghost use Rattle.std.specs.Prelude.{◌≡◌, ◌<◌, ◌^◌, IfOk, All, length, map};
ghost use Rattle.std.specs.List.Sorted.{IsPermutation, IsSortedBy, IsStableBy, IsStrictlySortedBy};
ghost use Rattle.std.specs.Ordering.{nat_cmp};
ghost use Rattle.std.specs.Cmp.Lexicographic.{slice_cmp};
ghost use Rattle.sym_map.specs.Symbols.{candidates};
ghost use Rattle.sym_map.specs.inner.Naming.{is_preferred, candidates_with_names};
ghost use Rattle.sym_map.specs.inner.Ranking.{by_rank, named_in};

use crate::candidate::{Unranked, compare_symbols, read_candidates};
use crate::nameless::{Nameless, numbered_by};
use byte_text::OutOfMemory;
use elf_read::Elf;
use name_numbers::{Names, Ranks, rank_names};
use std::alloc::Global;
use std::cmp::Ordering;

/// The candidates, the most preferred first, and of equals the one that comes first in the symbol table.
#[derive(Drop)]
pub(crate) struct Preferred<'a> {
    /// Their numbers are the ranks of their names.
    pub(crate) ranked: Vec<Nameless>,
    pub(crate) names: Names<'a>,
}

/// Of two candidates that cover an address, `Less` where the first is preferred. Names are compared by their ranks, so
/// that what they have in common is not gone through at each comparison.
fn compare_ranked(x: &Nameless, y: &Nameless) -> Ordering
    ensures { result ≡ by_rank x.now y.now }
{
    let by_symbol = compare_symbols(&x.symbol(), &y.symbol());
    by_symbol.then(x.number.cmp(&y.number))
}

/// The candidates, in the order of the symbol table.
fn rank_candidates<'a>(alloc: Global, elf: &Elf<'a>) -> Result<Preferred<'a>, OutOfMemory>
    ensures all { IfOk result (λ p. map (named_in p.names) p.ranked.items ≡ candidates_with_names elf.now) }
    ensures values { IfOk result (λ p. All (λ s. s.value < 2 ^ 32) (candidates elf.now)) }
    ensures rise { IfOk result (λ p. IsStrictlySortedBy (slice_cmp nat_cmp) p.names) }
    ensures each { IfOk result (λ p. All (λ r. r.number < length p.names) p.ranked.items) }
    ensures few { IfOk result (λ p. length p.ranked.items < 2 ^ 28) }
{
    let Unranked { candidates, places } = read_candidates(alloc, elf)?;
    let Ranks { names, ranks } = rank_names(alloc, elf.file(), places)?;
    let ranked = numbered_by(candidates, &ranks);
    Ok(Preferred { ranked, names })
}

/// The candidates of a program in the order of preference.
pub(crate) fn sorted_candidates<'a>(
    alloc: Global,
    elf: &Elf<'a>,
) -> Result<Preferred<'a>, OutOfMemory>
    ensures all { IfOk result (λ p. IsPermutation (candidates_with_names elf.now) (map (named_in p.names) p.ranked.items)) }
    ensures sorted { IfOk result (λ p. IsSortedBy is_preferred (map (named_in p.names) p.ranked.items)) }
    ensures stable { IfOk result (λ p.
        IsStableBy is_preferred (candidates_with_names elf.now) (map (named_in p.names) p.ranked.items)) }
    ensures values { IfOk result (λ p. All (λ s. s.value < 2 ^ 32) (candidates elf.now)) }
    ensures each { IfOk result (λ p. All (λ r. r.number < length p.names) p.ranked.items) }
    ensures few { IfOk result (λ p. length p.ranked.items < 2 ^ 28) }
{
    let Preferred { mut ranked, names } = rank_candidates(alloc, elf)?;
    ranked.sort_by(|x, y| compare_ranked(x, y))?;
    Ok(Preferred { ranked, names })
}
