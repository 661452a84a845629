//! Functions by the ranks of their names, and their numbers.

ghost use Rattle.std.specs.Prelude.{◌≡◌, ◌<◌, ◌^◌, ◌↔◌, ◌∷◌, Some, IfOk, All, Contains, length, map, slice_get};
ghost use Rattle.std.specs.List.Sorted.{IsStrictlySortedBy};
ghost use Rattle.name_numbers.specs.Keys.{NumberEach};
ghost use Rattle.sym_map.specs.declared.function.Function.{Function as FunctionValue};
ghost use Rattle.sym_map.specs.FunctionOrder.{by_function};
ghost use Rattle.sym_map.specs.inner.Rising.{Rise};
ghost use Rattle.sym_map.specs.inner.NameKeys.{name_key, function_named};
ghost use Rattle.sym_map.specs.inner.SymbolTable.{unknown_key};

use crate::function::home_at;
use crate::functions::Functions;
use crate::lines::Lines;
use crate::nameless::Nameless;
use crate::ranked::Preferred;
use byte_text::OutOfMemory;
use name_numbers::{RankInFile, number_file_names};
use std::alloc::Global;

/// What makes the candidates' functions, one for each: its file, and the rank of its name.
fn name_keys(
    alloc: Global,
    lines: &Lines,
    ranked: &[Nameless],
) -> Result<Vec<RankInFile>, OutOfMemory>
    requires { Rise lines.now.ranges.items }
    ensures { IfOk result (λ keys. keys.items ≡ map (name_key lines.now.ranges.items lines.now.unknown) ranked.now) }
{
    let mut keys = Vec::with_capacity(alloc, ranked.len())?;
    'ranked: for one in ranked {
        keys.push(RankInFile {
            file: home_at(lines, one.symbol().value).0,
            rank: one.number as usize,
        })?;
    }
    Ok(keys)
}

/// The functions of a program, and those of its candidates by their numbers.
#[derive(Drop)]
pub(crate) struct Numbered {
    /// In rising order.
    pub(crate) functions: Functions,
    pub(crate) numbers: Vec<usize>,
    /// The number of the unknown function.
    pub(crate) unknown: usize,
}

/// The functions of the candidates and the unknown one, each once.
pub(crate) fn number_functions(
    alloc: Global,
    lines: &Lines,
    preferred: &Preferred<'_>,
) -> Result<Numbered, OutOfMemory>
    requires lines_rise { Rise lines.now.ranges.items }
    requires ranks { All (λ r. r.number < length preferred.now.names) preferred.now.ranked.items }
    requires few { length preferred.now.ranked.items < 2 ^ 28 }
    ensures rise { IfOk result (λ n. IsStrictlySortedBy by_function n.functions) }
    ensures same { IfOk result (λ n. (function : FunctionValue) → Contains n.functions function
        ↔ Contains (unknown_key lines.now.unknown ∷ map (function_named preferred.now.names)
        (map (name_key lines.now.ranges.items lines.now.unknown) preferred.now.ranked.items)) function) }
    ensures few { IfOk result (λ n. length n.functions < 2 ^ 32) }
    ensures each { IfOk result (λ n. NumberEach n.functions n.numbers.items
        (map (function_named preferred.now.names)
        (map (name_key lines.now.ranges.items lines.now.unknown) preferred.now.ranked.items))) }
    ensures unknown { IfOk result (λ n. slice_get n.functions n.unknown ≡ Some (unknown_key lines.now.unknown)) }
{
    let keys = name_keys(alloc, lines, &preferred.ranked)?;
    let numbered = number_file_names(alloc, &preferred.names, &keys, lines.unknown.0)?;
    Ok(Numbered {
        functions: Functions {
            names: numbered.names,
        },
        numbers: numbered.numbers,
        unknown: numbered.unknown,
    })
}
