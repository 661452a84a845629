//! The symbols that may stand for code.

ghost use Rattle.std.specs.Prelude.{◌≡◌, ◌<◌, ◌^◌, ◌==◌, ◌||◌, IfOk, All, bit_and, length, map, not};
ghost use Rattle.elf_read.specs.Strings.{IsPart};
ghost use Rattle.std.specs.Ordering.{nat_cmp, ordering_then};
ghost use Rattle.sym_map.specs.inner.Naming.{place_of_text};
ghost use Rattle.name_numbers.specs.Texts.{IsInFile};
ghost use Rattle.sym_map.specs.inner.Naming.{nameless};
ghost use Rattle.sym_map.specs.Symbols.{section_of, is_chosen_name, candidates};
ghost use Rattle.sym_map.specs.Symbols.{is_candidate, is_sized, binding_rank};

use crate::nameless::Nameless;
use byte_text::OutOfMemory;
use elf_read::standard::{
    SHF_EXECINSTR, SHN_LORESERVE, SHN_UNDEF, STB_GLOBAL, STB_WEAK, STT_FUNC, STT_NOTYPE,
};
use elf_read::{Elf, Section, Symbol};
use name_numbers::TextPlace;
use std::alloc::Global;
use std::cmp::Ordering;

/// The section of a symbol, where its index names one.
pub(crate) fn section_of(elf: &Elf<'_>, symbol: &Symbol) -> Option<Section>
    ensures { result ≡ section_of elf.now symbol.now }
{
    let index = usize::from(symbol.section);
    if symbol.section == SHN_UNDEF
        || symbol.section >= SHN_LORESERVE
        || index >= elf.section_count()
    {
        return None;
    }
    Some(elf.section_at(index))
}

fn is_executable(section: &Section) -> bool
    ensures { result ≡ not (bit_and section.now.flags 4 == 0) }
{
    section.flags & SHF_EXECINSTR != 0
}

fn may_be_code(symbol: &Symbol) -> bool
    ensures { result ≡ (symbol.now.kind == 2 || symbol.now.kind == 0) }
{
    symbol.kind == STT_FUNC || symbol.kind == STT_NOTYPE
}

/// Whether it isn't a name that an assembler makes for itself.
fn is_chosen_name(name: &[u8]) -> bool
    ensures { result ≡ is_chosen_name name.now }
{
    !name.is_empty() && !name.starts_with(b"$") && !name.starts_with(b".L")
}

fn is_candidate(elf: &Elf<'_>, symbol: &Symbol) -> bool
    requires { IsPart elf.now.bytes symbol.now.name }
    ensures { result ≡ is_candidate elf.now symbol.now }
{
    let in_code = match section_of(elf, symbol) {
        Some(section) => is_executable(&section),
        None => false,
    };
    may_be_code(symbol) && in_code && is_chosen_name(elf.bytes(symbol.name))
}

/// Whether it is a function of a known size.
pub(crate) fn is_sized(symbol: &Symbol) -> bool
    ensures { result ≡ is_sized symbol.now }
{
    symbol.kind == STT_FUNC && symbol.size > 0
}

fn binding_rank(binding: u8) -> u8
    ensures { result ≡ binding_rank binding }
{
    match binding {
        STB_GLOBAL => 0,
        STB_WEAK => 1,
        _ => 2,
    }
}

/// Of two symbols that cover an address, `Less` where the first is preferred whatever the names, and `Equal` where the
/// names decide.
pub(crate) fn compare_symbols(x: &Symbol, y: &Symbol) -> Ordering
    ensures { result ≡ ordering_then (nat_cmp y.now.value x.now.value)
        (nat_cmp (binding_rank x.now.binding) (binding_rank y.now.binding)) }
{
    let by_value = y.value.cmp(&x.value);
    by_value.then(binding_rank(x.binding).cmp(&binding_rank(y.binding)))
}

/// Where the name of a symbol stands.
fn place_of(symbol: &Symbol) -> TextPlace
    ensures { result ≡ place_of_text symbol.now }
{
    TextPlace {
        start: symbol.name.start,
        end: symbol.name.end,
    }
}

/// Candidates in the order of the symbol table, without numbers, and the places of their names.
#[derive(Drop)]
pub(crate) struct Unranked {
    pub(crate) candidates: Vec<Nameless>,
    pub(crate) places: Vec<TextPlace>,
}

/// The candidates of a program. Their names are apart from them, since nothing but their ranks is wanted of these later.
#[tactic(auto, unfolding(crate::specs::Symbols::candidates))]
pub(crate) fn read_candidates(alloc: Global, elf: &Elf<'_>) -> Result<Unranked, OutOfMemory>
    ensures all { IfOk result (λ u. map (λ c. c.symbol) u.candidates.items ≡ map nameless (candidates elf.now)) }
    ensures places { IfOk result (λ u. u.places.items ≡ map place_of_text (candidates elf.now)) }
    ensures values { IfOk result (λ u. All (λ s. s.value < 2 ^ 32) (candidates elf.now)) }
    ensures in_file { IfOk result (λ u. All (IsInFile elf.now.bytes) u.places.items) }
    ensures few { IfOk result (λ u. length u.places.items < 2 ^ 28) }
{
    let mut candidates = Vec::new(alloc);
    let mut places = Vec::new(alloc);
    'symbols: for i in 0..elf.symbol_count() {
        let symbol = elf.symbol(i);
        if is_candidate(elf, &symbol) {
            candidates.push(Nameless::new(&symbol, 0))?;
            places.push(place_of(&symbol))?;
        }
    }
    Ok(Unranked { candidates, places })
}
