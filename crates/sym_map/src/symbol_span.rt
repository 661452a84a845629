//! Symbols as spans of addresses.

ghost use Rattle.std.specs.Prelude.{◌≡◌, ◌<◌, ◌+◌, ◌&&◌, ◌↔◌, ℕ, Some, None, false, nat_le};
ghost use Rattle.std.specs.Prelude.{nat_lt, IfOk, OnOk, All, Contains, List, length, map};
ghost use Rattle.std.specs.Option.{option_map_or};
ghost use Rattle.sym_map.specs.inner.Functions.{first_cover, symbol_cover};
ghost use Rattle.sym_map.specs.inner.Limits.{Limit, limit_of, Fall, IsNextValue};
ghost use Rattle.sym_map.specs.inner.Spans.{or_below, cover, label_cover};
ghost use Rattle.sym_map.specs.Symbols.{candidates, covers_sized, covers_unsized, section_of, is_sized};

use crate::candidate::{is_sized, section_of};
use crate::limit::Limits;
use crate::nameless::Nameless;
use crate::range::{Label, Span, SymbolHere};
use byte_text::OutOfMemory;
use elf_read::{Elf, Symbol};
use event_costs::FuncId;
use std::alloc::Global;

/// What a symbol says whose number is that of its function.
fn label_of(placed: &Nameless) -> Label
    ensures { label_cover result ≡ symbol_cover (Some placed.now) }
{
    Label::Symbol(SymbolHere {
        func: FuncId(placed.number),
        value: placed.symbol().value,
    })
}

/// The first address behind the section of a symbol.
pub(crate) fn section_end(elf: &Elf<'_>, symbol: &Symbol) -> u64
    ensures { result ≡ option_map_or (λ section. section.addr + section.size) (section_of elf.now symbol.now) 0 }
{
    match section_of(elf, symbol) {
        Some(section) => u64::from(section.addr) + u64::from(section.size),
        None => 0,
    }
}

/// The first address that a symbol without a size no longer covers, where this is the next value of its section.
fn unsized_end(elf: &Elf<'_>, symbol: &Symbol, next: Option<u32>) -> u64
    requires not_sized { is_sized symbol.now ≡ false }
    ensures { (limits : List Limit)
        → ((limit : Limit) → Contains limits limit ↔ Contains (map limit_of (candidates elf.now)) limit)
        → IsNextValue limits (limit_of symbol.now) next
        → (address : ℕ) → (nat_le symbol.now.value address && nat_lt address result)
        ≡ covers_unsized elf.now address symbol.now }
{
    let end = section_end(elf, symbol);
    match next {
        Some(next) => end.min(u64::from(next)),
        None => end,
    }
}

/// Appends the symbols with a size.
fn push_sized(spans: &mut Vec<Span>, placed: &[Nameless]) -> Result<(), OutOfMemory>
    ensures { OnOk result ((address : ℕ)
        → cover spans.new.items address
        ≡ or_below (cover spans.old.items address) (first_cover (covers_sized address) placed.now)) }
{
    'placed: for one in placed {
        let symbol = one.symbol();
        if is_sized(&symbol) {
            spans.push(Span {
                start: symbol.value,
                end: u64::from(symbol.value) + u64::from(symbol.size),
                label: label_of(one),
            })?;
        }
    }
    Ok(())
}

/// Appends the symbols without a size.
fn push_unsized(
    spans: &mut Vec<Span>,
    alloc: Global,
    elf: &Elf<'_>,
    placed: &[Nameless],
) -> Result<(), OutOfMemory>
    requires fall { Fall (map (λ p. p.symbol) placed.now) }
    requires in_range { All (λ p. p.symbol.section < length elf.now.sections) placed.now }
    requires same { (limit : Limit) → Contains (map (λ p. limit_of p.symbol) placed.now) limit
        ↔ Contains (map limit_of (candidates elf.now)) limit }
    ensures { OnOk result ((address : ℕ)
        → cover spans.new.items address
        ≡ or_below (cover spans.old.items address) (first_cover (covers_unsized elf.now address) placed.now)) }
{
    let mut limits = Limits::new(alloc, elf)?;
    'placed: for one in placed {
        let symbol = one.symbol();
        let next = limits.pass(&symbol);
        if !is_sized(&symbol) {
            spans.push(Span {
                start: symbol.value,
                end: unsized_end(elf, &symbol, next),
                label: label_of(one),
            })?;
        }
    }
    Ok(())
}

/// The symbols as spans, those with a size on top.
pub(crate) fn symbol_spans(
    alloc: Global,
    elf: &Elf<'_>,
    placed: &[Nameless],
) -> Result<Vec<Span>, OutOfMemory>
    requires fall { Fall (map (λ p. p.symbol) placed.now) }
    requires in_range { All (λ p. p.symbol.section < length elf.now.sections) placed.now }
    requires same { (limit : Limit) → Contains (map (λ p. limit_of p.symbol) placed.now) limit
        ↔ Contains (map limit_of (candidates elf.now)) limit }
    ensures { IfOk result (λ spans. (address : ℕ) → cover spans.items address
        ≡ or_below (first_cover (covers_sized address) placed.now)
        (first_cover (covers_unsized elf.now address) placed.now)) }
{
    let mut spans = Vec::with_capacity(alloc, placed.len())?;
    push_sized(&mut spans, placed)?;
    push_unsized(&mut spans, alloc, elf, placed)?;
    Ok(spans)
}
