//! Of which parts a program can be made, as a test.

ghost use Rattle.std.specs.Prelude.{◌≡◌, ◌+◌, ◌^◌, ◌<◌, ◌↔◌, ◌&&◌, IsTrue, length, min, map, sum_by, IfOk};
ghost use Rattle.std.specs.List.{All, list_any};
ghost use Rattle.prog_make.specs.declared.span.Span.{Span};
ghost use Rattle.prog_make.specs.Conditions.{CanBeMade, AreFunctionsSound, AreFunctionsApart};
ghost use Rattle.prog_make.specs.inner.Conditions.{AreSegmentsFit, IsPlaced, AreApart, covers};
ghost use Rattle.prog_make.specs.Functions.{holds, is_executable, IsWhole};
ghost use Rattle.prog_make.specs.Names.{HasNoZero, IsName};
ghost use Rattle.prog_make.specs.Parts.{total_len};

use crate::function_part::FunctionPart;
use crate::parts::ElfParts;
use crate::segment_part::SegmentPart;
use crate::span::{Span, are_apart};
use byte_text::{OutOfMemory, Text};
use elf_read::standard::{ADDR_LIMIT, LOWEST_ADDR};
use std::alloc::Global;

/// How many segments there may be.
const MAX_SEGMENTS: usize = 60_000;
/// The bytes of all parts, with 1,024 more for each segment and function, are fewer.
const LEN_LIMIT: u64 = 1 << 31;
/// The bytes that each segment and each function counts beside its own.
const EXTRA_LEN: u64 = 1024;

fn is_placed(segment: &SegmentPart) -> bool
    ensures { IsTrue result ↔ IsPlaced segment.now }
{
    let end = u64::from(segment.addr) + u64::from(segment.mem_len);
    segment.mem_len != 0
        && segment.bytes.len() as u64 <= u64::from(segment.mem_len)
        && segment.addr >= LOWEST_ADDR
        && end <= u64::from(ADDR_LIMIT)
}

fn are_placed(segments: &[SegmentPart]) -> bool
    ensures { IsTrue result ↔ All IsPlaced segments.now }
{
    segments.iter().all(|segment| is_placed(segment))
}

fn has_entry(segments: &[SegmentPart], entry: u32) -> bool
    ensures { result ≡ list_any (λ s. covers entry s && is_executable s) segments.now }
{
    segments.iter().any(|segment| segment.is_code(entry))
}

fn is_in_code(segments: &[SegmentPart], function: &FunctionPart) -> bool
    ensures { result ≡ list_any (holds function.now) segments.now }
{
    segments.iter().any(|segment| segment.holds(function))
}

fn are_in_code(segments: &[SegmentPart], functions: &[FunctionPart]) -> bool
    ensures { IsTrue result ↔ All (λ f. IsTrue (list_any (holds f) segments.now)) functions.now }
{
    functions
        .iter()
        .all(|function| is_in_code(segments, function))
}

fn is_whole(function: &FunctionPart) -> bool
    ensures { IsTrue result ↔ IsWhole function.now }
{
    let last = u64::from(function.first_line) + u64::from(function.size / 4);
    function.addr % 4 == 0
        && function.size % 4 == 0
        && function.size != 0
        && last <= u64::from(u32::MAX)
}

fn are_whole(functions: &[FunctionPart]) -> bool
    ensures { IsTrue result ↔ All IsWhole functions.now }
{
    functions.iter().all(|function| is_whole(function))
}

fn has_no_zero(text: &Text) -> bool
    ensures { IsTrue result ↔ HasNoZero text.now }
{
    text.as_bytes().iter().all(|byte| *byte != 0)
}

fn is_name(name: &Text) -> bool
    ensures { IsTrue result ↔ IsName name.now }
{
    let bytes = name.as_bytes();
    !bytes.is_empty() && !bytes.starts_with(b"$") && !bytes.starts_with(b".L") && has_no_zero(name)
}

fn are_named(functions: &[FunctionPart]) -> bool
    ensures { IsTrue result ↔ All (λ f. IsName f.name) functions.now }
{
    functions.iter().all(|function| is_name(&function.name))
}

/// Whether no address lies in two segments.
fn are_segments_apart(alloc: Global, segments: &[SegmentPart]) -> Result<bool, OutOfMemory>
    ensures { IfOk result (λ apart. IsTrue apart ↔ AreApart segments.now) }
{
    let mut spans = Vec::new(alloc);
    'segments: for segment in segments {
        spans.push(Span {
            start: segment.addr,
            len: segment.mem_len,
        })?;
    }
    Ok(are_apart(&spans))
}

/// Whether no address lies in two functions.
fn are_functions_apart(alloc: Global, functions: &[FunctionPart]) -> Result<bool, OutOfMemory>
    ensures { IfOk result (λ apart. IsTrue apart ↔ AreFunctionsApart functions.now) }
{
    let mut spans = Vec::new(alloc);
    'functions: for function in functions {
        spans.push(Span {
            start: function.addr,
            len: function.size,
        })?;
    }
    Ok(are_apart(&spans))
}

/// What segments count, up to the limit.
fn segments_len(segments: &[SegmentPart]) -> u64
    ensures { result ≡ min (2 ^ 31) (sum_by (λ s. length s.bytes + 1024) segments.now) }
{
    let mut len = 0;
    'segments: for segment in segments {
        let more = EXTRA_LEN.saturating_add(segment.bytes.len() as u64);
        len = LEN_LIMIT.min(more.saturating_add(len));
    }
    len
}

/// What functions count, up to the limit.
fn functions_len(functions: &[FunctionPart]) -> u64
    ensures { result ≡ min (2 ^ 31) (sum_by (λ f. length f.name + 1024) functions.now) }
{
    let mut len = 0;
    'functions: for function in functions {
        let more = EXTRA_LEN.saturating_add(function.name.len() as u64);
        len = LEN_LIMIT.min(more.saturating_add(len));
    }
    len
}

/// Whether the parts together are short enough.
fn is_short(parts: &ElfParts) -> bool
    ensures { IsTrue result ↔ (total_len parts.now < 2 ^ 31) }
{
    let len = segments_len(&parts.segments) + functions_len(&parts.functions);
    len.saturating_add(parts.file.len() as u64) < LEN_LIMIT
}

/// Whether the segments and the entry are those of a program.
fn are_segments_sound(alloc: Global, parts: &ElfParts) -> Result<bool, OutOfMemory>
    ensures { IfOk result (λ sound. IsTrue sound ↔ AreSegmentsFit parts.now) }
{
    if parts.segments.len() > MAX_SEGMENTS || parts.entry % 4 != 0 {
        return Ok(false);
    }
    if !are_placed(&parts.segments) || !has_entry(&parts.segments, parts.entry) {
        return Ok(false);
    }
    are_segments_apart(alloc, &parts.segments)
}

/// Whether the functions are code of these segments.
fn are_functions_sound(alloc: Global, parts: &ElfParts) -> Result<bool, OutOfMemory>
    ensures { IfOk result (λ sound. IsTrue sound ↔ AreFunctionsSound parts.now) }
{
    if !are_in_code(&parts.segments, &parts.functions) || !are_whole(&parts.functions) {
        return Ok(false);
    }
    if !are_named(&parts.functions) {
        return Ok(false);
    }
    are_functions_apart(alloc, &parts.functions)
}

/// Whether `make_elf` takes the parts. Where segments and functions stand in the order of their addresses, this takes
/// time in proportion to what is written.
pub fn can_be_made(alloc: Global, parts: &ElfParts) -> Result<bool, OutOfMemory>
    ensures { IfOk result (λ can. IsTrue can ↔ CanBeMade parts.now) }
{
    if !has_no_zero(&parts.file) || !is_short(parts) {
        return Ok(false);
    }
    if !are_segments_sound(alloc, parts)? {
        return Ok(false);
    }
    are_functions_sound(alloc, parts)
}
