//! A program as an ELF file.

ghost use Rattle.std.specs.Prelude.{◌≡◌, ◌+◌, ◌<◌, ◌^◌, IfOk, OnOk, length};
ghost use Rattle.std.specs.List.{All};
ghost use Rattle.prog_make.specs.Conditions.{CanBeMade};
ghost use Rattle.prog_make.specs.inner.Conditions.{AreFit};
ghost use Rattle.prog_make.specs.Contents.{IsFileOf};
ghost use Rattle.prog_make.specs.inner.ElfFile.{elf_file, plain_file, full_file, file_of};
ghost use Rattle.prog_make.specs.Parts.{content_len};
ghost use Rattle.prog_make.specs.Programs.{content_offset};

use crate::header::{Header, push_header};
use crate::parts::ElfParts;
use crate::program::{content_offset, push_contents, push_program_headers};
use crate::section::{FIRST_SEGMENT_SECTION, NAMES_SECTION};
use crate::segment_part::SegmentPart;
use crate::tail::{Tail, make_tail};
use byte_text::{OutOfMemory, Text};
use std::alloc::Global;

/// The file with this header, with segments and what follows them.
fn joined(
    alloc: Global,
    header: &Header,
    segments: &[SegmentPart],
    tail: &[u8],
) -> Result<Text, OutOfMemory>
    requires count { length segments.now < 2 ^ 16 }
    requires room { content_offset segments.now + content_len segments.now < 2 ^ 32 }
    ensures bytes { IfOk result (λ file. file ≡ elf_file header.now segments.now tail.now) }
    ensures flags_fit { OnOk result (All (λ s. s.flags < 2 ^ 32) segments.now) }
{
    let mut file = Text::new(alloc);
    push_header(&mut file, header)?;
    push_program_headers(&mut file, segments, content_offset(segments))?;
    push_contents(&mut file, segments)?;
    file.push(tail)?;
    Ok(file)
}

/// A file without sections.
fn plain_file(alloc: Global, parts: &ElfParts) -> Result<Text, OutOfMemory>
    requires { AreFit parts.now }
    ensures bytes { IfOk result (λ file. file ≡ plain_file parts.now) }
    ensures flags_fit { OnOk result (All (λ s. s.flags < 2 ^ 32) parts.now.segments) }
{
    let segments = parts.segments.as_slice();
    let header = Header {
        entry: parts.entry,
        program_count: segments.len() as u16,
        section_offset: 0,
        section_count: 0,
        names_index: 0,
    };
    joined(alloc, &header, segments, &[])
}

/// A file with sections.
fn full_file(alloc: Global, parts: &ElfParts) -> Result<Text, OutOfMemory>
    requires { AreFit parts.now }
    ensures bytes { IfOk result (λ file. file ≡ full_file parts.now) }
    ensures flags_fit { OnOk result (All (λ s. s.flags < 2 ^ 32) parts.now.segments) }
{
    let Tail {
        bytes,
        section_offset,
    } = make_tail(alloc, parts)?;
    let segments = parts.segments.as_slice();
    let header = Header {
        entry: parts.entry,
        program_count: segments.len() as u16,
        section_offset,
        section_count: FIRST_SEGMENT_SECTION + segments.len() as u16,
        names_index: NAMES_SECTION,
    };
    joined(alloc, &header, segments, bytes.as_bytes())
}

/// The bytes of a program's file.
fn file_of(alloc: Global, parts: &ElfParts) -> Result<Text, OutOfMemory>
    requires { AreFit parts.now }
    ensures bytes { IfOk result (λ file. file ≡ file_of parts.now) }
    ensures flags_fit { OnOk result (All (λ s. s.flags < 2 ^ 32) parts.now.segments) }
{
    if parts.functions.is_empty() {
        plain_file(alloc, parts)
    } else {
        full_file(alloc, parts)
    }
}

/// Makes a program of its parts: an executable for 32-bit RISC-V with these segments. Where there are functions, it has
/// a symbol table and a line table too.
pub fn make_elf(alloc: Global, parts: &ElfParts) -> Result<Vec<u8>, OutOfMemory>
    requires { CanBeMade parts.now }
    ensures { IfOk result (λ file. IsFileOf parts.now file.items) }
{
    let file = file_of(alloc, parts)?;
    Ok(file.bytes)
}
