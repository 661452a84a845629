//! The program headers, and the segments that they describe.

ghost use Rattle.std.specs.Prelude.{◌≡◌, ◌+◌, ◌*◌, ◌^◌, ◌%◌, ◌<◌, ◌≤◌, length, IfOk, IfSome, OnOk, IsTrue, Some};
ghost use Rattle.std.specs.List.{All, find, list_any};
ghost use Rattle.elf_read.specs.Checks.{Answers, first_fault, whole_fault};
ghost use Rattle.elf_read.specs.inner.Answers.{Says};
ghost use Rattle.elf_read.specs.Standard.{program_header_len, pf_r, pf_w, pf_x, has_flag};
ghost use Rattle.elf_read.specs.Header.{header_of};
ghost use Rattle.elf_read.specs.Programs.{programs_end, program_header, program_header_at, segment_of, segments_of};
ghost use Rattle.elf_read.specs.Programs.{segment_fault, program_fault_after, programs_fault, is_code, entry_fault};
ghost use Rattle.elf_read.specs.Programs.{IsPlaced, headers_end, holds_headers, headers_addr_in, headers_addr_of};

use crate::error::ElfError;
use crate::header::{FileHeader, check_whole};
use crate::number::word;
use crate::standard::{
    ADDR_LIMIT, LOWEST_ADDR, PF_R, PF_W, PF_X, PROGRAM_HEADER_LEN, PT_INTERP, PT_LOAD,
};
use std::alloc::Global;

/// A segment: a program header of type `PT_LOAD` with memory.
#[derive(Clone, Copy, Debug, PartialEq, Eq)]
pub struct Segment {
    /// `p_offset`: where its bytes begin in the file.
    pub offset: u32,
    /// `p_vaddr`: the address of its first byte.
    pub addr: u32,
    /// `p_filesz`: how many bytes it has in the file.
    pub file_len: u32,
    /// `p_memsz`: how many bytes it has in memory, at least one.
    pub mem_len: u32,
    /// `p_flags`: of `PF_X`, `PF_W` and `PF_R`.
    pub flags: u32,
}

/// The fields of a program header.
#[derive(Clone, Copy, Debug, PartialEq, Eq)]
pub struct ProgramHeader {
    /// `p_type`
    pub kind: u32,
    /// `p_offset`
    pub offset: u32,
    /// `p_vaddr`
    pub addr: u32,
    /// `p_filesz`
    pub file_len: u32,
    /// `p_memsz`
    pub mem_len: u32,
    /// `p_flags`
    pub flags: u32,
}

fn program_header_at(bytes: &[u8], place: usize) -> ProgramHeader
    requires { place + program_header_len ≤ length bytes.now }
    ensures { result ≡ program_header_at bytes.now place }
{
    ProgramHeader {
        kind: word(bytes, place),
        offset: word(bytes, place + 4),
        addr: word(bytes, place + 8),
        file_len: word(bytes, place + 16),
        mem_len: word(bytes, place + 20),
        flags: word(bytes, place + 24),
    }
}

/// Reads the program header of an index below `e_phnum`.
#[tactic(auto, unfolding(crate::specs::Programs::program_header))]
fn program_header(bytes: &[u8], header: &FileHeader, index: u32) -> ProgramHeader
    requires header { header.now ≡ header_of bytes.now }
    requires whole { programs_end bytes.now ≤ length bytes.now }
    requires index { index < header.now.program_count }
    ensures { result ≡ program_header bytes.now index }
{
    let place = u64::from(header.program_offset) + u64::from(u32::from(PROGRAM_HEADER_LEN) * index);
    program_header_at(bytes, place as usize)
}

impl ProgramHeader {
    fn segment(&self) -> Option<Segment>
        ensures segment { result ≡ segment_of self.now }
        ensures loaded { IfSome result (λ s. 0 < s.mem_len) }
    {
        if self.kind != PT_LOAD || self.mem_len == 0 {
            return None;
        }
        Some(Segment {
            offset: self.offset,
            addr: self.addr,
            file_len: self.file_len,
            mem_len: self.mem_len,
            flags: self.flags,
        })
    }
}

/// Refuses the segment of this number where its sizes, its addresses or its bytes are wrong.
fn check_segment(bytes: &[u8], number: u32, segment: &Segment) -> Result<(), ElfError>
    requires { 0 < segment.now.mem_len }
    ensures fault { Says result (segment_fault bytes.now number segment.now) }
    ensures placed { OnOk result (IsPlaced bytes.now segment.now) }
{
    let end = u64::from(segment.addr) + u64::from(segment.mem_len);
    if segment.file_len > segment.mem_len
        || segment.addr < LOWEST_ADDR
        || end > u64::from(ADDR_LIMIT)
    {
        return Err(ElfError::BadSegment(number));
    }
    check_whole(
        bytes,
        u64::from(segment.offset) + u64::from(segment.file_len),
    )
}

/// Reads the segment of a program header, if it has one, which is then the segment of this number.
fn checked_segment(
    bytes: &[u8],
    number: u32,
    header: &ProgramHeader,
) -> Result<Option<Segment>, ElfError>
    ensures fault { Says result (program_fault_after bytes.now number header.now) }
    ensures segment { IfOk result (λ s. s ≡ segment_of header.now) }
    ensures placed { IfOk result (λ s. IfSome s (IsPlaced bytes.now)) }
{
    if header.kind == PT_INTERP {
        return Err(ElfError::Interp);
    }
    match header.segment() {
        None => Ok(None),
        Some(segment) => {
            check_segment(bytes, number, &segment)?;
            Ok(Some(segment))
        }
    }
}

/// Refuses a file that ends before its program headers do.
pub fn check_programs_whole(bytes: &[u8], header: &FileHeader) -> Result<(), ElfError>
    requires { header.now ≡ header_of bytes.now }
    ensures { Says result (whole_fault bytes.now (programs_end bytes.now)) }
{
    let len = u32::from(PROGRAM_HEADER_LEN) * u32::from(header.program_count);
    check_whole(bytes, u64::from(header.program_offset) + u64::from(len))
}

/// Reads the segments, or the first fault of a program header.
#[tactic(auto, unfolding(crate::specs::Programs::segments_among))]
pub fn segments(alloc: Global, bytes: &[u8], header: &FileHeader) -> Result<Vec<Segment>, ElfError>
    requires header { header.now ≡ header_of bytes.now }
    requires whole { programs_end bytes.now ≤ length bytes.now }
    ensures fault { Answers result (programs_fault bytes.now) }
    ensures segments { IfOk result (λ found. found.items ≡ segments_of bytes.now) }
    ensures placed { IfOk result (λ found. All (IsPlaced bytes.now) found.items) }
    ensures count { IfOk result (λ found. length found.items < 2 ^ 16) }
{
    let mut found = Vec::new(alloc);
    'headers: for k in 0..u32::from(header.program_count) {
        let program = program_header(bytes, header, k);
        if let Some(segment) = checked_segment(bytes, found.len() as u32, &program)? {
            found.push(segment)?;
        }
    }
    Ok(found)
}

impl Segment {
    /// Whether its bytes may be read, `PF_R`.
    pub fn is_readable(&self) -> bool
        ensures { result ≡ has_flag pf_r self.now.flags }
    {
        self.flags & PF_R != 0
    }

    /// Whether its bytes may be written, `PF_W`.
    pub fn is_writable(&self) -> bool
        ensures { result ≡ has_flag pf_w self.now.flags }
    {
        self.flags & PF_W != 0
    }

    /// Whether its bytes may be executed, `PF_X`.
    pub fn is_executable(&self) -> bool
        ensures { result ≡ has_flag pf_x self.now.flags }
    {
        self.flags & PF_X != 0
    }

    /// Whether instructions may be fetched at the address.
    pub fn is_code(&self, addr: u32) -> bool
        ensures { result ≡ is_code addr self.now }
    {
        addr >= self.addr && addr - self.addr < self.mem_len && self.is_executable()
    }
}

/// Whether instructions may be fetched at the address.
fn has_code(segments: &[Segment], addr: u32) -> bool
    ensures { result ≡ list_any (is_code addr) segments.now }
{
    segments.iter().any(|segment| segment.is_code(addr))
}

/// Refuses an entry that is no place of an instruction.
pub fn check_entry(entry: u32, segments: &[Segment]) -> Result<(), ElfError>
    ensures fault { Says result (entry_fault entry segments.now) }
    ensures code { OnOk result (IsTrue (list_any (is_code entry) segments.now)) }
    ensures aligned { OnOk result (entry % 4 ≡ 0) }
{
    if entry % 4 != 0 {
        return Err(ElfError::NoEntry);
    }
    if has_code(segments, entry) {
        Ok(())
    } else {
        Err(ElfError::NoEntry)
    }
}

impl Segment {
    /// Whether its bytes in the file hold all program headers.
    fn holds_headers(&self, header: &FileHeader) -> bool
        ensures { result ≡ holds_headers header.now self.now }
    {
        let headers_end = u64::from(header.program_offset)
            + u64::from(u32::from(PROGRAM_HEADER_LEN) * u32::from(header.program_count));
        self.offset <= header.program_offset
            && headers_end <= u64::from(self.offset) + u64::from(self.file_len)
    }
}

/// The first segment that holds all program headers.
fn headers_segment(header: &FileHeader, segments: &[Segment]) -> Option<Segment>
    ensures { result ≡ find (holds_headers header.now) segments.now }
{
    segments
        .iter()
        .copied()
        .find(|segment| segment.holds_headers(header))
}

/// The address of the program headers, in the first segment that holds them.
pub fn headers_addr(bytes: &[u8], header: &FileHeader, segments: &[Segment]) -> Option<u32>
    requires { All (IsPlaced bytes.now) segments.now }
    ensures { result ≡ headers_addr_of header.now segments.now }
{
    let segment = headers_segment(header, segments)?;
    Some(segment.addr + (header.program_offset - segment.offset))
}
