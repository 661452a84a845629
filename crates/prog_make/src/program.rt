//! The program headers (gABI, Program Header) and the bytes of segments.

ghost use Rattle.std.specs.Prelude.{◌≡◌, ◌+◌, ◌*◌, ◌<◌, ◌≤◌, ◌^◌, ◌++◌, length, OnOk};
ghost use Rattle.std.specs.List.{All, flat_map};
ghost use Rattle.elf_read.specs.declared.program.Segment.{Segment};
ghost use Rattle.prog_make.specs.Parts.{content_len};
ghost use Rattle.prog_make.specs.Programs.{content_offset, placed_at, file_segments_from};
ghost use Rattle.prog_make.specs.inner.ProgramBytes.{program_bytes, programs_bytes};

use crate::numbers::push_words;
use crate::segment_part::SegmentPart;
use byte_text::{OutOfMemory, Text};
use elf_read::standard::{HEADER_LEN, PROGRAM_HEADER_LEN, PT_LOAD};

/// No alignment.
const ALIGN: u32 = 1;

/// Appends the program header of a segment whose bytes begin at this place of the file.
#[tactic(auto, unfolding(crate::specs::inner::ProgramBytes::program_bytes))]
fn push_program_header(
    out: &mut Text,
    segment: &SegmentPart,
    offset: u32,
) -> Result<(), OutOfMemory>
    requires { length segment.now.bytes < 2 ^ 32 }
    ensures flags_fit { OnOk result (segment.now.flags < 2 ^ 32) }
    ensures written { OnOk result (out.new ≡ out.old ++ program_bytes (placed_at offset segment.now)) }
{
    push_words(
        out,
        &[
            PT_LOAD,
            offset,
            segment.addr,
            segment.addr,
            segment.bytes.len() as u32,
            segment.mem_len,
            segment.flags,
            ALIGN,
        ],
    )
}

/// Appends the program headers of segments whose bytes stand one after the other from this place of the file.
pub fn push_program_headers(
    out: &mut Text,
    segments: &[SegmentPart],
    offset: u32,
) -> Result<(), OutOfMemory>
    requires { offset + content_len segments.now < 2 ^ 32 }
    ensures written { OnOk result (out.new ≡ out.old ++ programs_bytes (file_segments_from offset segments.now)) }
    ensures flags_fit { OnOk result (All (λ s. s.flags < 2 ^ 32) segments.now) }
{
    let mut offset = offset;
    'segments: for segment in segments {
        push_program_header(out, segment, offset)?;
        offset += segment.bytes.len() as u32;
    }
    Ok(())
}

/// Where the bytes of segments begin in the file.
pub fn content_offset(segments: &[SegmentPart]) -> u32
    requires { length segments.now < 2 ^ 16 }
    ensures { result ≡ content_offset segments.now }
{
    u32::from(HEADER_LEN) + u32::from(PROGRAM_HEADER_LEN) * segments.len() as u32
}

/// How many bytes segments have in the file.
pub fn content_len(segments: &[SegmentPart]) -> u32
    requires { content_len segments.now < 2 ^ 32 }
    ensures { result ≡ content_len segments.now }
{
    let mut len = 0;
    'segments: for segment in segments {
        len += segment.bytes.len() as u32;
    }
    len
}

/// Appends the bytes of segments.
pub fn push_contents(out: &mut Text, segments: &[SegmentPart]) -> Result<(), OutOfMemory>
    ensures { OnOk result (out.new ≡ out.old ++ flat_map (λ s. s.bytes) segments.now) }
{
    'segments: for segment in segments {
        out.push(&segment.bytes)?;
    }
    Ok(())
}
