//! A program that is put together, segment by segment (gABI, ELF Header and Program Header).

use crate::line::low_byte;
use std::alloc::Global;

/// The header of an executable for RISC-V that is entered at 0x10000, up to the number of its segments.
const FRONT: &[u8] = b"\x7fELF\x01\x01\x01\0\0\0\0\0\0\0\0\0\x02\0\xf3\0\x01\0\0\0\
\0\0\x01\0\x34\0\0\0\0\0\0\0\0\0\0\0\x34\0\x20\0";

/// Where the bytes of segments begin in the file; there are headers of at most 126 before.
const CONTENTS: u32 = 0x1000;

/// The headers of segments, and the bytes that they have in the file.
#[derive(Drop)]
pub struct Draft {
    headers: Vec<u8>,
    contents: Vec<u8>,
    segments: u32,
    /// Where the next segment's bytes will be in the file.
    place: u32,
}

impl Draft {
    pub fn new(alloc: Global) -> Draft {
        Draft {
            headers: Vec::new(alloc),
            contents: Vec::new(alloc),
            segments: 0,
            place: CONTENTS,
        }
    }

    /// Adds the header of a segment, whose bytes in the file are added next.
    fn add(&mut self, addr: u32, len: u32, mem_len: u32, flags: u32) -> Option<()> {
        let header = [1, self.place, addr, addr, len, mem_len, flags, 1];
        self.segments = self.segments.wrapping_add(1);
        self.place = self.place.wrapping_add(len);
        push_words(&mut self.headers, &header)
    }

    /// Adds a segment of these words, which may be read and executed.
    pub fn add_code(&mut self, addr: u32, words: [u32; 3]) -> Option<()> {
        self.add(addr, 12, 12, 5)?;
        push_words(&mut self.contents, &words)
    }

    /// Adds a segment of so many bytes in the file, of which each is one more than the one before.
    pub fn add_rising(
        &mut self,
        addr: u32,
        len: u32,
        mem_len: u32,
        flags: u32,
        first: u32,
    ) -> Option<()> {
        self.add(addr, len, mem_len, flags)?;
        for place in 0..len {
            let byte = low_byte(first.wrapping_add(place));
            self.contents.push(byte).ok()?;
        }
        Some(())
    }

    /// The file of all segments.
    pub fn file(&self, alloc: Global) -> Option<Vec<u8>> {
        let mut file = Vec::from_slice(alloc, FRONT).ok()?;
        push_words(&mut file, &[0x0028_0000 | self.segments, 0])?;
        file.extend_from_slice(&self.headers).ok()?;
        file.resize(CONTENTS as usize, 0).ok()?;
        file.extend_from_slice(&self.contents).ok()?;
        Some(file)
    }
}

fn push_words(bytes: &mut Vec<u8>, words: &[u32]) -> Option<()> {
    for word in words {
        bytes.extend_from_slice(&word.to_le_bytes()).ok()?;
    }
    Some(())
}
