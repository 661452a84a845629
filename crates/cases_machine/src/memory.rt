//! Calls on the guest's memory.

ghost use Rattle.std.specs.Prelude.{◌≡◌, ◌+◌, ◌*◌, ◌%◌, ◌^◌, ◌≤◌, IsTrue};

use crate::answer::Answer;
use crate::line::{Line, low_byte};
use crate::runs::print_bytes;
use crate::scene::Scene;
use guest_mem::{Access, CopyError, GuestMem, MapError};
use std::alloc::Global;
use std::io;

impl Scene for GuestMem {
    /// A line is a call by its name, with its arguments.
    fn follow(&mut self, rt: &HostRuntime, line: &Line) -> io::Result<()> {
        let [addr, second, third, ..] = line.numbers;
        match line.word {
            "copy_out" => copy_out(rt, self, addr, second),
            "copy_many" => println!(rt; "{}", copy_many(rt.alloc(), self, addr, second, third)),
            _ => println!(rt; "{}", answer(self, line)),
        }
    }
}

/// Makes a call; `poke` and `peek` are other names of `store32` and `load32`.
pub fn answer(memory: &mut GuestMem, line: &Line) -> Answer {
    let [addr, second, third, fourth, fifth, ..] = line.numbers;
    match line.word {
        "map" => map(memory, addr, second, third),
        "unmap" => unmap(memory, addr, second),
        "protect" => protect(memory, addr, second, third),
        "store8" => done(memory.store8(addr, second).is_ok()),
        "store16" => done(memory.store16(addr, second).is_ok()),
        "store32" | "poke" => done(memory.store32(addr, second).is_ok()),
        "copy_in" => {
            let bytes = [
                low_byte(second),
                low_byte(third),
                low_byte(fourth),
                low_byte(fifth),
            ];
            done(memory.copy_in(addr, &bytes).is_ok())
        }
        "put_raw" => {
            let bytes = [low_byte(second), low_byte(third), low_byte(fourth)];
            put_raw(memory, addr, bytes)
        }
        _ => look(memory, line),
    }
}

/// Makes a call that changes nothing.
fn look(memory: &GuestMem, line: &Line) -> Answer {
    let [addr, second, third, ..] = line.numbers;
    match line.word {
        "pages" => Answer::Count(u64::from(memory.pages())),
        "load8" => read(memory.load8(addr)),
        "load16" => read(memory.load16(addr)),
        "load32" | "peek" => read(memory.load32(addr)),
        "fetch" => read(memory.fetch(addr)),
        "may" => Answer::Truth(memory.may(addr, second, low_byte(third))),
        "mapped" => mapped(memory, addr, second),
        "first_mapped" => first(memory, addr, second, true),
        "first_free" => first(memory, addr, second, false),
        _ => Answer::NotMade,
    }
}

fn done(is_allowed: bool) -> Answer {
    if is_allowed {
        Answer::Done
    } else {
        Answer::Access
    }
}

fn read(value: Result<u32, Access>) -> Answer {
    match value {
        Ok(value) => Answer::Word(value),
        Err(_) => Answer::Access,
    }
}

/// Whether there are so many pages from an address on.
fn are_pages(first: u32, pages: u32) -> bool
    ensures aligned { IsTrue result → first % 4096 ≡ 0 }
    ensures within { IsTrue result → first + pages * 4096 ≤ 2 ^ 32 }
{
    first % 4096 == 0 && u64::from(first) + u64::from(pages) * 4096 <= 0x1_0000_0000
}

fn map(memory: &mut GuestMem, first: u32, pages: u32, perm: u32) -> Answer {
    if !are_pages(first, pages) || perm >= 8 {
        return Answer::NotMade;
    }
    match memory.map(first, pages, perm as u8) {
        Ok(()) => Answer::Done,
        Err(MapError::Full) => Answer::Full,
        Err(MapError::OutOfMemory(_)) => Answer::OutOfMemory,
    }
}

fn mapped(memory: &GuestMem, first: u32, pages: u32) -> Answer {
    if !are_pages(first, pages) {
        return Answer::NotMade;
    }
    Answer::Truth(memory.mapped(first, pages))
}

fn unmap(memory: &mut GuestMem, first: u32, pages: u32) -> Answer {
    if !are_pages(first, pages) {
        return Answer::NotMade;
    }
    memory.unmap(first, pages);
    Answer::Done
}

fn protect(memory: &mut GuestMem, first: u32, pages: u32, perm: u32) -> Answer {
    if !are_pages(first, pages) || perm >= 8 {
        return Answer::NotMade;
    }
    if !memory.mapped(first, pages) {
        return Answer::NotMade;
    }
    memory.protect(first, pages, perm as u8);
    Answer::Done
}

/// The first page that is mapped, or that isn't.
fn first(memory: &GuestMem, from: u32, end: u32, is_mapped: bool) -> Answer {
    if from > end || end > 0x10_0000 {
        return Answer::NotMade;
    }
    if is_mapped {
        return Answer::Count(u64::from(memory.first_mapped(from, end)));
    }
    Answer::Count(u64::from(memory.first_free(from, end)))
}

fn put_raw(memory: &mut GuestMem, addr: u32, bytes: [u8; 3]) -> Answer {
    if !memory.may(addr, 3, 0) {
        return Answer::NotMade;
    }
    memory.put_raw(addr, &bytes);
    Answer::Done
}

/// Copies a byte, so many of it.
fn copy_many(alloc: Global, memory: &mut GuestMem, addr: u32, byte: u32, count: u32) -> Answer {
    match vec![in alloc; low_byte(byte); count as usize] {
        Ok(bytes) => done(memory.copy_in(addr, &bytes).is_ok()),
        Err(_) => Answer::OutOfMemory,
    }
}

pub fn copy_out(rt: &HostRuntime, memory: &GuestMem, addr: u32, len: u32) -> io::Result<()> {
    match memory.copy_out(addr, len) {
        Ok(text) => {
            print!(rt; "bytes")?;
            print_bytes(rt, &text.bytes)?;
            println!(rt)
        }
        Err(CopyError::Access) => println!(rt; "{}", Answer::Access),
        Err(CopyError::OutOfMemory(_)) => println!(rt; "{}", Answer::OutOfMemory),
    }
}
