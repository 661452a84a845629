//! Programs that are loaded.

use crate::answer::Answer;
use crate::draft::Draft;
use crate::line::Line;
use crate::memory::copy_out;
use crate::runs::print_bytes;
use crate::scene::Scene;
use cases_kit::Hoard;
use elf_read::{Elf, ElfError, read};
use guest_load::{Guest, GuestError, load};
use guest_mem::GuestMem;
use std::alloc::Global;
use std::io;

/// A program that is put together, its file, and the guest that was loaded from it.
#[derive(Drop)]
pub struct Loading {
    alloc: Global,
    draft: Draft,
    file: Vec<u8>,
    guest: Option<Guest>,
}

impl Scene for Loading {
    /// A segment is `code` of an address and three words, or `segment` of an address, its length in the file and in
    /// memory, its flags, and the first of its bytes, which rise; `file` makes the file, and `set` puts a word at a place
    /// of it. `load` has the arguments, with `|` between them, `long` the length of a second argument, and `starve` loads
    /// the file without memory. The other lines look at the guest.
    fn follow(&mut self, rt: &HostRuntime, line: &Line) -> io::Result<()> {
        match line.word {
            "code" | "segment" | "file" | "set" => {
                let answer = match self.prepare(line) {
                    Some(()) => Answer::Done,
                    None => Answer::NotMade,
                };
                println!(rt; "{answer}")
            }
            "load" => self.load(rt, line.rest),
            "long" => match long_arguments(self.alloc, line.numbers[0]) {
                Some(text) => self.load(rt, text.as_str()),
                None => println!(rt; "{}", Answer::OutOfMemory),
            },
            "starve" => starve(rt, &self.file),
            _ => match &self.guest {
                Some(guest) => tell(rt, guest, line),
                None => println!(rt; "no guest"),
            },
        }
    }
}

impl Loading {
    pub fn new(alloc: Global) -> Loading {
        Loading {
            alloc,
            draft: Draft::new(alloc),
            file: Vec::new(alloc),
            guest: None,
        }
    }

    fn prepare(&mut self, line: &Line) -> Option<()> {
        let [first, second, third, fourth, fifth, ..] = line.numbers;
        match line.word {
            "code" => self.draft.add_code(first, [second, third, fourth]),
            "segment" => self.draft.add_rising(first, second, third, fourth, fifth),
            "file" => self.make_file(),
            _ => self.set(first as usize, second),
        }
    }

    /// Makes the file of all segments; the next one has none of them.
    fn make_file(&mut self) -> Option<()> {
        self.file = self.draft.file(self.alloc)?;
        self.draft = Draft::new(self.alloc);
        Some(())
    }

    fn set(&mut self, place: usize, word: u32) -> Option<()> {
        let len = self.file.len();
        if place > len || len - place < 4 {
            return None;
        }
        self.file[place..place + 4].copy_from_slice(&word.to_le_bytes());
        Some(())
    }

    fn load(&mut self, rt: &HostRuntime, arguments: &str) -> io::Result<()> {
        match loaded(self.alloc, &self.file, arguments) {
            Some(Ok(guest)) => {
                self.guest = Some(guest);
                println!(rt; "{}", Answer::Done)
            }
            Some(Err(error)) => println!(rt; "{error}"),
            None => println!(rt; "{}", Answer::NotMade),
        }
    }
}

/// The arguments `p1` and so many letters.
fn long_arguments(alloc: Global, len: u32) -> Option<String> {
    let mut text = String::from_str(alloc, "p1|").ok()?;
    for _ in 0..len {
        text.push('x').ok()?;
    }
    Some(text)
}

/// The arguments between the bars.
fn split(alloc: Global, text: &str) -> Option<Vec<String>> {
    let mut arguments = Vec::new(alloc);
    for argument in text.split('|') {
        arguments
            .push(String::from_str(alloc, argument).ok()?)
            .ok()?;
    }
    Some(arguments)
}

/// The guest of a file, with the input `in`.
fn loaded(alloc: Global, file: &[u8], arguments: &str) -> Option<Result<Guest, GuestError>> {
    let elf = read(alloc, file).ok()?;
    loaded_with(alloc, &elf, arguments)
}

fn loaded_with(alloc: Global, elf: &Elf<'_>, arguments: &str) -> Option<Result<Guest, GuestError>> {
    let arguments = split(alloc, arguments)?;
    let input = Vec::from_slice(alloc, b"in").ok()?;
    Some(load(alloc, elf, &arguments, input))
}

/// How a file is refused where there is no memory: to be loaded, and to be read.
fn refused(alloc: Global, file: &[u8]) -> Option<(GuestError, ElfError)> {
    let elf = read(alloc, file).ok()?;
    let _hoard = Hoard::new(alloc).ok()?;
    let unloaded = load(alloc, &elf, &[], Vec::new(alloc)).err();
    unloaded.zip(read(alloc, file).err())
}

fn starve(rt: &HostRuntime, file: &[u8]) -> io::Result<()> {
    match refused(rt.alloc(), file) {
        Some((unloaded, unread)) => println!(rt; "{unloaded}, {unread}"),
        None => println!(rt; "there is memory"),
    }
}

/// Follows a line that looks at a guest: `state`, `threads`, or an address for `words`, `bytes` or `permission`.
fn tell(rt: &HostRuntime, guest: &Guest, line: &Line) -> io::Result<()> {
    let [addr, count, ..] = line.numbers;
    match line.word {
        "state" => print_state(rt, guest),
        "threads" => print_threads(rt, guest),
        "words" => print_words(rt, &guest.mem, addr, count),
        "bytes" => copy_out(rt, &guest.mem, addr, count),
        "permission" => print_permission(rt, &guest.mem, addr),
        _ => println!(rt; "no such line"),
    }
}

fn print_words(rt: &HostRuntime, mem: &GuestMem, addr: u32, count: u32) -> io::Result<()> {
    print!(rt; "words")?;
    for place in 0..count {
        let word = mem.load32(addr.wrapping_add(place.wrapping_mul(4)));
        print!(rt; " {:#x}", word.unwrap_or(0))?;
    }
    println!(rt)
}

/// Prints what may be done with a byte.
fn print_permission(rt: &HostRuntime, mem: &GuestMem, addr: u32) -> io::Result<()> {
    if !mem.may(addr, 1, 0) {
        return println!(rt; "not mapped");
    }
    println!(rt;
        "read {}, write {}, execute {}",
        mem.may(addr, 1, 1),
        mem.may(addr, 1, 2),
        mem.may(addr, 1, 4)
    )
}

/// Prints all of a guest but its threads and what its memory holds.
fn print_state(rt: &HostRuntime, guest: &Guest) -> io::Result<()> {
    print!(rt;
        "{} pages, break {:#x} from {:#x}, {} threads made, {} steps, {} bytes read of",
        guest.mem.pages(),
        guest.now_break,
        guest.first_break,
        guest.made,
        guest.steps,
        guest.place
    )?;
    print_bytes(rt, &guest.input)?;
    println!(rt)
}

/// Prints each thread, and its registers that are not 0.
fn print_threads(rt: &HostRuntime, guest: &Guest) -> io::Result<()> {
    for thread in &guest.threads {
        print!(rt;
            "{} at {:#x}, clears {:#x}",
            thread.no.0, thread.regs.pc, thread.clear
        )?;
        for (number, value) in thread.regs.x.iter().enumerate() {
            if *value != 0 {
                print!(rt; ", x{number} {value:#x}")?;
            }
        }
    }
    println!(rt)
}
