//! The stack of a program that begins.

ghost use Rattle.std.specs.Prelude.{◌≡◌, ◌<◌, ◌≤◌, [], ◌∷◌, ◌++◌, map, flat_map, string_bytes, IfOk, OnOk};
ghost use Rattle.guest_mem.specs.Memory.{page_limit, memory_of};
ghost use Rattle.guest_load.specs.Arguments as arguments;
ghost use Rattle.guest_load.specs.Arguments.{arguments_limit, arguments_start};
ghost use Rattle.guest_load.specs.First.{first_memory};
ghost use Rattle.guest_load.specs.Segments.{segment_cell, pages_of};
ghost use Rattle.guest_load.specs.Stack.{auxiliary_vector, stack_words, stack_pointer, little_endian};

use crate::arguments::{arguments_bytes, push_addresses};
use elf_read::Elf;
use elf_read::standard::PROGRAM_HEADER_LEN;
use guest_mem::{GuestMem, MapError, PAGE_BYTES, READ, WRITE};
use std::alloc::{AllocError, Global};

/// The lowest address of the stack.
pub const STACK_START: u32 = 0x7f80_0000;
/// How many pages the stack has. It ends at 0x80000000.
pub const STACK_PAGES: u32 = 2048;
/// Where the sixteen bytes for `AT_RANDOM` stand, at the end of the stack.
const SIXTEEN_START: u32 = 0x7fff_fff0;

const SIXTEEN_BYTES: [u8; 16] = [0, 1, 2, 3, 4, 5, 6, 7, 8, 9, 10, 11, 12, 13, 14, 15];

const AT_NULL: u32 = 0;

const AT_PHDR: u32 = 3;

const AT_PHENT: u32 = 4;

const AT_PHNUM: u32 = 5;

const AT_PAGESZ: u32 = 6;

const AT_ENTRY: u32 = 9;

const AT_RANDOM: u32 = 25;

/// The auxiliary vector: kinds, each with its value. Where no segment holds the program headers, there are none.
fn auxiliary_vector(elf: &Elf<'_>) -> [(u32, u32); 7]
    ensures { result ≡ auxiliary_vector elf.now }
{
    let (headers, count) = match elf.headers_addr() {
        Some(addr) => (addr, elf.header_count()),
        None => (0, 0),
    };
    [
        (AT_PHDR, headers),
        (AT_PHENT, u32::from(PROGRAM_HEADER_LEN)),
        (AT_PHNUM, count),
        (AT_PAGESZ, PAGE_BYTES as u32),
        (AT_ENTRY, elf.entry()),
        (AT_RANDOM, SIXTEEN_START),
        (AT_NULL, 0),
    ]
}

/// Adds both words of each pair.
fn push_pairs(words: &mut Vec<u32>, pairs: &[(u32, u32)]) -> Result<(), AllocError>
    ensures { IfOk result (λ _. words.new.items ≡ words.old.items
        ++ flat_map (λ pair. pair.0 ∷ pair.1 ∷ []) pairs.now) }
{
    'pairs: for (kind, value) in pairs {
        words.push(*kind)?;
        words.push(*value)?;
    }
    Ok(())
}

/// The words from the stack pointer on, below arguments that begin at `start`.
#[tactic(auto, unfolding(crate::specs::Stack::stack_words))]
fn stack_words(
    alloc: Global,
    elf: &Elf<'_>,
    args: &[String],
    start: u32,
) -> Result<Vec<u32>, AllocError>
    requires start { start ≡ arguments_start (map string_bytes args.now) }
    requires short { arguments.arguments_len (map string_bytes args.now) ≤ arguments_limit }
    ensures { IfOk result (λ words. words.items ≡ stack_words elf.now (map string_bytes args.now)) }
{
    let mut words = Vec::new(alloc);
    words.push(args.len() as u32)?;
    push_addresses(&mut words, args, start)?;
    words.push(0)?;
    words.push(0)?;
    push_pairs(&mut words, &auxiliary_vector(elf))?;
    Ok(words)
}

/// Words as bytes, the lowest byte first.
fn little_endian(alloc: Global, words: &[u32]) -> Result<Vec<u8>, AllocError>
    ensures { IfOk result (λ bytes. bytes.items ≡ little_endian words.now) }
{
    let mut bytes = Vec::new(alloc);
    'words: for word in words {
        bytes.extend_from_slice(&word.to_le_bytes())?;
    }
    Ok(bytes)
}

/// Maps the stack of a program whose segments are in memory, and puts what stands on it. The stack pointer.
#[tactic(auto, unfolding(crate::specs::Stack::stack_pointer))]
pub fn put_stack(
    alloc: Global,
    mem: &mut GuestMem,
    elf: &Elf<'_>,
    args: &[String],
    arguments_len: u32,
) -> Result<u32, MapError>
    requires before { mem.old ≡ memory_of (segment_cell elf.now) }
    requires len { arguments_len ≡ arguments.arguments_len (map string_bytes args.now) }
    requires short { arguments_len ≤ arguments_limit }
    ensures pointer { IfOk result (λ pointer. pointer ≡ stack_pointer elf.now (map string_bytes args.now)) }
    ensures memory { OnOk result (mem.new ≡ first_memory elf.now (map string_bytes args.now)) }
    ensures full { result ≡ Err MapError.Full → page_limit < pages_of elf.now }
    ensures fits { OnOk result (pages_of elf.now ≤ page_limit) }
{
    mem.map(STACK_START, STACK_PAGES, READ | WRITE)?;
    mem.put_raw(SIXTEEN_START, &SIXTEEN_BYTES);
    let start = SIXTEEN_START - arguments_len;
    let arguments = arguments_bytes(alloc, args)?;
    mem.put_raw(start, &arguments);
    let words = stack_words(alloc, elf, args, start)?;
    let words = little_endian(alloc, &words)?;
    let pointer = (start - words.len() as u32) / 16 * 16;
    mem.put_raw(pointer, &words);
    Ok(pointer)
}
