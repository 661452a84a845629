//! The program of a size.

ghost use Rattle.std.specs.Prelude.{◌≡◌, ℕ, ◌+◌, ◌*◌, ◌<◌, ◌≤◌, ◌∷◌, ◌++◌, IfOk, OnOk, codes, decimal, length, map};
ghost use Rattle.std.specs.List.{range_with_len};
ghost use Rattle.elf_read.specs.Standard.{pf_r, pf_x};
ghost use Rattle.prog_make.specs.Code.{CanBeAssembled, code_of};
ghost use Rattle.demo_make.specs.Layout.{child_addr, code_addr, function_addr};
ghost use Rattle.demo_make.specs.Draws.{choice};
ghost use Rattle.demo_make.specs.Program.{demo, demo_file_len, IsFileOf, routines};
ghost use Rattle.demo_make.specs.inner.Lists.{Lists, routines_before};

use crate::draws::{Choice, choose, generator_of};
use crate::functions::{child_code, function, main_code};
use crate::layout::{CODE_ADDR, DATA_ADDR, DATA_LEN};
use crate::listing::Listing;
use byte_text::{OutOfMemory, Text};
use elf_read::standard::{PF_R, PF_W, PF_X};
use prog_make::{ElfParts, SegmentPart, assemble, make_elf};
use rv_decode::Instr;
use std::alloc::Global;

/// How many functions are drawn.
const DRAWN: u32 = 32;

/// A function's name by its number.
fn name_of(alloc: Global, k: u32) -> Result<Text, OutOfMemory>
    ensures { IfOk result (λ name. name ≡ codes "f" ++ decimal k) }
{
    let mut name = Text::from_bytes(alloc, b"f")?;
    name.push_number(u64::from(k))?;
    Ok(name)
}

/// The functions that every program has, main and child.
fn first_two(alloc: Global, size: u32) -> Result<Listing, OutOfMemory>
    requires { size ≤ 100000 }
    ensures { IfOk result (λ listing. Lists listing (routines_before size 0)) }
{
    let main = main_code(alloc, size)?;
    let child = child_code(alloc, size)?;
    let mut listing = Listing::new(alloc);
    listing.add(alloc, b"main", &main)?;
    listing.add(alloc, b"child", &child)?;
    Ok(listing)
}

/// One of the functions that are drawn, behind the others.
fn add_drawn(
    alloc: Global,
    listing: &mut Listing,
    k: u32,
    chosen: &Choice,
) -> Result<(), OutOfMemory>
    requires number { k < 32 }
    requires first { chosen.now.first < 32 }
    requires second { chosen.now.second < 32 }
    requires counter { chosen.now.counter < 2048 }
    requires instructions { length listing.old.code.items ≤ 900 }
    requires functions { length listing.old.functions.items ≤ 900 }
    ensures { OnOk result ((size : ℕ) → chosen.now ≡ choice size k → Lists listing.old (routines_before size k)
        → Lists listing.new (routines_before size (k + 1))) }
{
    let name = name_of(alloc, k)?;
    let code = function(k, chosen);
    listing.add(alloc, name.as_bytes(), &code)
}

/// All functions.
fn listing_of(alloc: Global, size: u32) -> Result<Listing, OutOfMemory>
    requires { size ≤ 100000 }
    ensures { IfOk result (λ listing. Lists listing (routines size)) }
{
    let mut listing = first_two(alloc, size)?;
    let mut words = generator_of(size);
    'functions: for k in 0..DRAWN {
        let choice = choose(&mut words);
        add_drawn(alloc, &mut listing, k, &choice)?;
    }
    Ok(listing)
}

/// The segment of these instructions.
fn code_segment(alloc: Global, instrs: &[Instr]) -> Result<SegmentPart, OutOfMemory>
    requires assembled { CanBeAssembled code_addr instrs.now }
    requires short { length instrs.now ≤ 1000 }
    ensures { IfOk result (λ segment. segment ≡ record {
      addr = code_addr;
      bytes = code_of instrs.now;
      mem_len = 4 * length instrs.now;
      flags = pf_r + pf_x;
    }) }
{
    let code = assemble(alloc, CODE_ADDR, instrs)?.unwrap();
    let len = 4 * instrs.len() as u32;
    SegmentPart::new(alloc, CODE_ADDR, &code, len, PF_R | PF_X)
}

/// The parts of the program.
fn parts_of(alloc: Global, size: u32) -> Result<ElfParts, OutOfMemory>
    requires { size ≤ 100000 }
    ensures { IfOk result (λ parts. parts ≡ demo size) }
{
    let listing = listing_of(alloc, size)?;
    let code = code_segment(alloc, &listing.code)?;
    let zeros = SegmentPart::new(alloc, DATA_ADDR, &[], DATA_LEN, PF_R | PF_W)?;
    let mut segments = Vec::new(alloc);
    segments.push(code)?;
    segments.push(zeros)?;
    let file = Text::from_bytes(alloc, b"demo.s")?;
    Ok(ElfParts {
        entry: CODE_ADDR,
        segments,
        functions: listing.functions,
        file,
    })
}

/// The demonstration program, as the bytes of its file: each of its four threads calls a function as often as the size
/// says, which is from 1 to 100,000.
pub fn demo_program(alloc: Global, size: u32) -> Result<Vec<u8>, OutOfMemory>
    requires least { 1 ≤ size }
    requires most { size ≤ 100000 }
    ensures file { IfOk result (λ file. IsFileOf (demo size) file.items) }
    ensures len { IfOk result (λ file. length file.items ≡ demo_file_len) }
    // Each function begins where the jumps to it go.
    ensures places { map (λ f. f.addr) (demo size).functions
        ≡ code_addr ∷ child_addr ∷ map function_addr (range_with_len 0 32) }
{
    make_elf(alloc, &parts_of(alloc, size)?)
}
