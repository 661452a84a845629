//! Programs that are made, and what is read of their files. `segment` adds a part with an address, a length in memory,
//! flags and bytes; `function` one with an address, a size, a first line and a name; `source` names the file of the
//! lines; and `make` makes the program that is entered at an address, if there is one of these parts. `demo` makes the
//! demonstration of a size, and `crowd` a program of 50,000 functions. Of the file that was made last, `elf`, `lines` and
//! `names` ask what they ask of files. `assemble` puts instructions together, which are said by their words.

use crate::lines::tell_lines_of;
use crate::words::three;
use crate::{elf, names};
use anyhow::{Context, Result, bail, ensure};
use byte_text::Text;
use demo_make::demo_program;
use prog_make::{Assembler, ElfParts, FunctionPart, SegmentPart, assemble, can_be_made, make_elf};
use rv_decode::{Instr, decode, is_in_range};
use script_lines::{Scene, hex_bytes, number, small_decimal};
use std::alloc::Global;

/// How many functions the crowd has.
const CROWD: u16 = 50_000;

#[derive(Drop)]
pub struct Stage {
    /// The parts of the program that is made next.
    parts: ElfParts,
    /// The file that was made last.
    file: Vec<u8>,
}

/// An instruction by its word; `+` and a number behind it are added to its immediate.
fn instr_of(text: &str) -> Result<Instr> {
    let (word, more) = text.split_once('+').unwrap_or((text, "0"));
    let mut instr = decode(number(word)?).context("no instruction")?;
    let more = (small_decimal(more)? % 0x10000) as i32;
    instr.imm = instr.imm.wrapping_add(more);
    Ok(instr)
}

/// Instructions by their words.
fn instrs_of(alloc: Global, text: &str) -> Result<Vec<Instr>> {
    let mut instrs = Vec::new(alloc);
    for word in text.split_whitespace() {
        instrs.push(instr_of(word)?)?;
    }
    Ok(instrs)
}

/// Tells instructions by their fields.
fn tell_fields(rt: &HostRuntime, instrs: &[Instr]) -> Result<()> {
    for i in instrs {
        print!(rt;
            " {:?} {} {} {} {} {};",
            i.op, i.rd, i.rs1, i.rs2, i.imm, i.order
        )?;
    }
    Ok(())
}

/// Puts an instruction behind the others, if it can stand there, and tells the address behind it.
fn tell_end(rt: &HostRuntime, assembler: &mut Assembler, instr: Instr) -> Result<()> {
    if is_in_range(instr) && assembler.here() < u32::MAX - 3 {
        assembler.put(instr)?;
        print!(rt; " {:x}", assembler.here())?;
    }
    Ok(())
}

/// Tells this of instructions, one behind the other.
fn tell_ends(rt: &HostRuntime, base: u32, instrs: &[Instr]) -> Result<()> {
    let mut assembler = Assembler::new(rt.alloc(), base);
    for instr in instrs {
        tell_end(rt, &mut assembler, *instr)?;
    }
    Ok(())
}

/// Tells bytes.
fn tell_bytes(rt: &HostRuntime, bytes: &[u8]) -> Result<()> {
    print!(rt; " {} bytes", bytes.len())?;
    for byte in bytes {
        print!(rt; " {byte:02x}")?;
    }
    Ok(())
}

/// Tells the code of instructions from an address on.
fn tell_code(rt: &HostRuntime, base: u32, instrs: &[Instr]) -> Result<()> {
    tell_fields(rt, instrs)?;
    tell_ends(rt, base, instrs)?;
    match assemble(rt.alloc(), base, instrs)? {
        Some(code) => tell_bytes(rt, &code),
        None => Ok(print!(rt; " no code")?),
    }
}

/// Tells the code of an address and instructions.
fn tell_assembled(rt: &HostRuntime, words: &str) -> Result<()> {
    let (base, words) = words.split_once(' ').unwrap_or((words, ""));
    let instrs = instrs_of(rt.alloc(), words)?;
    tell_code(rt, number(base)?, &instrs)
}

/// The code of the crowd: functions of four instructions each.
fn crowd_code(alloc: Global) -> Result<Vec<u8>> {
    let mut code = Vec::new(alloc);
    for _ in 0..CROWD {
        code.extend_from_slice(b"\x13\0\0\0\x13\0\0\0\x13\0\0\0\x67\x80\0\0")?;
    }
    Ok(code)
}

/// The functions of the crowd lie one behind the other: the k-th is named `n` and k in six digits, and begins in line
/// 4k + 1.
fn crowd_function(alloc: Global, k: u16) -> Result<FunctionPart> {
    let name = format!(in alloc; "n{k:06}")?;
    let k = u32::from(k);
    Ok(FunctionPart::new(alloc, name.as_bytes(), 0x10000 + 16 * k, 16, 4 * k + 1)?)
}

fn crowd_functions(alloc: Global) -> Result<Vec<FunctionPart>> {
    let mut functions = Vec::new(alloc);
    for k in 0..CROWD {
        functions.push(crowd_function(alloc, k)?)?;
    }
    Ok(functions)
}

/// The parts of the crowd.
fn crowd_parts(alloc: Global) -> Result<ElfParts> {
    let mut parts = ElfParts::of_code(alloc, 0x10000, &crowd_code(alloc)?)?;
    parts.functions = crowd_functions(alloc)?;
    parts.file = Text::from_bytes(alloc, b"many.s")?;
    Ok(parts)
}

/// The file of parts, if there is a program of them.
fn file_of(alloc: Global, parts: &ElfParts) -> Result<Option<Vec<u8>>> {
    if !can_be_made(alloc, parts)? {
        return Ok(None);
    }
    Ok(Some(make_elf(alloc, parts)?))
}

/// The file of the crowd.
fn crowd(alloc: Global) -> Result<Option<Vec<u8>>> {
    let parts = crowd_parts(alloc)?;
    file_of(alloc, &parts)
}

/// The file of the demonstration of a size.
fn demo(alloc: Global, size: &str) -> Result<Option<Vec<u8>>> {
    let size = small_decimal(size)?;
    ensure!(size >= 1 && size <= 100_000, "no such size");
    Ok(Some(demo_program(alloc, size)?))
}

impl Stage {
    pub fn new(alloc: Global) -> Stage {
        Stage {
            parts: ElfParts::new(alloc, 0),
            file: Vec::new(alloc),
        }
    }

    fn add_segment(&mut self, alloc: Global, words: &str) -> Result<()> {
        let ([addr, len, flags], rest) = three(words)?;
        let bytes = hex_bytes(alloc, rest)?;
        let segment = SegmentPart::new(alloc, addr, &bytes, len, flags)?;
        self.parts.segments.push(segment)?;
        Ok(())
    }

    fn add_function(&mut self, alloc: Global, words: &str) -> Result<()> {
        let ([addr, size, line], name) = three(words)?;
        let function = FunctionPart::new(alloc, name.as_bytes(), addr, size, line)?;
        self.parts.functions.push(function)?;
        Ok(())
    }

    fn set_source(&mut self, alloc: Global, name: &str) -> Result<()> {
        self.parts.file = Text::from_bytes(alloc, name.as_bytes())?;
        Ok(())
    }

    /// The file of the parts that were said, if there is a program of them; nothing is said of the next one yet.
    fn made(&mut self, alloc: Global, entry: &str) -> Result<Option<Vec<u8>>> {
        self.parts.entry = number(entry)?;
        let file = file_of(alloc, &self.parts);
        self.parts = ElfParts::new(alloc, 0);
        file
    }

    /// Makes a file, and tells whether there is a program of what is said.
    fn make(&mut self, rt: &HostRuntime, word: &str, rest: &str) -> Result<()> {
        let file = match word {
            "make" => self.made(rt.alloc(), rest),
            "demo" => demo(rt.alloc(), rest),
            _ => crowd(rt.alloc()),
        };
        let Some(file) = file? else {
            return Ok(print!(rt; " no program")?);
        };
        self.file = file;
        print!(rt; " a program")?;
        Ok(())
    }

    /// Tells the code of instructions, or what is asked of the file that was made last.
    fn answer(&mut self, rt: &HostRuntime, word: &str, rest: &str) -> Result<()> {
        match word {
            "assemble" => tell_assembled(rt, rest),
            "elf" => elf::ask(rt, &self.file, rest),
            "names" => names::ask(rt, &self.file, rest),
            "lines" => tell_lines_of(rt, &self.file, rest),
            "make" | "demo" | "crowd" => self.make(rt, word, rest),
            _ => bail!("no such line"),
        }
    }
}

impl Scene for Stage {
    fn follow(&mut self, rt: &HostRuntime, line: &str) -> Result<()> {
        let (word, rest) = line.split_once(' ').unwrap_or((line, ""));
        match word {
            "segment" => return self.add_segment(rt.alloc(), rest),
            "function" => return self.add_function(rt.alloc(), rest),
            "source" => return self.set_source(rt.alloc(), rest),
            _ => {}
        }
        print!(rt; "{line}:")?;
        self.answer(rt, word, rest)?;
        println!(rt)?;
        Ok(())
    }
}
