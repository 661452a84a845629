//! What is read of ELF files: each line is a file and what is asked of it. `first N` cuts it, `15=1000` changes a word of
//! it, by its index and its new value; then it is told whether the file is accepted, and where the names of its symbols
//! stand. What the compiled `elf/hello` holds is what `readelf` prints of it.

use crate::words::{NO_BYTES, fnv, text};
use anyhow::{Context, Result, bail, ensure};
use elf_read::{Elf, read};
use script_lines::{number, small_decimal};

/// Changes a word, by its index in decimal and its new value in hexadecimal digits.
fn change(bytes: &mut [u8], change: &str) -> Result<()> {
    let (index, value) = change.split_once('=').context("no `=`")?;
    let place = (small_decimal(index)? % 0x10000 * 4) as usize;
    ensure!(place + 4 <= bytes.len(), "the word isn't in the file");
    let word = number(value)?;
    bytes[place..place + 4].copy_from_slice(&word.to_le_bytes());
    Ok(())
}

/// Tells what comes of reading the bytes.
fn tell(rt: &HostRuntime, bytes: &[u8]) -> Result<()> {
    match read(rt.alloc(), bytes) {
        Ok(elf) => tell_names(rt, &elf),
        Err(error) => Ok(print!(rt; " {error:?}")?),
    }
}

/// Tells where the names of the symbols stand.
fn tell_names(rt: &HostRuntime, elf: &Elf<'_>) -> Result<()> {
    print!(rt; " accepted")?;
    for i in 0..elf.symbol_count() {
        let name = elf.symbol(i).name;
        print!(rt; " {}..{}", name.start, name.end)?;
    }
    Ok(())
}

/// Tells the entry, where the program headers stand, and of each segment its place in the file, its address, its
/// lengths in the file and in memory, its flags, and the sum of its bytes.
fn tell_segments(rt: &HostRuntime, elf: &Elf<'_>) -> Result<()> {
    let headers = elf.headers_addr().unwrap_or(0);
    print!(rt;
        " entry {:x}, {} headers at {headers:x}",
        elf.entry(),
        elf.header_count()
    )?;
    for i in 0..elf.segment_count() {
        let s = elf.segment(i);
        let end = (s.offset as usize).saturating_add(s.file_len as usize);
        let content = elf.file().get(s.offset as usize..end).unwrap_or(b"");
        let sum = fnv(NO_BYTES, content);
        print!(rt;
            "\n  {:x} {:x} {:x} {:x} {} {sum:x}",
            s.offset, s.addr, s.file_len, s.mem_len, s.flags
        )?;
    }
    Ok(())
}

/// Tells of each section its name, type, flags, address, place in the file, and length.
fn tell_sections(rt: &HostRuntime, elf: &Elf<'_>) -> Result<()> {
    for i in 0..elf.section_count() {
        let s = elf.section_at(i);
        let name = text(elf.bytes(s.name));
        print!(rt;
            "\n  \"{name}\" {:x} {:x} {:x} {:x} {:x}",
            s.kind, s.flags, s.addr, s.offset, s.size
        )?;
    }
    Ok(())
}

/// Tells of each symbol its name, value, size, type, binding and section.
fn tell_symbols(rt: &HostRuntime, elf: &Elf<'_>) -> Result<()> {
    for i in 0..elf.symbol_count() {
        let s = elf.symbol(i);
        let name = text(elf.bytes(s.name));
        print!(rt;
            "\n  \"{name}\" {:x} {} {} {} {:x}",
            s.value, s.size, s.kind, s.binding, s.section
        )?;
    }
    Ok(())
}

/// Tells where the first section of a name stands, and how many bytes it has.
fn tell_section(rt: &HostRuntime, elf: &Elf<'_>, name: &str) -> Result<()> {
    match elf.section(name.as_bytes()) {
        Some(section) => {
            let len = elf.content(name.as_bytes()).len();
            print!(rt; " {}, {len} bytes", section.offset)?
        }
        None => print!(rt; " nothing")?,
    }
    Ok(())
}

/// Tells what is asked of a file that was read.
fn ask_read(rt: &HostRuntime, elf: &Elf<'_>, question: &str) -> Result<()> {
    match question.split_once(' ').unwrap_or((question, "")) {
        ("segments", _) => tell_segments(rt, elf),
        ("sections", _) => tell_sections(rt, elf),
        ("symbols", _) => tell_symbols(rt, elf),
        ("length", _) => Ok(print!(rt; " {} bytes", elf.file().len())?),
        ("count", _) => Ok(print!(rt; " {} symbols", elf.symbol_count())?),
        ("find", name) => tell_section(rt, elf, name),
        _ => bail!("no such question"),
    }
}

/// Tells what is asked of a file that is accepted.
pub fn ask(rt: &HostRuntime, bytes: &[u8], question: &str) -> Result<()> {
    let elf = read(rt.alloc(), bytes)?;
    ask_read(rt, &elf, question)
}

/// Tells what comes of reading a file in which words are changed.
fn tell_changed(rt: &HostRuntime, bytes: &[u8], changes: &str) -> Result<()> {
    let mut bytes = bytes.to_vec(rt.alloc())?;
    for word in changes.split_whitespace() {
        change(&mut bytes, word)?;
    }
    tell(rt, &bytes)
}

/// Tells what comes of a file that is cut or changed, or what is asked of it.
pub fn answer(rt: &HostRuntime, bytes: &[u8], question: &str) -> Result<()> {
    if let Some(len) = question.strip_prefix("first ") {
        let len = small_decimal(len)? as usize;
        return tell(rt, bytes.get(..len).unwrap_or(bytes));
    }
    if question.contains('=') {
        return tell_changed(rt, bytes, question);
    }
    ask(rt, bytes, question)
}
