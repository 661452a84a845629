//! Bytes as the words of a script: `;` is a line feed, and `\` with two hexadecimal digits any byte.

use crate::words::{file_bytes, number};
use anyhow::{Context, Result};
use std::alloc::{AllocError, Global};
use std::fmt::{Display, Error, Formatter, Write};

/// Adds what stands between two bytes that are given by digits.
fn push_lines(bytes: &mut Vec<u8>, text: &str) -> std::result::Result<(), AllocError> {
    for byte in text.as_bytes() {
        bytes.push(if *byte == b';' { b'\n' } else { *byte })?;
    }
    Ok(())
}

/// Adds the byte that the first two digits give, and what stands behind them.
fn push_piece(bytes: &mut Vec<u8>, piece: &str) -> Result<()> {
    let digits = piece.get(..2).context("two digits")?;
    bytes.push((number(digits)? % 256) as u8)?;
    push_lines(bytes, piece.get(2..).unwrap_or(""))?;
    Ok(())
}

/// The bytes that a text stands for.
pub fn bytes_of(alloc: Global, text: &str) -> Result<Vec<u8>> {
    let mut bytes = Vec::new(alloc);
    let mut pieces = text.split('\\');
    push_lines(&mut bytes, pieces.next().unwrap_or(""))?;
    for piece in pieces {
        push_piece(&mut bytes, piece)?;
    }
    Ok(bytes)
}

/// The bytes of a file where the text is `@` and its name, else those that the text stands for.
pub fn file_or_bytes(rt: &HostRuntime, text: &str) -> Result<Vec<u8>> {
    match text.strip_prefix('@') {
        Some(name) => file_bytes(rt, name),
        None => bytes_of(rt.alloc(), text),
    }
}

/// Bytes whose line feeds stand for themselves.
#[derive(Clone, Copy)]
pub struct Escaped<'a>(pub &'a [u8]);

fn show_byte<W: Write>(f: &mut Formatter<W>, byte: u8) -> std::result::Result<(), Error> {
    match byte {
        b'\n' | 0x20..=0x5b | 0x5d..=0x7e => write!(f, "{}", char::from(byte)),
        other => write!(f, "\\{other:02x}"),
    }
}

impl Display for Escaped<'_> {
    fn fmt<W: Write>(&self, f: &mut Formatter<W>) -> std::result::Result<(), Error> {
        for byte in self.0 {
            show_byte(f, *byte)?;
        }
        Ok(())
    }
}

/// Numbers, each behind a space.
#[derive(Clone, Copy)]
pub struct Numbers<'a>(pub &'a [u64]);

impl Display for Numbers<'_> {
    fn fmt<W: Write>(&self, f: &mut Formatter<W>) -> std::result::Result<(), Error> {
        for number in self.0 {
            write!(f, " {number}")?;
        }
        Ok(())
    }
}
