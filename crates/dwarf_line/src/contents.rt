//! A unit's header with its tables, and its program (DWARF 5, 6.2.4).

ghost use Rattle.std.specs.Prelude.{◌≡◌, ◌≤◌, length, IfOk};
ghost use Rattle.dwarf_line.specs.inner.Contents.{contents_in};
ghost use Rattle.dwarf_line.specs.inner.Reads.{GivesAs};
ghost use Rattle.dwarf_line.specs.Unit.{contents_of};

use crate::cursor::Cursor;
use crate::entry::{Entry, Strings};
use crate::fault::Fault;
use crate::header::{self, Header};
use crate::table;
use std::alloc::Global;
use std::marker::Model;

/// What a unit holds, but for the texts of its files and its rows.
#[derive(Drop)]
pub struct Contents<'a> {
    pub constants: Header<'a>,
    pub program: &'a [u8],
    pub directories: Vec<Entry<'a>>,
    pub files: Vec<Entry<'a>>,
}

impl<'a> Model for Contents<'a> {
    ghost use Rattle.dwarf_line.specs.inner.Contents.{PlacedContents};

    ghost Value = { PlacedContents };

    ghost view = { λ c. record {
      constants = c.constants;
      program = c.program.now;
      directories = c.directories.items;
      files = c.files.items;
    } };
}

impl<'a> Contents<'a> {
    /// The contents of a unit that is given without its length. Each file takes a byte at least.
    #[tactic(auto, unfolding(crate::specs::Unit::contents_of))]
    pub fn read(alloc: Global, body: &'a [u8], strings: &Strings<'a>) -> Result<Contents<'a>, Fault>
        ensures read { GivesAs (contents_in strings.now) result (contents_of strings.now body.now) }
        ensures room { IfOk result (λ contents. length contents.files ≤ length body.now) }
    {
        let (header, program) = header::parts(body).ok_or(Fault::Damaged)?;
        let mut cursor = Cursor::new(header);
        let constants = Header::read(&mut cursor).ok_or(Fault::Damaged)?;
        let directories = table::read(alloc, strings, &mut cursor)?;
        let files = table::read(alloc, strings, &mut cursor)?;
        Ok(Contents {
            constants,
            program,
            directories,
            files,
        })
    }
}
