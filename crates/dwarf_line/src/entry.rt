//! An entry of a table of directories or files, read by the table's format.

ghost use Rattle.std.specs.Prelude.{◌≡◌, ◌+◌, ◌<◌, ◌≤◌, ◌^◌, length, IfOk, OnSome};
ghost use Rattle.std.specs.Prelude.{IsTrue, []};
ghost use Rattle.dwarf_line.specs.Entry.{StringSections};
ghost use Rattle.dwarf_line.specs.inner.Paths.{path_in, entry_in, text_from};
ghost use Rattle.dwarf_line.specs.inner.Reads.{Reads, ReadsAs, Passes};
ghost use Rattle.dwarf_line.specs.Table.{string_at, index_at, behind, field_at, entry_at, pointed_at};

use crate::cursor::Cursor;
use crate::form::{Field, Form, IndexForm, TextForm};
use std::alloc::{AllocError, Global};
use std::marker::Model;
use text_ends::Texts;

/// The sections `.debug_line_str` and `.debug_str`, which hold the texts that a unit only points to.
#[derive(Drop)]
pub struct Strings<'a> {
    line_str: Texts<'a>,
    strings: Texts<'a>,
}

impl<'a> Model for Strings<'a> {
    ghost use Rattle.dwarf_line.specs.Entry.{StringSections};

    ghost Value = { StringSections };

    ghost view = { λ s. record { line_str = s.line_str; strings = s.strings } };
}

/// Where a path stands: in place, or at an offset in one of the two sections.
#[derive(Drop)]
pub struct Path<'a> {
    form: TextForm,
    inline: &'a [u8],
    offset: u32,
}

impl<'a> Model for Path<'a> {
    ghost use Rattle.dwarf_line.specs.inner.Paths.{PlacedPath};

    ghost Value = { PlacedPath };

    ghost view = { λ p. record { form = p.form; inline = p.inline.now; offset = p.offset } };
}

impl<'a> Path<'a> {
    /// The path at an offset of the section that a form names.
    fn at(form: TextForm, offset: u32) -> Path<'a>
        ensures { result ≡ record { form = form; inline = []; offset = offset } }
    {
        Path {
            form,
            inline: &[],
            offset,
        }
    }
}

/// A directory or a file.
#[derive(Drop)]
pub struct Entry<'a> {
    path: Path<'a>,
    directory: u64,
}

impl<'a> Model for Entry<'a> {
    ghost use Rattle.dwarf_line.specs.inner.Paths.{PlacedEntry};

    ghost Value = { PlacedEntry };

    ghost view = { λ e. record { path = e.path; directory = e.directory } };
}

/// The text at an offset of a section, which is empty where there is none.
#[tactic(auto, unfolding(crate::specs::Bytes::up_to))]
fn text_from<'a>(section: &Texts<'a>, offset: u32) -> &'a [u8]
    ensures { result.now ≡ text_from section.now offset }
{
    let offset = offset as usize;
    if offset > section.bytes().len() {
        return &[];
    }
    match section.text_at(offset) {
        Some(text) => text,
        None => &[],
    }
}

impl<'a> Strings<'a> {
    /// Finds the ends of all texts of both sections.
    pub fn new(
        alloc: Global,
        line_str: &'a [u8],
        strings: &'a [u8],
    ) -> Result<Strings<'a>, AllocError>
        requires line_str_len { length line_str.now < 2 ^ 32 }
        requires strings_len { length strings.now < 2 ^ 32 }
        ensures { IfOk result (λ s. s ≡ record { line_str = line_str.now; strings = strings.now }) }
    {
        Ok(Strings {
            line_str: Texts::new(alloc, line_str)?,
            strings: Texts::new(alloc, strings)?,
        })
    }

    /// The offset in front of the cursor, of a text that the section given has.
    #[tactic(auto, unfolding(crate::specs::Table::pointed_at))]
    fn pointed(section: &Texts<'a>, cursor: &mut Cursor<'_>) -> Option<u32>
        ensures read { ReadsAs (text_from section.now) (pointed_at section.now) cursor.old result cursor.new }
        ensures shrinks { OnSome result (length cursor.new < length cursor.old) }
    {
        let offset = cursor.u32()?;
        if offset as usize > section.bytes().len() {
            return None;
        }
        section.text_at(offset as usize)?;
        Some(offset)
    }

    /// A text in one of its three places.
    fn text(&self, form: TextForm, cursor: &mut Cursor<'a>) -> Option<Path<'a>>
        ensures read { ReadsAs (path_in self.now) (string_at self.now form) cursor.old result cursor.new }
        ensures shrinks { OnSome result (length cursor.new < length cursor.old) }
    {
        match form {
            TextForm::Inline => Some(Path {
                form,
                inline: cursor.text()?,
                offset: 0,
            }),
            TextForm::LineStrp => Some(Path::at(form, Strings::pointed(&self.line_str, cursor)?)),
            TextForm::Strp => Some(Path::at(form, Strings::pointed(&self.strings, cursor)?)),
        }
    }

    /// The path of an entry.
    pub fn path(&self, entry: &Entry<'a>) -> &'a [u8]
        ensures { result.now ≡ (entry_in self.now entry.now).path }
    {
        let path = &entry.path;
        match path.form {
            TextForm::Inline => path.inline,
            TextForm::LineStrp => text_from(&self.line_str, path.offset),
            TextForm::Strp => text_from(&self.strings, path.offset),
        }
    }

    /// Passes over a value of this form.
    fn pass(&self, form: Form, cursor: &mut Cursor<'a>) -> Option<()>
        ensures read { Passes (behind self.now form) cursor.old result cursor.new }
        ensures shrinks { OnSome result (length cursor.new < length cursor.old) }
    {
        match form {
            Form::Text(form) => {
                self.text(form, cursor)?;
            }
            Form::Index(form) => {
                index(form, cursor)?;
            }
            Form::Data4 => {
                cursor.bytes(4)?;
            }
            Form::Data8 => {
                cursor.bytes(8)?;
            }
            Form::Data16 => {
                cursor.bytes(16)?;
            }
            Form::Block => {
                let count = cursor.uleb128()?;
                cursor.bytes(count)?;
            }
        }
        Some(())
    }
}

/// The number of a directory.
fn index(form: IndexForm, cursor: &mut Cursor<'_>) -> Option<u64>
    ensures read { Reads (index_at form) cursor.old result cursor.new }
    ensures shrinks { OnSome result (length cursor.new < length cursor.old) }
{
    match form {
        IndexForm::Data1 => Some(u64::from(cursor.u8()?)),
        IndexForm::Data2 => Some(u64::from(cursor.u16()?)),
        IndexForm::Udata => cursor.uleb128(),
    }
}

impl<'a> Entry<'a> {
    /// Whether both are at one place of another section, and in one directory.
    pub fn is_at_place_of(&self, other: &Entry<'a>) -> bool
        ensures { IsTrue result → (strings : StringSections)
            → entry_in strings self.now ≡ entry_in strings other.now }
    {
        let path = &self.path;
        path.form != TextForm::Inline
            && path.form == other.path.form
            && path.offset == other.path.offset
            && self.directory == other.directory
    }

    /// The number of the directory that the path is relative to.
    pub fn directory(&self) -> u64
        ensures { result ≡ self.now.directory }
    {
        self.directory
    }

    /// The entry with one field more.
    #[tactic(auto, unfolding(crate::specs::Table::field_at))]
    fn with_field(
        self,
        field: Field,
        strings: &Strings<'a>,
        cursor: &mut Cursor<'a>,
    ) -> Option<Entry<'a>>
        ensures read { ReadsAs (entry_in strings.now) (field_at strings.now field (entry_in strings.now self.entry))
            cursor.old result cursor.new }
        ensures shrinks { OnSome result (length cursor.new < length cursor.old) }
    {
        match field {
            Field::Path(form) => Some(Entry {
                path: strings.text(form, cursor)?,
                directory: self.directory,
            }),
            Field::Directory(form) => Some(Entry {
                path: self.path,
                directory: index(form, cursor)?,
            }),
            Field::Other(form) => {
                strings.pass(form, cursor)?;
                Some(self)
            }
        }
    }

    /// The next entry of a table with this format. Each field takes a byte at least.
    #[tactic(auto, unfolding(crate::specs::Table::entry_at))]
    pub fn read(
        format: &[Field],
        strings: &Strings<'a>,
        cursor: &mut Cursor<'a>,
    ) -> Option<Entry<'a>>
        ensures read { ReadsAs (entry_in strings.now) (entry_at strings.now format.now) cursor.old result cursor.new }
        ensures shrinks { OnSome result (length cursor.new + length format.now ≤ length cursor.old) }
    {
        let mut entry = Entry {
            path: Path {
                form: TextForm::Inline,
                inline: &[],
                offset: 0,
            },
            directory: 0,
        };
        'fields: for field in format {
            entry = entry.with_field(*field, strings, cursor)?;
        }
        Some(entry)
    }
}
