//! The tables of directories and of files in a unit's header (DWARF 5, 6.2.4).

ghost use Rattle.std.specs.Prelude.{◌≡◌, ◌+◌, ◌<◌, ◌≤◌, length, map, vec_len, IfOk, OnSome};
ghost use Rattle.dwarf_line.specs.Bytes.{many_at};
ghost use Rattle.dwarf_line.specs.inner.Paths.{entry_in};
ghost use Rattle.dwarf_line.specs.inner.Reads.{Reads, ReadsOr};
ghost use Rattle.dwarf_line.specs.Table.{pair_at, entry_at, table_at};

use crate::cursor::Cursor;
use crate::entry::{Entry, Strings};
use crate::fault::Fault;
use crate::form::{Field, Form};
use std::alloc::Global;

/// A content code and a form code.
#[tactic(auto, unfolding(crate::specs::Table::pair_at))]
fn field(cursor: &mut Cursor<'_>) -> Option<Field>
    ensures read { Reads pair_at cursor.old result cursor.new }
    ensures shrinks { OnSome result (length cursor.new < length cursor.old) }
{
    let content = cursor.uleb128()?;
    let form = Form::from_code(cursor.uleb128()?)?;
    Field::from_pair(content, form)
}

/// A table's format, which has so many fields.
fn format(alloc: Global, count: u8, cursor: &mut Cursor<'_>) -> Result<Vec<Field>, Fault>
    ensures read { ReadsOr (λ v. v.items) (many_at pair_at count) cursor.old result cursor.new }
    ensures len { IfOk result (λ v. vec_len v ≡ count) }
    ensures shrinks { IfOk result (λ _. length cursor.new ≤ length cursor.old) }
{
    let mut fields = Vec::new(alloc);
    'fields: for _ in 0..count {
        let field = field(cursor).ok_or(Fault::Damaged)?;
        fields.push(field)?;
    }
    Ok(fields)
}

/// So many entries of a table with this format.
fn entries<'a>(
    alloc: Global,
    format: &[Field],
    count: u64,
    strings: &Strings<'a>,
    cursor: &mut Cursor<'a>,
) -> Result<Vec<Entry<'a>>, Fault>
    requires { 0 < count → 0 < length format.now }
    ensures read { ReadsOr (λ v. map (entry_in strings.now) v.items) (many_at (entry_at strings.now format.now) count)
        cursor.old result cursor.new }
    ensures room { IfOk result (λ v. vec_len v + length cursor.new ≤ length cursor.old) }
{
    let mut entries = Vec::new(alloc);
    'entries: for _ in 0..count {
        let entry = Entry::read(format, strings, cursor).ok_or(Fault::Damaged)?;
        entries.push(entry)?;
    }
    Ok(entries)
}

/// A whole table, its format in front. Each entry takes a byte at least.
#[tactic(auto, unfolding(crate::specs::Table::table_at))]
pub fn read<'a>(
    alloc: Global,
    strings: &Strings<'a>,
    cursor: &mut Cursor<'a>,
) -> Result<Vec<Entry<'a>>, Fault>
    ensures read { ReadsOr (λ v. map (entry_in strings.now) v.items) (table_at strings.now)
        cursor.old result cursor.new }
    ensures room { IfOk result (λ v. vec_len v + length cursor.new ≤ length cursor.old) }
{
    let fields = cursor.u8().ok_or(Fault::Damaged)?;
    let format = format(alloc, fields, cursor)?;
    let count = cursor.uleb128().ok_or(Fault::Damaged)?;
    if fields == 0 && count > 0 {
        return Err(Fault::Damaged);
    }
    entries(alloc, &format, count, strings, cursor)
}
