//! The texts of files (DWARF 5, 6.2.4): a path, behind its directory where it is relative.

ghost use Rattle.std.specs.Prelude.{◌≡◌, ◌++◌, ◌+◌, ◌≤◌, ◌^◌, length, map, option_map, slice_get, IfOk, OnOk};
ghost use Rattle.dwarf_line.specs.FileText.{is_absolute, root_path, directory_text, file_text};
ghost use Rattle.dwarf_line.specs.inner.Paths.{entry_in};

use crate::entry::{Entry, Strings};
use crate::files::Files;
use byte_text::{OutOfMemory, Text};
use std::alloc::{AllocError, Global};

fn is_absolute(path: &[u8]) -> bool
    ensures { result ≡ is_absolute path.now }
{
    match path {
        [first, ..] => *first == b'/',
        [] => false,
    }
}

/// The path of a number's directory; nothing where the number has none.
fn path_of<'a>(strings: &Strings<'a>, directories: &[Entry<'a>], index: usize) -> Option<&'a [u8]>
    ensures { option_map (λ p. p.now) result
        ≡ option_map (λ entry. entry.path) (slice_get (map (entry_in strings.now) directories.now) index) }
{
    match directories.get(index) {
        Some(directory) => Some(strings.path(directory)),
        None => None,
    }
}

/// The path of directory 0, which is empty where there is none.
fn root_path<'a>(strings: &Strings<'a>, directories: &[Entry<'a>]) -> &'a [u8]
    ensures { result.now ≡ root_path (map (entry_in strings.now) directories.now) }
{
    match path_of(strings, directories, 0) {
        Some(path) => path,
        None => &[],
    }
}

/// Adds the text of a number's directory.
fn push_directory<'a>(
    text: &mut Vec<u8>,
    strings: &Strings<'a>,
    directories: &[Entry<'a>],
    index: u64,
) -> Result<(), AllocError>
    ensures { OnOk result (text.new.items
        ≡ text.old.items ++ directory_text (map (entry_in strings.now) directories.now) index) }
{
    let Some(path) = path_of(strings, directories, index as usize) else {
        return Ok(());
    };
    if index == 0 || is_absolute(path) {
        return text.extend_from_slice(path);
    }
    text.extend_from_slice(root_path(strings, directories))?;
    text.push(b'/')?;
    text.extend_from_slice(path)
}

/// The text of a file.
fn file_text<'a>(
    alloc: Global,
    strings: &Strings<'a>,
    directories: &[Entry<'a>],
    file: &Entry<'a>,
) -> Result<Text, AllocError>
    ensures { IfOk result (λ text. text
        ≡ file_text (map (entry_in strings.now) directories.now) (entry_in strings.now file.now)) }
{
    let mut bytes = Vec::new(alloc);
    let path = strings.path(file);
    if !is_absolute(path) {
        push_directory(&mut bytes, strings, directories, file.directory())?;
        if !bytes.is_empty() {
            bytes.push(b'/')?;
        }
    }
    bytes.extend_from_slice(path)?;
    Ok(Text { bytes })
}

/// Adds the texts of a unit's files, in their order. A file has the text of the one before where both stand at one place
/// in one directory.
pub fn push_texts<'a>(
    alloc: Global,
    strings: &Strings<'a>,
    directories: &[Entry<'a>],
    files: &[Entry<'a>],
    texts: &mut Files,
) -> Result<(), OutOfMemory>
    requires { length texts.old + length files.now ≤ 2 ^ 32 }
    ensures { OnOk result (texts.new ≡ texts.old ++ map (file_text (map (entry_in strings.now) directories.now))
        (map (entry_in strings.now) files.now)) }
{
    'files: for i in 0..files.len() {
        let file = &files[i];
        if i > 0 && file.is_at_place_of(&files[i - 1]) {
            texts.push_again()?;
        } else {
            texts.push(file_text(alloc, strings, directories, file)?)?;
        }
    }
    Ok(())
}
