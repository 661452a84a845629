//! Cleaned names in files, each once, and their numbers.

ghost use Rattle.std.specs.Prelude.{◌≡◌, ◌<◌, ◌≤◌, ◌+◌, ◌↔◌, ◌∷◌, Some, IfOk, All, Contains, length, map, slice_get};
ghost use Rattle.std.specs.List.Sorted.{IsStrictlySortedBy};
ghost use Rattle.name_numbers.specs.Keys.{NumberEach};
ghost use Rattle.name_numbers.specs.Texts.{IsInFile, texts_at};
ghost use Rattle.name_numbers.specs.FileNames.{by_file_name, file_name, unknown_in};
ghost use Rattle.name_numbers.specs.inner.FileNameKeys.{clean_key, name_of_key};
ghost use Rattle.name_numbers.specs.inner.Ties.{same_ranks};
ghost use Rattle.name_numbers.specs.declared.file_names.FileName.{FileName as FileNameValue};

use crate::clean_names::{CleanNames, clean_names};
use crate::names::Names;
use crate::numbering::numbered_with;
use crate::text_place::TextPlace;
use byte_text::{ExactOrder, OutOfMemory, TextRef};
use std::alloc::Global;
use std::marker::Model;

/// The name of this rank among some names, in the file of this number.
#[derive(Clone, Copy, Debug, PartialEq, Eq, PartialOrd, Ord)]
pub struct RankInFile {
    pub file: u32,
    pub rank: usize,
}

impl ExactOrder for RankInFile {
    ghost exact = { same_ranks };
}

/// A cleaned name in the file of this number.
#[derive(Debug, Drop)]
pub struct FileName<'a> {
    pub file: u32,
    pub name: TextRef<'a>,
}

/// The number of a file, and where a cleaned name stands.
#[derive(Clone, Copy, Debug)]
pub(crate) struct FileNameAt {
    file: u32,
    name: TextPlace,
}

/// Names in files by their numbers. The names stand in bytes that they share.
#[derive(Drop)]
pub struct FileNames {
    bytes: Vec<u8>,
    items: Vec<FileNameAt>,
}

impl Model for FileNames {
    ghost use Rattle.std.specs.Prelude.{List, All, map};
    ghost use Rattle.name_numbers.specs.declared.file_names.FileName.{FileName};
    ghost use Rattle.name_numbers.specs.declared.file_names.FileNameAt.{FileNameAt};
    ghost use Rattle.name_numbers.specs.inner.FileNamePlaces.{name_at};
    ghost use Rattle.name_numbers.specs.Texts.{IsInFile};

    ghost Value = { List FileName };

    ghost view = { λ f. map (name_at f.bytes.items) f.items.items };

    ghost invariant = { λ f. All (λ (item : FileNameAt). IsInFile f.bytes.items item.name) f.items.items };
}

impl FileNames {
    /// How many there are.
    pub fn len(&self) -> usize
        ensures { result ≡ length self.now }
    {
        self.items.len()
    }

    /// The name of a number.
    pub fn get(&self, number: usize) -> FileName<'_>
        requires { number < length self.now }
        ensures { slice_get self.now number ≡ Some result }
    {
        let FileNameAt { file, name } = self.items[number];
        let name = TextRef::new(&self.bytes[name.start..name.end]);
        FileName { file, name }
    }

    /// The same names once more.
    pub fn try_clone(&self, alloc: Global) -> Result<FileNames, OutOfMemory>
        ensures { IfOk result (λ names. names ≡ self.now) }
    {
        let mut bytes = Vec::new(alloc);
        bytes.extend_from_slice(&self.bytes)?;
        let mut items = Vec::new(alloc);
        items.extend_from_slice(&self.items)?;
        Ok(FileNames { bytes, items })
    }
}

/// The same keys, where the names of these ranks have these ranks once cleaned.
fn clean_keys(
    alloc: Global,
    keys: &[RankInFile],
    ranks: &[usize],
) -> Result<Vec<RankInFile>, OutOfMemory>
    requires { All (λ key. key.rank < length ranks.now) keys.now }
    ensures { IfOk result (λ clean. clean.items ≡ map (clean_key ranks.now) keys.now) }
{
    let mut clean = Vec::with_capacity(alloc, keys.len() + 1)?;
    'keys: for key in keys {
        let rank = ranks[key.rank];
        clean.push(RankInFile { rank, ..*key })?;
    }
    Ok(clean)
}

/// The names of these keys, which stand at these places of the bytes.
fn names_at(
    alloc: Global,
    bytes: Vec<u8>,
    places: &[TextPlace],
    keys: &[RankInFile],
) -> Result<FileNames, OutOfMemory>
    requires ranks { All (λ key. key.rank < length places.now) keys.now }
    requires in_file { All (IsInFile bytes.items) places.now }
    ensures { IfOk result (λ names. names ≡ map (name_of_key (texts_at bytes.items places.now)) keys.now) }
{
    let mut items = Vec::with_capacity(alloc, keys.len())?;
    'keys: for key in keys {
        items.push(FileNameAt {
            file: key.file,
            name: places[key.rank],
        })?;
    }
    Ok(FileNames { bytes, items })
}

/// Names in files, and the numbers of those of a list.
#[derive(Drop)]
pub struct NumberedNames {
    /// Each once, by the file and then by the bytes of the name.
    pub names: FileNames,
    pub numbers: Vec<usize>,
    /// The number of `???`, which stands where no name is known.
    pub unknown: usize,
}

/// Cleans the names of these ranks, and numbers them in their files, with `???` in the file of this number. Equal names
/// in different files are different. The only refusal is want of memory.
pub fn number_file_names(
    alloc: Global,
    names: &Names<'_>,
    keys: &[RankInFile],
    unknown_file: u32,
) -> Result<NumberedNames, OutOfMemory>
    requires { All (λ key. key.rank < length names.now) keys.now }
    ensures rise { IfOk result (λ n. IsStrictlySortedBy by_file_name n.names) }
    ensures same { IfOk result (λ n. (name : FileNameValue) → Contains n.names name
        ↔ Contains (unknown_in unknown_file ∷ map (file_name names.now) keys.now) name) }
    ensures few { IfOk result (λ n. length n.names ≤ length keys.now + 1) }
    ensures each { IfOk result (λ n. NumberEach n.names n.numbers.items (map (file_name names.now) keys.now)) }
    ensures unknown { IfOk result (λ n. slice_get n.names n.unknown ≡ Some (unknown_in unknown_file)) }
{
    let CleanNames {
        bytes,
        places,
        ranks,
        unknown,
    } = clean_names(alloc, names)?;
    let clean = clean_keys(alloc, keys, &ranks)?;
    let unknown = RankInFile {
        file: unknown_file,
        rank: unknown,
    };
    let apart = numbered_with(alloc, clean, unknown)?;
    let names = names_at(alloc, bytes, &places, &apart.keys)?;
    Ok(NumberedNames {
        names,
        numbers: apart.numbers,
        unknown: apart.last,
    })
}
