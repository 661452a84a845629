//! Source texts, loaded from a folder.

ghost use Rattle.std.specs.Prelude.{◌≡◌, ◌≤◌, IfOk};
ghost use Rattle.byte_text.specs.Names.{clean_name};
ghost use Rattle.profile_files.specs.Loads.{IsLoad};
ghost use Rattle.source_files.specs.Sources.{AreSources, TellsSource, TellsSources, folder_name, load_behind};
ghost use Rattle.outside.specs.Limits.{text_limit};

use annotate::{Source, Texts};
use byte_text::{OutOfMemory, Text, clean_name};
use outside::{Folder, LoadError, TEXT_LIMIT};
use std::alloc::Global;
use std::str;

/// Loads the source texts of these files, in their order. The folder is asked once for each, under the file's text
/// where that is UTF-8, else under its cleaned form. A text that can't be loaded, or that is longer than 16 MiB, stops
/// nothing.
pub fn load_sources<F: Folder>(
    alloc: Global,
    names: &[Text],
    folder: &mut F,
) -> Result<Texts, OutOfMemory>
    ensures sources { IfOk result (λ texts. AreSources (F.contents folder.old) (F.load_faults folder.old)
        (F.load_faults folder.new) names.now texts) }
    // The folder is asked for each once, in their order, and for nothing else.
    ensures told { TellsSources names.now result (F.calls folder.old) (F.calls folder.new) }
    ensures same_contents { F.contents folder.new ≡ F.contents folder.old }
    ensures never_falls { F.load_faults folder.old ≤ F.load_faults folder.new }
    ensures same_put_faults { F.put_faults folder.new ≡ F.put_faults folder.old }
{
    let mut items = Vec::with_capacity(alloc, names.len())?;
    'names: for name in names {
        let source = load_source(alloc, name, folder)?;
        items.push((name.try_clone(alloc)?, source))?;
    }
    Ok(Texts { items })
}

/// Loads the source text of a file.
fn load_source<F: Folder>(alloc: Global, file: &Text, folder: &mut F) -> Result<Source, OutOfMemory>
    ensures source { IfOk result (λ source. IsLoad (F.contents folder.old) (folder_name file.now) text_limit
        (F.load_faults folder.old) (F.load_faults folder.new) (load_behind source)) }
    ensures told { TellsSource (folder_name file.now) result (F.calls folder.old) (F.calls folder.new) }
    ensures same_contents { F.contents folder.new ≡ F.contents folder.old }
    ensures never_falls { F.load_faults folder.old ≤ F.load_faults folder.new }
    ensures same_put_faults { F.put_faults folder.new ≡ F.put_faults folder.old }
{
    if let Ok(name) = str::from_utf8(file.as_bytes()) {
        return load_text(name, folder);
    }
    let cleaned = clean_name(alloc, file.as_bytes())?;
    match str::from_utf8(cleaned.as_bytes()) {
        Ok(name) => load_text(name, folder),
        Err(_) => unreachable!(),
    }
}

/// Loads the text of this name.
fn load_text<F: Folder>(name: &str, folder: &mut F) -> Result<Source, OutOfMemory>
    ensures source { IfOk result (λ source. IsLoad (F.contents folder.old) name.now text_limit
        (F.load_faults folder.old) (F.load_faults folder.new) (load_behind source)) }
    ensures told { TellsSource name.now result (F.calls folder.old) (F.calls folder.new) }
    ensures same_contents { F.contents folder.new ≡ F.contents folder.old }
    ensures never_falls { F.load_faults folder.old ≤ F.load_faults folder.new }
    ensures same_put_faults { F.put_faults folder.new ≡ F.put_faults folder.old }
{
    match folder.load_text(name, TEXT_LIMIT) {
        Ok(bytes) => Ok(Source::Found(Text { bytes })),
        Err(LoadError::Failed) => Ok(Source::Missing),
        Err(LoadError::TooLong(len)) => Ok(Source::TooLong(len)),
        Err(LoadError::OutOfMemory(refused)) => Err(refused),
    }
}
