//! The files that are to be read.

ghost use Rattle.std.specs.Prelude.{◌≡◌, IfOk, map, string_bytes};
ghost use Rattle.profile_files.specs.WantedFile.{with_limit};

use byte_text::OutOfMemory;
use std::alloc::Global;
use std::marker::Model;

/// A file that is to be read: its name, and the most bytes that it may have.
#[derive(Debug, Drop)]
pub struct WantedFile<'a> {
    pub name: &'a str,
    /// In bytes.
    pub limit: u64,
}

impl<'a> Model for WantedFile<'a> {
    ghost use Rattle.profile_files.specs.WantedFile.{WantedFile as View};

    ghost Value = { View };

    ghost view = { λ w. record { name = w.name.now; limit = w.limit } };
}

/// The files of these names, each with this limit.
pub fn with_limit(
    alloc: Global,
    names: &[String],
    limit: u64,
) -> Result<Vec<WantedFile<'_>>, OutOfMemory>
    ensures { IfOk result (λ files. files.items ≡ map (λ name. with_limit limit (string_bytes name)) names.now) }
{
    let mut files = Vec::with_capacity(alloc, names.len())?;
    'names: for name in names {
        files.push(WantedFile {
            name: name.as_str(),
            limit,
        })?;
    }
    Ok(files)
}
