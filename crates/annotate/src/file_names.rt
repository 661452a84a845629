//! The files whose source texts a report shows.

ghost use Rattle.std.specs.Prelude.{◌≡◌, IfOk};
ghost use Rattle.std.specs.List.Sorted.{IsStrictlySortedBy};
ghost use Rattle.report_rows.specs.Orders.{text_order};
ghost use Rattle.annotate.specs.Files.{AreFilesShown};

use byte_text::{OutOfMemory, Text, TextRef, UNKNOWN};
use cg_read::Profile;
use std::alloc::Global;
use std::collections::BTreeSet;

/// Copies of names, in their order.
fn copies(alloc: Global, names: &BTreeSet<TextRef<'_>>) -> Result<Vec<Text>, OutOfMemory>
    ensures names { IfOk result (λ copies. copies.items ≡ names.now.keys) }
    ensures rising { IsStrictlySortedBy text_order names.now.keys }
{
    let mut copies = Vec::with_capacity(alloc, names.len())?;
    'names: for name in names {
        copies.push(name.to_text(alloc)?)?;
    }
    Ok(copies)
}

/// The files that a report with source texts shows: those of self rows but `???`, each once, in the order of their
/// bytes.
pub fn files(alloc: Global, profile: &Profile) -> Result<Vec<Text>, OutOfMemory>
    ensures { IfOk result (λ names. AreFilesShown profile.now names.items) }
{
    let mut names = BTreeSet::new(alloc);
    // A name may be long, so it is compared with others once, however many rows stand in its file.
    let mut seen = vec![in alloc; false; profile.files.len()]?;
    'rows: for row in &profile.self_rows {
        if seen[row.file] {
            continue;
        }
        seen[row.file] = true;
        let name = profile.files[row.file].as_ref();
        if name.as_bytes() != UNKNOWN {
            names.insert(name)?;
        }
    }
    copies(alloc, &names)
}
