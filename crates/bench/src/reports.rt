//! Writes the report on a profile with a made source text.

ghost use Rattle.std.specs.Prelude.{◌≡◌, map, IfOk};

use annotate::{ReportOptions, Source, Texts, Tree, files, report};
use byte_text::Text;
use cg_read::{Profile, read_file};
use std::alloc::{AllocError, Global};

/// A text of so many lines.
fn source(alloc: Global, lines: u32) -> Result<Text, AllocError> {
    let bytes = b"    let sum = sum + items[place];\n".repeat(alloc, lines as usize)?;
    Ok(Text { bytes })
}

/// The same text for each of these files.
fn texts_of(alloc: Global, names: Vec<Text>, lines: u32) -> Result<Texts, AllocError>
    ensures { IfOk result (λ texts. map (λ t. t.0) texts ≡ names.items) }
{
    let mut items = Vec::new(alloc);
    'names: for name in names {
        items.push((name, Source::Found(source(alloc, lines)?)))?;
    }
    Ok(Texts { items })
}

/// The length of the whole report.
fn length_of(alloc: Global, profile: &Profile, lines: u32) -> Option<u64> {
    let sort = profile.event_index("Ir")?;
    let names = files(alloc, profile).ok()?;
    let texts = texts_of(alloc, names, lines).ok()?;
    let options = ReportOptions {
        sort,
        threshold: 0,
        tree: Tree::Both,
        auto: true,
    };
    let report = report(alloc, profile, &options, &texts).ok()?;
    Some(report.len() as u64)
}

/// `@FILE FORM LINES`: reads the profile, and where FORM is `whole` and not `read`, writes the report on it, with a source
/// text of so many lines.
pub fn reports(alloc: Global, file: &[u8], form: &str, numbers: &[u32]) -> Option<u64> {
    let &[lines] = numbers else {
        return None;
    };
    let profile = read_file(alloc, file).ok()?;
    match form {
        "read" => Some(profile.self_rows.len() as u64),
        "whole" => length_of(alloc, &profile, lines),
        _ => None,
    }
}
