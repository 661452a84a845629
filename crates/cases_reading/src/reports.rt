//! Reports on a profile.

ghost use Rattle.std.specs.Prelude.{◌≡◌, ◌<◌, map, IfOk, length};
ghost use Rattle.annotate.specs.Files.{AreFilesShown};

use annotate::{ReportOptions, Source, Texts, Tree, files, report};
use anyhow::{Result, bail, ensure};
use cg_read::Profile;
use prof_base::{OutOfMemory, Text};
use script_lines::{Escaped, small_decimal};
use std::alloc::Global;

/// What is known of files, by their names.
pub type Known = Vec<(Vec<u8>, Source)>;

/// What is known of a file; nothing where its name isn't among these.
fn source_of(alloc: Global, name: &Text, known: &Known) -> Result<Source, OutOfMemory> {
    for (file, source) in known {
        if file.as_slice() == name.as_bytes() {
            return match source {
                Source::Found(text) => Ok(Source::Found(text.try_clone(alloc)?)),
                Source::TooLong(count) => Ok(Source::TooLong(*count)),
                Source::Missing => Ok(Source::Missing),
            };
        }
    }
    Ok(Source::Missing)
}

/// The files of these names with what is known of them.
fn with_sources(alloc: Global, names: Vec<Text>, known: &Known) -> Result<Texts, OutOfMemory>
    ensures { IfOk result (λ texts. map (λ t. t.0) texts ≡ names.items) }
{
    let mut items = Vec::new(alloc);
    'names: for name in names {
        let source = source_of(alloc, &name, known)?;
        items.push((name, source))?;
    }
    Ok(Texts { items })
}

/// The files of a report with what is known of them.
fn texts_of(alloc: Global, profile: &Profile, known: &Known) -> Result<Texts, OutOfMemory>
    ensures { IfOk result (λ texts. AreFilesShown profile.now (map (λ t. t.0) texts)) }
{
    with_sources(alloc, files(alloc, profile)?, known)
}

fn tree_of(word: &str) -> Result<Tree> {
    match word {
        "none" => Ok(Tree::Off),
        "caller" => Ok(Tree::Caller),
        "calling" => Ok(Tree::Calling),
        "both" => Ok(Tree::Both),
        _ => bail!("no tree"),
    }
}

/// What the words of a line ask for: the place of the event to sort by, the threshold, the calls that are shown, and
/// whether source texts are.
fn options_of(alloc: Global, profile: &Profile, line: &str) -> Result<ReportOptions>
    ensures { IfOk result (λ options. options.sort < length profile.now.events) }
{
    let mut words = line.split(' ');
    let sort = small_decimal(words.next().unwrap_or(""))? as usize;
    ensure!(sort < profile.events.len(), "no event");
    Ok(ReportOptions {
        sort,
        threshold: small_decimal(words.next().unwrap_or(""))?,
        tree: tree_of(words.next().unwrap_or(""))?,
        auto: words.next() == Some("yes"),
    })
}

/// The report that the words of a line ask for, or why there is none.
fn report_of(alloc: Global, profile: &Profile, known: &Known, line: &str) -> Result<String> {
    let options = options_of(alloc, profile, line)?;
    let texts = texts_of(alloc, profile, known)?;
    match report(alloc, profile, &options, &texts) {
        Ok(text) => Ok(format!(in alloc; "{}", Escaped(text.as_bytes()))?),
        Err(error) => Ok(format!(in alloc; "{error}\n")?),
    }
}

/// What stands below the headline of the functions; of a text without it all.
fn below_functions(text: &str) -> &str {
    match text.split_once("\n\n-- functions\n") {
        Some((_, below)) => below,
        None => text,
    }
}

/// Prints the report that the words of a line ask for, or what stands in it below the headline of the functions.
pub fn print_report(
    rt: &HostRuntime,
    profile: &Profile,
    known: &Known,
    line: &str,
    is_whole: bool,
) -> Result<()> {
    let text = report_of(rt.alloc(), profile, known, line)?;
    let text = text.as_str();
    print!(rt;
        "{}",
        if is_whole {
            text
        } else {
            below_functions(text)
        }
    )?;
    Ok(())
}

/// Prints the files whose source texts a report shows.
pub fn print_files(rt: &HostRuntime, profile: &Profile) -> Result<()> {
    for name in &files(rt.alloc(), profile)? {
        println!(rt; "{}", Escaped(name.as_bytes()))?;
    }
    Ok(())
}
