//! Profiles that are read, joined and reported.

ghost use Rattle.std.specs.Prelude.{◌≡◌};

use crate::groups::print_groups;
use crate::reports::{Known, print_files, print_report};
use crate::rows::{print_counts, print_rows};
use annotate::Source;
use anyhow::{Context, Result, bail};
use cg_read::{AddrProfile, Profile, is_addr_file, read_addr_file, read_any, read_file};
use prof_base::Text;
use script_lines::{Scene, bytes_of, decimal, file_or_bytes};
use std::alloc::Global;

/// What is known of a file: how many bytes it has, or its text.
fn source_of(alloc: Global, word: &str, told: &str) -> Result<Source> {
    if word == "long" {
        return Ok(Source::TooLong(decimal(told)?));
    }
    let bytes = bytes_of(alloc, told)?;
    Ok(Source::Found(Text { bytes }))
}

/// The profile that was read last, and what is known of its files.
#[derive(Drop)]
pub struct Stage {
    alloc: Global,
    profile: Option<Profile>,
    known: Known,
}

impl Stage {
    pub fn new(alloc: Global) -> Stage {
        Stage {
            alloc,
            profile: None,
            known: Vec::new(alloc),
        }
    }

    fn read(&mut self, rt: &HostRuntime, text: &str) -> Result<()> {
        self.known.clear();
        match read_file(self.alloc, &file_or_bytes(rt, text)?) {
            Ok(profile) => self.profile = Some(profile),
            Err(error) => println!(rt; "{error}")?,
        }
        Ok(())
    }

    fn join(&mut self, rt: &HostRuntime, text: &str) -> Result<()> {
        let profile = self.profile.as_mut().context("no profile")?;
        let more = read_file(self.alloc, &file_or_bytes(rt, text)?)?;
        if let Err(error) = profile.merge(&more) {
            println!(rt; "{error}")?;
        }
        Ok(())
    }

    fn know(&mut self, word: &str, rest: &str) -> Result<()> {
        let (name, told) = rest.split_once(' ').unwrap_or((rest, ""));
        let source = source_of(self.alloc, word, told)?;
        let name = bytes_of(self.alloc, name)?;
        self.known.push((name, source))?;
        Ok(())
    }

    /// Tells something of the profile.
    fn show(&self, rt: &HostRuntime, word: &str, rest: &str) -> Result<()> {
        let profile = self.profile.as_ref().context("no profile")?;
        match word {
            "counts" => print_counts(rt, profile),
            "rows" => print_rows(rt, profile),
            "event" => print_event(rt, profile, rest),
            "groups" => print_groups(rt, profile),
            "files" => print_files(rt, profile),
            "report" => print_report(rt, profile, &self.known, rest, true),
            "below" => print_report(rt, profile, &self.known, rest, false),
            _ => bail!("no such line"),
        }
    }
}

impl Scene for Stage {
    /// Follows a line of the script. `read` and `join` have a profile, as bytes or as `@` and a file, and print why it
    /// is refused; `source` and `long` say what is known of a file: its text, or how many bytes it has. `kind` tells
    /// how a profile is read, and `addresses` the addresses and lines of its rows. `counts`, `rows`, `event`, `groups`,
    /// `files` and `report` tell what was read, and `below` a report's lines below `-- functions`.
    fn follow(&mut self, rt: &HostRuntime, line: &str) -> Result<()> {
        let (word, rest) = line.split_once(' ').unwrap_or((line, ""));
        match word {
            "read" => self.read(rt, rest),
            "join" => self.join(rt, rest),
            "source" | "long" => self.know(word, rest),
            "kind" => print_kind(rt, &file_or_bytes(rt, rest)?),
            "addresses" => print_addresses(rt, &file_or_bytes(rt, rest)?),
            _ => self.show(rt, word, rest),
        }
    }
}

fn print_event(rt: &HostRuntime, profile: &Profile, name: &str) -> Result<()> {
    match profile.event_index(name) {
        Some(place) => println!(rt; "{place}")?,
        None => println!(rt; "there is none")?,
    }
    Ok(())
}

/// Whether the positions of a profile have addresses, and whether it can be read.
fn print_kind(rt: &HostRuntime, bytes: &[u8]) -> Result<()> {
    let kind = if is_addr_file(bytes) {
        "addresses"
    } else {
        "lines"
    };
    match read_any(rt.alloc(), bytes) {
        Ok(_) => println!(rt; "{kind}: read")?,
        Err(error) => println!(rt; "{kind}: {error}")?,
    }
    Ok(())
}

/// What is read of a profile with addresses, and the address and the line of each row.
fn print_addresses(rt: &HostRuntime, bytes: &[u8]) -> Result<()> {
    print_counts(rt, &read_any(rt.alloc(), bytes)?)?;
    if !is_addr_file(bytes) {
        return Ok(());
    }
    print_all_places(rt, &read_addr_file(rt.alloc(), bytes)?)
}

fn print_all_places(rt: &HostRuntime, profile: &AddrProfile) -> Result<()> {
    print_places(rt, profile, &profile.lines()?)
}

/// Prints the address and the line of each row; these are the rows by line.
fn print_places(rt: &HostRuntime, profile: &AddrProfile, lines: &Profile) -> Result<()>
    requires { lines.now ≡ profile.now.lines }
{
    print!(rt; "self rows:")?;
    for (place, row) in lines.self_rows.iter().enumerate() {
        print!(rt; " {:x}:{}", profile.address(place), row.line)?;
    }
    print!(rt; "\ncall rows:")?;
    for (place, row) in lines.call_rows.iter().enumerate() {
        print!(rt; " {:x}:{}", profile.call_address(place), row.line)?;
    }
    println!(rt; "")?;
    Ok(())
}
