//! What a profile holds, as lines of text.

use anyhow::Result;
use cg_read::{CallRow, Profile, SelfRow};
use script_lines::{Escaped, Numbers};
use std::fmt::{Display, Error, Formatter, Write};

/// A file of a profile, by its number.
#[derive(Clone, Copy)]
struct File<'a>(&'a Profile, usize);

impl Display for File<'_> {
    fn fmt<W: Write>(&self, f: &mut Formatter<W>) -> std::result::Result<(), Error> {
        let profile = self.0;
        match profile.files.get(self.1) {
            Some(file) => write!(f, "{}", Escaped(file.as_bytes())),
            None => f.write_str("no file"),
        }
    }
}

/// A function of a profile, by its number.
#[derive(Clone, Copy)]
struct Function<'a>(&'a Profile, usize);

impl Display for Function<'_> {
    fn fmt<W: Write>(&self, f: &mut Formatter<W>) -> std::result::Result<(), Error> {
        let profile = self.0;
        if self.1 >= profile.functions.len() {
            return f.write_str("no function");
        }
        let function = profile.functions.at(self.1);
        let file = Escaped(function.file.as_bytes());
        let name = Escaped(function.name.as_bytes());
        let object = Escaped(function.object.as_bytes());
        write!(f, "{file}:{name} [{object}]")
    }
}

fn print_self_row(rt: &HostRuntime, profile: &Profile, row: &SelfRow) -> Result<()> {
    let (function, file) = (Function(profile, row.func), File(profile, row.file));
    println!(rt;
        "{function} at {file}:{} costs{}",
        row.line,
        Numbers(&row.cost.items)
    )?;
    Ok(())
}

fn print_call_row(rt: &HostRuntime, profile: &Profile, row: &CallRow) -> Result<()> {
    let (caller, file) = (Function(profile, row.caller), File(profile, row.file));
    print!(rt;
        "{caller} at {file}:{} calls {} times ",
        row.line, row.calls
    )?;
    println!(rt;
        "{}{}",
        Function(profile, row.callee),
        Numbers(&row.cost.items)
    )?;
    Ok(())
}

/// Prints the command and the events.
fn print_head(rt: &HostRuntime, profile: &Profile) -> Result<()> {
    match &profile.command {
        Some(command) => println!(rt; "command {}", Escaped(command.as_bytes()))?,
        None => println!(rt; "no command")?,
    }
    print!(rt; "events")?;
    for event in &profile.events {
        print!(rt; " {}", Escaped(event.as_bytes()))?;
    }
    println!(rt; "")?;
    Ok(())
}

/// Prints the command, the events and the rows.
pub fn print_rows(rt: &HostRuntime, profile: &Profile) -> Result<()> {
    print_head(rt, profile)?;
    for row in &profile.self_rows {
        print_self_row(rt, profile, row)?;
    }
    for row in &profile.call_rows {
        print_call_row(rt, profile, row)?;
    }
    Ok(())
}

/// Prints how much a profile holds, and what it sums up to.
pub fn print_counts(rt: &HostRuntime, profile: &Profile) -> Result<()> {
    let functions = profile.functions.len();
    let files = profile.files.len();
    let self_rows = profile.self_rows.len();
    let call_rows = profile.call_rows.len();
    println!(rt;
        "{functions} functions, {files} files, {self_rows} self rows, {call_rows} call rows"
    )?;
    match profile.totals() {
        Ok(totals) => println!(rt; "totals:{}", Numbers(&totals.items))?,
        Err(error) => println!(rt; "{error}")?,
    }
    Ok(())
}
