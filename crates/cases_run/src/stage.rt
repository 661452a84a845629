//! The one scene of the script.

use crate::process::{exit_of, status_of};
use crate::{disk, requests};
use anyhow::{Result, ensure};
use cases_script::{Leavings, Setting, words_of_line};
use script_lines::Scene;
use std::alloc::Global;
use std::process::ExitCode;

#[derive(Drop)]
pub struct Stage {
    setting: Setting,
}

impl Stage {
    pub fn new(alloc: Global) -> Stage {
        Stage {
            setting: Setting::new(alloc),
        }
    }
}

impl Scene for Stage {
    /// Follows a line of the script. `scene` begins anew. Lines that say something of the next command are taken. `$` does
    /// a command, and `disk` does one over the real folder; `asks` prints what words ask for, and `wordless` what none do;
    /// others print what the last command left. Lines of these kinds are printed.
    fn follow(&mut self, rt: &HostRuntime, line: &str) -> Result<()> {
        let (word, rest) = line.split_once(' ').unwrap_or((line, ""));
        if word == "scene" {
            self.setting = Setting::new(rt.alloc());
            return Ok(());
        }
        if self.setting.takes(rt, word, rest)? {
            return Ok(());
        }
        println!(rt; "{line}")?;
        match word {
            "$" => run(rt, &mut self.setting, rest),
            "disk" => disk::run(rt, rest),
            "asks" => requests::print_asked(rt, rest),
            "wordless" => requests::print_wordless(rt),
            _ => self.setting.show(rt, word, rest),
        }
    }
}

/// Does a command as a process does it, and prints what it ends with, what the sinks have taken, and which files have
/// changed.
fn run(rt: &HostRuntime, setting: &mut Setting, line: &str) -> Result<()> {
    let is_sure = setting.is_sure();
    setting.lay_out()?;
    let code = run_once(rt.alloc(), setting, line)?;
    if is_sure {
        run_in_pieces(rt.alloc(), setting, line, code)?;
    }
    println!(rt; "status {}", status_of(code)?)?;
    setting.print_leavings(rt)
}

/// Does a command, without memory where that is asked for, and answers what a process ends with.
fn run_once(alloc: Global, setting: &mut Setting, line: &str) -> Result<ExitCode> {
    let words = words_of_line(alloc, line)?;
    let hoard = setting.hoard()?;
    let code = run_over(alloc, words, &mut setting.leavings);
    drop(hoard);
    Ok(code)
}

/// Does a command again with sinks that take a piece at a time, which have to get the same bytes.
fn run_in_pieces(alloc: Global, setting: &Setting, line: &str, code: ExitCode) -> Result<()> {
    let words = words_of_line(alloc, line)?;
    let mut left = setting.in_pieces()?;
    let other = run_over(alloc, words, &mut left);
    ensure!(other == code, "pieces change the status");
    setting.leavings.hold(&left)
}

fn run_over(alloc: Global, words: Vec<String>, left: &mut Leavings) -> ExitCode {
    exit_of(alloc, words, &mut left.folder, &mut left.out, &mut left.err)
}
