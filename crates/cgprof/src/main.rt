//! Counts the events of a RISC-V program per function, line and call, in Callgrind's format: the program `cgprof`.
#![tactic(auto)]

use outside::{DirFolder, StreamSink};
use profile_cli::command;
use std::env;
use std::process::ExitCode;

fn main(rt: HostRuntime) -> ExitCode {
    let mut folder = DirFolder::new(&rt);
    let (mut out, mut err) = (StreamSink::new(rt.stdout()), StreamSink::new(rt.stderr()));
    command(rt.alloc(), env::args(&rt), &mut folder, &mut out, &mut err)
}
