//! Sinks, in memory and real.

use anyhow::{Result, bail};
use outside::{MemSink, Sink, StreamSink, SureSink, WriteError, write_all};
use script_lines::{Scene, decimals, play, print_quoted, small_decimal};

/// A sink, on which each line is a call.
#[derive(Drop)]
struct Stage<S> {
    sink: S,
}

impl<S: Sink> Scene for Stage<S> {
    /// `write` writes once, and prints how many bytes were taken; `all` writes until all bytes are.
    fn follow(&mut self, rt: &HostRuntime, line: &str) -> Result<()> {
        let (word, rest) = line.split_once(' ').unwrap_or((line, ""));
        match word {
            "write" => print_count(rt, self.sink.write(rest.as_bytes())),
            "all" => print_done(rt, write_all(&mut self.sink, rest.as_bytes())),
            _ => bail!("no such line"),
        }
    }
}

fn print_count(rt: &HostRuntime, answer: Result<usize, WriteError>) -> Result<()> {
    match answer {
        Ok(count) => println!(rt; "{count}")?,
        Err(error) => println!(rt; "{error}")?,
    }
    Ok(())
}

fn print_done(rt: &HostRuntime, answer: Result<(), WriteError>) -> Result<()> {
    match answer {
        Ok(()) => println!(rt; "done")?,
        Err(error) => println!(rt; "{error}")?,
    }
    Ok(())
}

/// Follows lines over a sink in memory, and prints what it has taken.
fn follow(rt: &HostRuntime, sink: MemSink, lines: &str) -> Result<()> {
    play_and_print(rt, &mut Stage { sink }, lines)
}

fn play_and_print(rt: &HostRuntime, stage: &mut Stage<MemSink>, lines: &str) -> Result<()> {
    play(rt, stage, lines)?;
    print_quoted(rt, stage.sink.bytes())
}

/// The same over one whose calls of these numbers fail.
pub fn in_memory(rt: &HostRuntime, fails: &str, lines: &str) -> Result<()> {
    let fails = decimals(rt.alloc(), fails)?;
    follow(rt, MemSink::new(rt.alloc(), fails), lines)
}

/// The same over one that takes so many bytes at a time.
pub fn in_pieces(rt: &HostRuntime, most: &str, lines: &str) -> Result<()> {
    let most = (small_decimal(most)? as usize).max(1);
    follow(rt, MemSink::with_piece(rt.alloc(), most), lines)
}

/// The same over one that never fails.
pub fn sure(rt: &HostRuntime, lines: &str) -> Result<()> {
    let mut stage = Stage {
        sink: SureSink::new(rt.alloc()),
    };
    play(rt, &mut stage, lines)?;
    print_quoted(rt, stage.sink.bytes())
}

/// Follows lines over standard output, and then over standard error.
pub fn streams(rt: &HostRuntime, lines: &str) -> Result<()> {
    let mut out = Stage {
        sink: StreamSink::new(rt.stdout()),
    };
    let mut err = Stage {
        sink: StreamSink::new(rt.stderr()),
    };
    play(rt, &mut out, lines)?;
    play(rt, &mut err, lines)
}
