//! What the words of a command ask for.

use anyhow::Result;
use cases_script::words_of_line;
use command_words::read_words;

/// Prints what the words of a line ask for, before which stands the program's own name.
pub fn print_asked(rt: &HostRuntime, line: &str) -> Result<()> {
    let words = words_of_line(rt.alloc(), line)?;
    print(rt, &words)
}

/// Prints what no words ask for: there is not even the program's own name.
pub fn print_wordless(rt: &HostRuntime) -> Result<()> {
    print(rt, &[])
}

fn print(rt: &HostRuntime, words: &[String]) -> Result<()> {
    let request = read_words(rt.alloc(), words)?;
    println!(rt; "{request:?}")?;
    Ok(())
}
