//! Follows a script on the standard input: commands, over programs and profiles that it describes, random ones among
//! them (`data/random_cases.py`), and lists of words, of which it is printed what they ask for (`data/word_lists.py`).
//! What has to be printed is that of a plain model (`data/model.py`), which was written for this alone. QEMU's output of
//! the compiled programs is the same, and so are the steps of those that have one thread.
#![tactic(auto)]

mod disk;
mod process;
mod requests;
mod stage;

use anyhow::Result;
use script_lines::play_input;
use stage::Stage;

fn main(rt: HostRuntime) -> Result<()> {
    let mut stage = Stage::new(rt.alloc());
    play_input(&rt, &mut stage)
}
