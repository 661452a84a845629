//! Follows a script on the standard input, scene by scene: each scene is of one layer of the machine, and each line is
//! answered by one line. What has to be printed was said by others: the GNU assembler and the RISC-V manual for words, a
//! program in C for single steps (`data/effects.c`), the plain model of the machine for turns (`data/turns.py`), and the
//! rules of each layer by hand for the rest.
//!
//! A number is decimal, or in hexadecimal digits behind `0x`.
#![tactic(auto)]

mod answer;
mod calls;
mod course;
mod crowd;
mod decode;
mod draft;
mod kernel;
mod line;
mod loading;
mod memory;
mod runs;
mod scene;
mod step;
mod turns;

use scene::Layers;
use script_lines::play_script;

fn main(rt: HostRuntime) -> anyhow::Result<()> {
    play_script(&rt, &Layers)
}
