//! Follows a script on the standard input, scene by scene: the parts of a run, its cuts, and runs whose puts and writes
//! fail. A line `scene NAME` begins the scene of a layer; it is printed, as notes and empty lines are. What every other
//! line says is its scene's (the module of that name). Programs are files that `data/programs.py` makes. What has to be
//! printed is that of worked cases.
#![tactic(auto)]

mod cuts;
mod drip;
mod parts;
mod rows;
mod runs;
mod segments;
mod tally;
mod words;

use anyhow::{Result, bail};
use script_lines::{Scenes, play_script};

struct Layers;

impl Scenes for Layers {
    fn play(&self, rt: &HostRuntime, name: &str, lines: &str) -> Result<()> {
        match name {
            "parts" => parts::scene(rt, lines),
            "cuts" => cuts::scene(rt, lines),
            "runs" => runs::scene(rt, lines),
            _ => bail!("no such scene"),
        }
    }
}

fn main(rt: HostRuntime) -> Result<()> {
    play_script(&rt, &Layers)
}
