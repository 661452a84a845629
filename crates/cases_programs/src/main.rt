//! Follows a script on the standard input, scene by scene: what is read of files of programs. A line `scene NAME` begins
//! the scene of a layer. It, notes (`# ..`) and empty lines are printed as they are, so that the output reads beside the
//! input; what every other line says is its scene's (the module of that name). What has to be printed comes from the
//! standards, from other programs, or from plain models in `data/`.
#![tactic(auto)]

mod elf;
mod files;
mod lines;
mod names;
mod programs;
mod words;

use anyhow::{Result, bail};
use files::Files;
use script_lines::{Scenes, play, play_script};

struct Layers;

impl Scenes for Layers {
    fn play(&self, rt: &HostRuntime, name: &str, lines: &str) -> Result<()> {
        match name {
            "elf" => play(rt, &mut Files::Elf, lines),
            "lines" => play(rt, &mut lines::Stage::new(rt.alloc())?, lines),
            "names" | "hostile" => play(rt, &mut Files::Names, lines),
            "programs" => play(rt, &mut programs::Stage::new(rt.alloc()), lines),
            _ => bail!("no such scene"),
        }
    }
}

fn main(rt: HostRuntime) -> Result<()> {
    play_script(&rt, &Layers)
}
