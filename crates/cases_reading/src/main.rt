//! Follows a script on the standard input, scene by scene: what is read of profiles. A line `scene NAME` begins the scene
//! of a layer; it is printed, as notes and empty lines are. What every other line says is its scene's (the module of
//! that name). What has to be printed comes from the standards, from other programs, or from plain models in `data/`;
//! the texts of the scene `parts` are those of parts that `cases_parts` writes (`data/parts.py` there).
#![tactic(auto)]

mod folders;
mod graphs;
mod groups;
mod profiles;
mod reports;
mod rows;
mod statuses;

use anyhow::{Result, bail};
use script_lines::{Scenes, play, play_script};

struct Layers;

impl Scenes for Layers {
    fn play(&self, rt: &HostRuntime, name: &str, lines: &str) -> Result<()> {
        match name {
            "profiles" | "parts" | "once" => play(rt, &mut profiles::Stage::new(rt.alloc()), lines),
            "graphs" => play(rt, &mut graphs::Stage, lines),
            "folders" => play(rt, &mut folders::Stage::new(rt.alloc()), lines),
            "statuses" => play(rt, &mut statuses::Stage, lines),
            _ => bail!("no such scene"),
        }
    }
}

fn main(rt: HostRuntime) -> Result<()> {
    play_script(&rt, &Layers)
}
