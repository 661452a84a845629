//! Follows a script on the standard input, scene by scene: names, folders and sinks, in memory and real, tables of costs,
//! and rows that are folded. A line `scene NAME ..` begins a scene; it is printed, as notes and empty lines are. What every
//! other line says is its scene's. What has to be printed is that of worked cases.
#![tactic(auto)]

mod adding;
mod bounded;
mod disk;
mod folders;
mod folding;
mod names;
mod refused;
mod sinks;
mod tables;

use anyhow::{Result, bail};
use names::Names;
use script_lines::{Scenes, play, play_script};
use tables::Costs;

struct Layers;

impl Scenes for Layers {
    /// Plays a scene by its name and what is given to it.
    fn play(&self, rt: &HostRuntime, head: &str, lines: &str) -> Result<()> {
        let (name, given) = head.split_once(' ').unwrap_or((head, ""));
        match name {
            "names" => play(rt, &mut Names, lines),
            "memory" => folders::in_memory(rt, given, lines),
            "kept" => folders::print_kept_calls(rt, given, lines),
            "sure" => folders::sure(rt, lines),
            "disk" => folders::on_disk(rt, given, lines),
            "real" => folders::real(rt, lines),
            "sink" => sinks::in_memory(rt, given, lines),
            "pieces" => sinks::in_pieces(rt, given, lines),
            "sure-sink" => sinks::sure(rt, lines),
            "streams" => sinks::streams(rt, lines),
            "tables" => play(rt, &mut Costs, lines),
            "folding" => folding::scene(rt, lines),
            _ => bail!("no such scene"),
        }
    }
}

fn main(rt: HostRuntime) -> Result<()> {
    play_script(&rt, &Layers)
}
