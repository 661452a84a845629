//! A script of several scenes.

use crate::calls::Calls;
use crate::crowd::Crowd;
use crate::decode::Words;
use crate::line::Line;
use crate::loading::Loading;
use crate::step::Hart;
use crate::turns::Turning;
use anyhow::{Result, bail};
use guest_mem::GuestMem;
use script_lines::Scenes;
use std::io;

/// What the lines of a scene are about.
pub trait Scene {
    /// Follows a line, and prints what comes of it.
    fn follow(&mut self, rt: &HostRuntime, line: &Line) -> io::Result<()>;
}

/// A scene whose lines are words and numbers.
#[derive(Drop)]
struct Lines<S> {
    scene: S,
}

impl<S: Scene> script_lines::Scene for Lines<S> {
    fn follow(&mut self, rt: &HostRuntime, line: &str) -> Result<()> {
        Ok(self.scene.follow(rt, &Line::new(line))?)
    }
}

/// Follows the lines of a scene in which nothing has happened.
fn play<S: Scene + Drop>(rt: &HostRuntime, lines: &str, scene: S) -> Result<()> {
    script_lines::play(rt, &mut Lines { scene }, lines)
}

pub struct Layers;

impl Scenes for Layers {
    fn play(&self, rt: &HostRuntime, name: &str, lines: &str) -> Result<()> {
        let alloc = rt.alloc();
        match name {
            "decode" => play(rt, lines, Words),
            "step" => play(rt, lines, Hart::new(alloc)),
            "memory" => play(rt, lines, GuestMem::new(alloc)),
            "futex" => play(rt, lines, Crowd::new(alloc)),
            "loading" => play(rt, lines, Loading::new(alloc)),
            "calls" => play(rt, lines, Calls::new()),
            "turns" => play(rt, lines, Turning::new(alloc)),
            _ => bail!("no such scene"),
        }
    }
}
