//! The scenes of a script.

use anyhow::Result;
use std::io;

/// What follows the lines of a scene.
pub trait Scene {
    /// Follows a line that is no note.
    fn follow(&mut self, rt: &HostRuntime, line: &str) -> Result<()>;
}

/// What plays the scenes of a script.
pub trait Scenes {
    /// Plays a scene: what stands behind `scene` in its first line, and the other lines.
    fn play(&self, rt: &HostRuntime, head: &str, lines: &str) -> Result<()>;
}

/// Whether a line is printed as it is: a note or an empty line.
fn is_note(line: &str) -> bool {
    line.is_empty() || line.starts_with("# ")
}

/// Follows a line. A note (`# ..`) or an empty line is printed as it is, so that the output reads beside the input.
fn follow<S: Scene>(rt: &HostRuntime, scene: &mut S, line: &str) -> Result<()> {
    if is_note(line) {
        println!(rt; "{line}")?;
        return Ok(());
    }
    scene.follow(rt, line)
}

/// Follows lines.
pub fn play<S: Scene>(rt: &HostRuntime, scene: &mut S, lines: &str) -> Result<()> {
    for line in lines.lines() {
        follow(rt, scene, line)?;
    }
    Ok(())
}

/// Follows the lines of the standard input, as one scene.
pub fn play_input<S: Scene>(rt: &HostRuntime, scene: &mut S) -> Result<()> {
    for line in rt.lines(rt.alloc()) {
        follow(rt, scene, line?.as_str())?;
    }
    Ok(())
}

/// Plays the script on the standard input. A line `scene ..` begins a scene, and is printed.
pub fn play_script<S: Scenes>(rt: &HostRuntime, scenes: &S) -> Result<()> {
    let script = io::read_to_string(rt.alloc(), rt.reader())?;
    for scene in script.as_str().split("scene ").skip(1) {
        let (head, lines) = scene.split_once('\n').unwrap_or((scene, ""));
        println!(rt; "scene {head}")?;
        scenes.play(rt, head, lines)?;
    }
    Ok(())
}
