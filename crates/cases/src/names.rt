//! Cleaned names.

use anyhow::{Result, bail};
use byte_text::clean_name;
use script_lines::{Scene, hex_bytes, text_of};

/// The scene of names, in which nothing lasts.
#[derive(Drop)]
pub struct Names;

impl Scene for Names {
    /// Prints what the name of these bytes is cleaned to.
    fn follow(&mut self, rt: &HostRuntime, line: &str) -> Result<()> {
        let Some(words) = line.strip_prefix("name") else {
            bail!("no such line");
        };
        let name = clean_name(rt.alloc(), &hex_bytes(rt.alloc(), words)?)?;
        println!(rt; "{}", text_of(name.as_bytes())?)?;
        Ok(())
    }
}
