//! The words of a line.

use anyhow::{Context, Result};
use cache_lru::Geometry;

/// A name; a dash stands for none.
pub fn name_of(word: &str) -> Option<&str> {
    if word == "-" { None } else { Some(word) }
}

/// A first and a last cache of so many bytes, in sets of so many blocks of 64 bytes.
pub fn levels(first: [u32; 2], last: [u32; 2]) -> Result<(Geometry, Geometry)> {
    Ok((geometry(first)?, geometry(last)?))
}

fn geometry(shape: [u32; 2]) -> Result<Geometry> {
    let [size, ways] = shape;
    Geometry::new(size, ways, 64).context("no geometry")
}
