//! Small functions in a map, and their names.

use anyhow::Result;
use program_map::map_of;
use script_lines::file_bytes;
use sym_map::SymMap;

/// The number of `main`. Functions have the numbers in which their names rise; 0 is code without a symbol.
pub const MAIN: u32 = 5;

const NAMES: [&str; 7] = ["???", "f", "f.cold", "g", "h", "main", "s"];

/// The name of a function.
pub fn name(func: u32) -> &'static str {
    NAMES.get(func as usize).copied().unwrap_or("no function")
}

/// A map of these functions, which `data/counting.py` lays out.
pub fn map(rt: &HostRuntime) -> Result<SymMap> {
    map_of(rt.alloc(), &file_bytes(rt, "functions")?)
}

/// Prints a function of so many frames side by side.
fn print_run(rt: &HostRuntime, func: u32, count: u32) -> Result<()> {
    match count {
        0 => {}
        1 => print!(rt; "{}/", name(func))?,
        _ => print!(rt; "{}*{count}/", name(func))?,
    }
    Ok(())
}

/// Prints the functions of frames from the root up; the same ones side by side as one, and how many there are.
pub fn print_stack(rt: &HostRuntime, functions: &[u32]) -> Result<()> {
    print!(rt; " /")?;
    let (mut last, mut count) = (0u32, 0u32);
    for func in functions {
        if *func != last {
            print_run(rt, last, count)?;
            last = *func;
            count = 0;
        }
        count = count.saturating_add(1);
    }
    print_run(rt, last, count)
}
