//! The names of parts.

ghost use Rattle.std.specs.Prelude.{◌≡◌, ◌<◌, ◌^◌, ℕ, IfOk, OnOk, string_bytes};
ghost use Rattle.part_dump.specs.Files.{part_name};

use byte_text::OutOfMemory;
use event_costs::ThreadNo;
use itoa::Buffer;
use std::alloc::Global;

/// The name of a part's file: the base, the number of the part and that of the thread. Each part has a name of its own.
pub fn part_name(
    alloc: Global,
    base: &str,
    part: u32,
    thread: ThreadNo,
) -> Result<String, OutOfMemory>
    ensures name { IfOk result (λ name. string_bytes name ≡ part_name base.now part thread.0) }
    ensures apart { OnOk result ((other_part other_thread : ℕ) → other_part < 2 ^ 32 → other_thread < 2 ^ 32
        → part_name base.now other_part other_thread ≡ part_name base.now part thread.0
        → (other_part ≡ part) × (other_thread ≡ thread.0)) }
{
    let mut digits = Buffer::new();
    let mut name = String::new(alloc);
    name.push_str(base)?;
    name.push_str(".")?;
    name.push_str(digits.format(part))?;
    name.push_str("-")?;
    name.push_str(digits.format(thread.0))?;
    Ok(name)
}
