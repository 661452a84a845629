//! All memory that there is, so that a case can see what a refusal leaves.

use byte_text::OutOfMemory;
use std::alloc::Global;

/// The largest block that is asked for first: as much as a process can have.
const LARGEST: usize = 1 << 46;

/// How often a block is asked for. Blocks of 2 GiB would take the 2^47 addresses of a process in half of that.
const REQUESTS: usize = 1 << 17;

/// How much of the stack there is for whoever meets the refusals.
const STACK: usize = 1 << 20;

/// Blocks that nobody uses. While they are held, requests for memory are refused.
#[derive(Drop)]
pub struct Hoard {
    blocks: Vec<Vec<u8>>,
}

impl Hoard {
    /// Takes block after block, of half the size whenever one is refused, down to single bytes. No block but the first
    /// is written to, so the machine's own memory isn't used up.
    pub fn new(alloc: Global) -> Result<Hoard, OutOfMemory> {
        let mut blocks = Vec::with_capacity(alloc, REQUESTS)?;
        blocks.push(block_of_stack(alloc)?)?;
        let mut size = LARGEST;
        for _ in 1..REQUESTS {
            match Vec::with_capacity(alloc, size) {
                Ok(block) => blocks.push(block)?,
                Err(_) => size /= 2,
            }
            if size == 0 {
                break;
            }
        }
        Ok(Hoard { blocks })
    }
}

/// A block whose bytes have lain on the stack. A stack grows into the addresses below it, which are held from then on,
/// and some of them even after the hoard is gone: what it has grown by now is all that it will have.
fn block_of_stack(alloc: Global) -> Result<Vec<u8>, OutOfMemory> {
    let mut bytes = [0; STACK];
    for (place, byte) in bytes.iter_mut().enumerate() {
        *byte = (place % 256) as u8;
    }
    Ok(Vec::from_slice(alloc, &bytes)?)
}
