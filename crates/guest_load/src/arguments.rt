//! The arguments of a program, as they stand above its stack.

ghost use Rattle.std.specs.Prelude.{◌≡◌, ◌-◌, ◌^◌, ◌≤◌, ◌++◌, map, min, string_bytes, IfOk};
ghost use Rattle.guest_load.specs.Arguments.{arguments_limit, arguments_len, arguments_bytes};
ghost use Rattle.guest_load.specs.Arguments.{argument_addresses, arguments_start};

use std::alloc::{AllocError, Global};

/// How many bytes there are for the arguments.
pub const MAX_ARGUMENTS: u64 = 65_536;

/// How many bytes the arguments need, each with a zero byte at its end, as far as the number fits 64 bits.
#[tactic(auto, unfolding(crate::specs::Arguments::arguments_len))]
pub fn arguments_len(args: &[String]) -> u64
    ensures { result ≡ min (arguments_len (map string_bytes args.now)) (2 ^ 64 - 1) }
{
    let mut len: u64 = 0;
    'arguments: for argument in args {
        len = len.saturating_add(argument.len() as u64).saturating_add(1);
    }
    len
}

/// The arguments in order, each with a zero byte at its end.
#[tactic(auto, unfolding(crate::specs::Arguments::arguments_bytes))]
pub fn arguments_bytes(alloc: Global, args: &[String]) -> Result<Vec<u8>, AllocError>
    ensures { IfOk result (λ bytes. bytes.items ≡ arguments_bytes (map string_bytes args.now)) }
{
    let mut bytes = Vec::new(alloc);
    'arguments: for argument in args {
        bytes.extend_from_slice(argument.as_bytes())?;
        bytes.push(0)?;
    }
    Ok(bytes)
}

/// Adds the address of each argument to the words; the first is at `start`.
#[tactic(auto, unfolding(crate::specs::Arguments::argument_addresses))]
pub fn push_addresses(words: &mut Vec<u32>, args: &[String], start: u32) -> Result<(), AllocError>
    requires start { start ≡ arguments_start (map string_bytes args.now) }
    requires short { arguments_len (map string_bytes args.now) ≤ arguments_limit }
    ensures { IfOk result (λ _. words.new.items ≡ words.old.items ++ argument_addresses (map string_bytes args.now)) }
{
    let mut addr = start;
    'arguments: for argument in args {
        words.push(addr)?;
        addr += argument.len() as u32 + 1;
    }
    Ok(())
}
