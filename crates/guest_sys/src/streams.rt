//! read and write.

ghost use Rattle.std.specs.Prelude.{◌≡◌, Some};
ghost use Rattle.guest_sys.specs.Common.{IsCaller, number};
ghost use Rattle.guest_sys.specs.inner.Bodies.{Gives};
ghost use Rattle.guest_sys.specs.Streams.{read, write};
ghost use Rattle.guest_sys.specs.Taking.{WriteTakes};

use crate::caller::{Caller, EBADF, EFAULT, answer, go_on, refuse};
use crate::effect::{Act, Effect, SysEnd};
use guest_load::Guest;
use guest_mem::{Access, CopyError};
use std::alloc::Global;

/// The descriptor of the input.
pub const STDIN: u32 = 0;
/// The descriptor of the output.
pub const STDOUT: u32 = 1;
/// The descriptor of the messages.
pub const STDERR: u32 = 2;

/// The most bytes that one call writes.
pub const WRITE_LIMIT: u32 = 1_048_576;

/// read(fd, buf, n): the next bytes of the input, at most n, go to buf.
#[tactic(auto, unfolding(crate::specs::Streams::read))]
pub fn read(alloc: Global, guest: &mut Guest, caller: &Caller) -> Effect
    requires { IsCaller guest.old caller.now }
    ensures { Some (result, guest.new) ≡ read guest.old caller.now }
{
    if caller.argument(0) != STDIN {
        return refuse(alloc, guest, caller, EBADF);
    }
    let buffer = caller.argument(1);
    let rest = &guest.input[guest.place..];
    let count = rest.len().min(caller.argument(2) as usize);
    match guest.mem.copy_in(buffer, &rest[..count]) {
        Ok(()) => {
            guest.place += count;
            answer(alloc, guest, caller, count as u32)
        }
        Err(Access) => refuse(alloc, guest, caller, EFAULT),
    }
}

/// write(fd, buf, n): the bytes from buf on, at most n, are output.
#[tactic(auto, unfolding(crate::specs::Streams::write))]
pub fn write(alloc: Global, guest: &mut Guest, caller: &Caller) -> Result<Effect, SysEnd>
    requires { IsCaller guest.old caller.now }
    ensures { Gives (WriteTakes guest.old caller.now) (write guest.old caller.now) (number caller.now) guest.old result
        guest.new }
{
    let descriptor = caller.argument(0);
    if descriptor != STDOUT && descriptor != STDERR {
        return Ok(refuse(alloc, guest, caller, EBADF));
    }
    let count = caller.argument(2).min(WRITE_LIMIT);
    match guest.mem.copy_out(caller.argument(1), count) {
        Ok(text) => Ok(go_on(alloc, guest, caller, Act::Output(descriptor, text), count)),
        Err(CopyError::Access) => Ok(refuse(alloc, guest, caller, EFAULT)),
        Err(CopyError::OutOfMemory(refused)) => Err(SysEnd::OutOfMemory(refused)),
    }
}
