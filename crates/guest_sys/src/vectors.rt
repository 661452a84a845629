//! readv and writev: a list of iovecs in memory names the ranges of bytes that a call moves.

ghost use Rattle.std.specs.Prelude.{◌≡◌, ◌≤◌, ◌++◌, IfOk, OnErr, take, length, true};
ghost use Rattle.guest_mem.specs.Memory.{may, bytes_at, number_of};
ghost use Rattle.guest_sys.specs.Common.{IsCaller, number};
ghost use Rattle.guest_sys.specs.inner.Bodies.{addresses_of, each_allowed, Gives};
ghost use Rattle.guest_sys.specs.Taking.{ReadsFirst, ReadvTakes, WritevTakes};
ghost use Rattle.guest_sys.specs.Vectors.{addresses_from};
ghost use Rattle.guest_sys.specs.inner.Bodies.{Gathers, IsIovecList};
ghost use Rattle.guest_sys.specs.Vectors.{put_each, readv, iovec_at, writev};

use crate::caller::{Caller, EBADF, EFAULT, EINVAL, answer, go_on, refuse};
use crate::effect::{Act, Effect, SysEnd};
use crate::streams::{STDERR, STDIN, STDOUT, WRITE_LIMIT};
use byte_text::{OutOfMemory, Text};
use event_costs::ADDRESSES;
use guest_load::Guest;
use guest_mem::{CopyError, GuestMem, READ, WRITE};
use std::alloc::{AllocError, Global};

/// The most iovecs of one call.
const IOV_MAX: u32 = 1024;

/// The bytes of an iovec.
const IOVEC_BYTES: u32 = 8;

/// A range of the guest's addresses.
#[derive(Clone, Copy, Debug, PartialEq, Eq)]
pub struct Iovec {
    pub addr: u32,
    /// How many bytes it has.
    pub len: u32,
}

/// The ranges that a call moves bytes from or to, one after another, and how many bytes.
#[derive(Debug, Drop)]
pub struct IovecList {
    pub iovecs: Vec<Iovec>,
    pub count: u64,
}

/// The word at an address that may be read.
fn word_at(mem: &GuestMem, at: u32) -> u32
    requires { may mem.now 1 at 4 ≡ true }
    ensures { result ≡ number_of (bytes_at mem.now at 4) }
{
    mem.load32(at).unwrap()
}

/// The iovec at an address, where it may be read.
fn iovec_at(mem: &GuestMem, at: u32) -> Iovec
    requires { may mem.now 1 at 8 ≡ true }
    ensures { result ≡ iovec_at mem.now at }
{
    Iovec {
        addr: word_at(mem, at),
        len: word_at(mem, at + 4),
    }
}

/// Reads the iovecs of a call that moves at most so many bytes, in order, until their lengths sum up to the limit.
/// Nothing where one of them may not be read.
fn read_iovecs(
    alloc: Global,
    mem: &GuestMem,
    list: u32,
    count: u32,
    limit: usize,
) -> Result<Option<IovecList>, AllocError>
    requires { count ≤ 1024 }
    ensures found { IfOk result (λ found. IsIovecList limit mem.now list count found) }
    ensures memory { OnErr result (ReadsFirst limit mem.now list count) }
{
    let mut iovecs = Vec::new(alloc);
    let mut total = 0;
    'pairs: for index in 0..count {
        if total >= limit as u64 {
            let count = limit as u64;
            return Ok(Some(IovecList { iovecs, count }));
        }
        if !mem.may(list, IOVEC_BYTES * (index + 1), READ) {
            return Ok(None);
        }
        let iovec = iovec_at(mem, list + IOVEC_BYTES * index);
        total += u64::from(iovec.len);
        iovecs.push(iovec)?;
    }
    Ok(Some(IovecList {
        iovecs,
        count: total.min(limit as u64),
    }))
}

/// Whether the first `count` bytes of ranges may be used so.
fn may_use(mem: &GuestMem, iovecs: &[Iovec], count: u64, want: u8) -> bool
    ensures { result ≡ each_allowed mem.now want (take count (addresses_of iovecs.now)) }
{
    let mut left = count;
    'iovecs: for iovec in iovecs {
        let len = left.min(u64::from(iovec.len));
        if !mem.may(iovec.addr, len as u32, want) {
            return false;
        }
        left -= len;
    }
    true
}

/// Puts bytes to one range.
fn put_piece(mem: &mut GuestMem, addr: u32, piece: &[u8])
    requires { may mem.old 2 addr (length piece.now) ≡ true }
    ensures { mem.new ≡ put_each mem.old (addresses_from addr (length piece.now)) piece.now }
{
    if piece.is_empty() {
        return;
    }
    let _stored = mem.copy_in(addr, piece);
}

/// Puts bytes to ranges, one range after another.
fn scatter(mem: &mut GuestMem, iovecs: &[Iovec], bytes: &[u8])
    requires { each_allowed mem.old 2 (take (length bytes.now) (addresses_of iovecs.now)) ≡ true }
    ensures { mem.new ≡ put_each mem.old (take (length bytes.now) (addresses_of iovecs.now)) bytes.now }
{
    let mut rest = bytes;
    'iovecs: for iovec in iovecs {
        let (piece, after) = rest.split_at(rest.len().min(iovec.len as usize));
        put_piece(mem, iovec.addr, piece);
        rest = after;
    }
}

/// Appends the bytes of one range to a text, and tells whether they may be read.
fn add_piece(mem: &GuestMem, addr: u32, len: u32, text: &mut Text) -> Result<bool, OutOfMemory>
    ensures readable { IfOk result (λ readable. readable ≡ may mem.now 1 addr len) }
    ensures added { IfOk result (λ readable. readable ≡ true → text.new ≡ text.old ++ bytes_at mem.now addr len) }
{
    match mem.copy_out(addr, len) {
        Ok(piece) => {
            text.push(piece.as_bytes())?;
            Ok(true)
        }
        Err(CopyError::Access) => Ok(false),
        Err(CopyError::OutOfMemory(refused)) => Err(refused),
    }
}

/// The first `count` bytes of ranges, one range after another. Nothing where one of them may not be read.
fn gather(
    alloc: Global,
    mem: &GuestMem,
    iovecs: &[Iovec],
    count: u64,
) -> Result<Option<Text>, OutOfMemory>
    ensures found { IfOk result (λ found. Gathers mem.now (take count (addresses_of iovecs.now)) found) }
    ensures memory { OnErr result (1 ≤ length iovecs.now) }
{
    let mut text = Text::new(alloc);
    let mut left = count;
    'iovecs: for iovec in iovecs {
        let len = left.min(u64::from(iovec.len));
        let readable = add_piece(mem, iovec.addr, len as u32, &mut text)?;
        if !readable {
            return Ok(None);
        }
        left -= len;
    }
    Ok(Some(text))
}

/// readv(fd, iov, count): the next bytes of the input go to the ranges.
#[tactic(auto, unfolding(crate::specs::Vectors::readv))]
pub fn readv(alloc: Global, guest: &mut Guest, caller: &Caller) -> Result<Effect, SysEnd>
    requires { IsCaller guest.old caller.now }
    ensures { Gives (ReadvTakes guest.old caller.now) (readv guest.old caller.now) (number caller.now) guest.old
        result guest.new }
{
    if caller.argument(0) != STDIN {
        return Ok(refuse(alloc, guest, caller, EBADF));
    }
    let pairs = caller.argument(2);
    if pairs > IOV_MAX {
        return Ok(refuse(alloc, guest, caller, EINVAL));
    }
    let rest = &guest.input[guest.place..];
    let Some(listed) = read_iovecs(alloc, &guest.mem, caller.argument(1), pairs, rest.len())? else {
        return Ok(refuse(alloc, guest, caller, EFAULT));
    };
    if !may_use(&guest.mem, &listed.iovecs, listed.count, WRITE) {
        return Ok(refuse(alloc, guest, caller, EFAULT));
    }
    let count = listed.count as usize;
    scatter(&mut guest.mem, &listed.iovecs, &rest[..count]);
    guest.place += count;
    Ok(answer(alloc, guest, caller, (listed.count % ADDRESSES) as u32))
}

/// writev(fd, iov, count): the bytes of the ranges are output.
#[tactic(auto, unfolding(crate::specs::Vectors::writev))]
pub fn writev(alloc: Global, guest: &mut Guest, caller: &Caller) -> Result<Effect, SysEnd>
    requires { IsCaller guest.old caller.now }
    ensures { Gives (WritevTakes guest.old caller.now) (writev guest.old caller.now) (number caller.now) guest.old
        result guest.new }
{
    let descriptor = caller.argument(0);
    if descriptor != STDOUT && descriptor != STDERR {
        return Ok(refuse(alloc, guest, caller, EBADF));
    }
    let pairs = caller.argument(2);
    if pairs > IOV_MAX {
        return Ok(refuse(alloc, guest, caller, EINVAL));
    }
    let limit = WRITE_LIMIT as usize;
    let Some(listed) = read_iovecs(alloc, &guest.mem, caller.argument(1), pairs, limit)? else {
        return Ok(refuse(alloc, guest, caller, EFAULT));
    };
    let Some(text) = gather(alloc, &guest.mem, &listed.iovecs, listed.count)? else {
        return Ok(refuse(alloc, guest, caller, EFAULT));
    };
    let count = listed.count as u32;
    Ok(go_on(alloc, guest, caller, Act::Output(descriptor, text), count))
}
