//! All waits in one list: by rising address, and at each address in order of waiting. However many of them are moved,
//! the list is turned once, or twice.

ghost use Rattle.std.specs.Prelude.{◌≡◌, ◌+◌, ◌++◌, ◌≤◌, length, take, drop, map, vec_len, vec_capacity};
ghost use Rattle.guest_futex.specs.Waits.{wait_at, threads_of, waiters_at, with_waiters, woken_at, without_woken};
ghost use Rattle.guest_futex.specs.inner.Order.{IsRising, lower, turned};

use event_costs::ThreadNo;

/// A thread that waits, and the address that it waits at.
#[derive(Clone, Copy, Debug)]
pub struct Wait {
    pub thread: ThreadNo,
    pub addr: u32,
}

/// How many wait at lower addresses.
pub fn start_of(waits: &[Wait], addr: u32) -> usize
    requires { IsRising 0 waits.now }
    ensures { result ≡ length (lower addr waits.now) }
{
    waits.partition_point(|wait| wait.addr < addr)
}

/// How many wait at lower addresses or at this one.
pub fn end_of(waits: &[Wait], addr: u32) -> usize
    requires { IsRising 0 waits.now }
    ensures { result ≡ length (lower addr waits.now) + length (waiters_at addr waits.now) }
{
    waits.partition_point(|wait| wait.addr <= addr)
}

/// Puts the first `count` waiters of an address behind all others.
pub fn take_out(waits: &mut [Wait], addr: u32, count: usize)
    requires rising { IsRising 0 waits.old }
    requires within { count ≤ length (waiters_at addr waits.old) }
    ensures { waits.new ≡ without_woken addr count waits.old ++ map (wait_at addr) (woken_at addr count waits.old) }
{
    let start = start_of(waits, addr);
    turn(waits, start, count);
}

/// The waits behind the first `rest` are from now on waits at an address, after those that wait there.
pub fn bring_in(waits: &mut [Wait], rest: usize, addr: u32)
    requires rising { IsRising 0 (take rest waits.old) }
    requires within { rest ≤ length waits.old }
    ensures { waits.new ≡ with_waiters addr (waiters_at addr (take rest waits.old)
        ++ threads_of (drop rest waits.old)) (take rest waits.old) }
{
    let end = end_of(&waits[..rest], addr);
    readdress(&mut waits[rest..], addr);
    turn(waits, end, rest - end);
}

/// Puts the `count` waits from a place on behind all others.
fn turn(waits: &mut [Wait], start: usize, count: usize)
    requires { start + count ≤ length waits.old }
    ensures { waits.new ≡ turned start count waits.old }
{
    waits[start..].rotate_left(count);
}

/// The threads wait at another address.
fn readdress(waits: &mut [Wait], addr: u32)
    ensures { waits.new ≡ map (wait_at addr) (threads_of waits.old) }
{
    for place in 0..waits.len() {
        let thread = waits[place].thread;
        waits[place] = Wait { thread, addr };
    }
}

/// Appends the threads to a list that has room for them.
pub fn list_threads(waits: &[Wait], threads: &mut Vec<ThreadNo>)
    requires room { vec_len threads.old + length waits.now ≤ vec_capacity threads.old }
    ensures { threads.new.items ≡ threads.old.items ++ threads_of waits.now }
{
    for wait in waits {
        threads.push_reserved(wait.thread);
    }
}
