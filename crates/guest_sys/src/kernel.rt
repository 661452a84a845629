//! The kernel: the guest, and all that wait.

ghost use Rattle.std.specs.Prelude.{◌≡◌, ◌==◌, ◌<◌, ◌≤◌, [], length, map, position, Some, IfOk, List, OnErr};
ghost use Rattle.std.specs.List.Sorted.{IsStrictlyIncreasing};
ghost use Rattle.guest_futex.specs.Waits.{times_waiting};
ghost use Rattle.guest_futex.specs.declared.queue.Wait.{Wait};
ghost use Rattle.guest_load.specs.Lawful.{IsLawful};
ghost use Rattle.guest_sys.specs.Kernel.{EachWaiterLives, IsLive, kernel_of};
ghost use Rattle.guest_sys.specs.Common.{IsCaller, WhereRefused, number};
ghost use Rattle.guest_sys.specs.inner.Bodies.{Gives};
ghost use Rattle.guest_sys.specs.CallRow.{Calls, call_row, caller_of, row_does};
ghost use Rattle.guest_sys.specs.Laws.{ChangesNothing, IsBalanced};
ghost use Rattle.guest_sys.specs.Reaching.{IsWithin};
ghost use Rattle.guest_sys.specs.Taking.{CallTakes, TakesMemory};

use crate::caller::{
    Caller, ENOENT, ENOMEM, ENOSYS, ENOTTY, ESPIPE, answer, error_of, go_on, refuse,
};
use crate::effect::{Act, Effect, SysEnd};
use crate::reach::{Reach, reach_of};
use crate::simple::on_stream;
use crate::table::{Row, row_of};
use crate::{clock, futexes, pages, signals, streams, threads, vectors};
use event_costs::ThreadNo;
use guest_futex::Waiters;
use guest_load::{Guest, Thread};
use std::alloc::Global;
use std::marker::Model;

/// A guest and its threads that wait, each of which is a live one. Contracts see the guest and the list of waits.
#[derive(Drop)]
pub struct Kernel {
    pub guest: Guest,
    pub waiters: Waiters,
    alloc: Global,
}

impl Model for Kernel {
    ghost use Rattle.guest_sys.specs.Kernel.{EachWaiterLives, Kernel, kernel_of, kernel_code};

    ghost Value = { Kernel };

    ghost coded = { kernel_code };

    ghost view = { λ k. kernel_of k.guest k.waiters.waits };

    ghost invariant = { λ k. EachWaiterLives k.guest.threads k.waiters.waits };
}

impl Kernel {
    /// A kernel in which no thread waits. It takes no memory.
    pub fn new(alloc: Global, guest: Guest) -> Kernel
        ensures { result ≡ kernel_of guest [] }
    {
        Kernel {
            guest,
            waiters: Waiters::new(alloc),
            alloc,
        }
    }

    /// The system call of a thread that stands at an ECALL, by its number in a7 and its arguments in a0 to a5. The
    /// answer is in its a0 afterwards, and it stands at the next instruction; a thread that waits has the
    /// answer 0 at once.
    ///
    /// # Errors
    ///
    /// `SysEnd::Unsupported` with the number where no row has it, or its row doesn't name the arguments.
    /// `SysEnd::OutOfMemory` where memory is refused for what it outputs, a list of ranges, a wait, those that are woken,
    /// a new thread, or pages; and for no call that takes none.
    pub fn call(&mut self, thread: ThreadNo) -> Result<Effect, SysEnd>
        requires live { IsLive thread self.old.guest.threads }
        requires runs { times_waiting thread self.old.waits ≡ 0 }
        // the answer and all that it leaves are those of the call's row
        ensures row { Calls (call_row self.old thread) self.old result self.new }
        ensures refused { OnErr result (self.new ≡ self.old) }
        // memory is wanting only where the row takes some
        ensures memory { WhereRefused result (CallTakes self.old (caller_of thread self.old.guest.threads)) }
        ensures killed { IfOk result (λ effect. ChangesNothing effect.act self.old self.new) }
        // whatever the row is
        ensures balance { IfOk result (λ effect. IsBalanced thread self.old effect self.new) }
    {
        serve(self.alloc, &mut self.guest, &mut self.waiters, thread)
    }

    /// Where the system call of a thread may change memory: all else stays as it is.
    pub fn reach(&self, thread: ThreadNo) -> Reach
        requires live { IsLive thread self.now.guest.threads }
        ensures { IfOk (call_row self.now thread) (λ done. IsWithin result self.now.guest.mem done.1.guest.mem) }
    {
        reach_in(&self.guest, thread)
    }
}

/// Where the call of a live thread may change memory.
fn reach_in(guest: &Guest, thread: ThreadNo) -> Reach
    requires { IsLive thread guest.now.threads }
    ensures { (waits : List Wait) → IfOk (call_row (kernel_of guest.now waits) thread)
        (λ done. IsWithin result guest.now.mem done.1.guest.mem) }
{
    let caller = live_caller(guest, thread);
    match row_of(caller.number()) {
        Some(row) => reach_of(row, guest, &caller),
        None => Reach::NOTHING,
    }
}

/// Makes the call of a live thread that doesn't wait.
fn serve(
    alloc: Global,
    guest: &mut Guest,
    waiters: &mut Waiters,
    thread: ThreadNo,
) -> Result<Effect, SysEnd>
    requires live { IsLive thread guest.old.threads }
    requires runs { times_waiting thread waiters.old.waits ≡ 0 }
    requires lives { EachWaiterLives guest.old.threads waiters.old.waits }
    ensures row { let before = kernel_of guest.old waiters.old.waits in
        Calls (call_row before thread) before result (kernel_of guest.new waiters.new.waits) }
    ensures memory { let before = kernel_of guest.old waiters.old.waits in
        WhereRefused result (CallTakes before (caller_of thread guest.old.threads)) }
    ensures killed { IfOk result (λ effect. ChangesNothing effect.act (kernel_of guest.old waiters.old.waits)
        (kernel_of guest.new waiters.new.waits)) }
    ensures balance { IfOk result (λ effect. IsBalanced thread (kernel_of guest.old waiters.old.waits) effect
        (kernel_of guest.new waiters.new.waits)) }
    ensures lives { EachWaiterLives guest.new.threads waiters.new.waits }
{
    let caller = live_caller(guest, thread);
    match row_of(caller.number()) {
        Some(row) => apply(alloc, guest, waiters, &caller, row),
        None => Err(caller.unsupported()),
    }
}

/// The caller of a live thread's number.
fn live_caller(guest: &Guest, thread: ThreadNo) -> Caller
    requires { IsLive thread guest.now.threads }
    ensures found { caller_of thread guest.now.threads ≡ Some result }
    ensures caller { IsCaller guest.now result }
    ensures number { result.thread.no ≡ thread }
    ensures few { length guest.now.threads ≤ 1024 }
    ensures lawful { IsLawful guest.now }
{
    caller_of(&guest.threads, thread).unwrap()
}

/// The thread of a number, with its place among others by rising number.
#[tactic(auto, unfolding(crate::specs::CallRow::caller_of))]
fn caller_of(threads: &[Thread], thread: ThreadNo) -> Option<Caller>
    requires { IsStrictlyIncreasing (map (λ t. t.no.0) threads.now) }
    ensures { result ≡ caller_of thread threads.now }
{
    let place = place_of(threads, thread)?;
    let thread = *threads.get(place)?;
    Some(Caller { place, thread })
}

/// The place of a thread of the number among others by rising number.
fn place_of(threads: &[Thread], thread: ThreadNo) -> Option<usize>
    requires { IsStrictlyIncreasing (map (λ t. t.no.0) threads.now) }
    ensures { result ≡ position (λ t. t.no.0 == thread.0) threads.now }
{
    threads
        .binary_search_by_key(&thread.0, |live| live.no.0)
        .ok()
}

/// Applies a row.
fn apply(
    alloc: Global,
    guest: &mut Guest,
    waiters: &mut Waiters,
    caller: &Caller,
    row: Row,
) -> Result<Effect, SysEnd>
    requires caller { IsCaller guest.old caller.now }
    requires apart { times_waiting caller.now.thread.no waiters.old.waits ≡ 0 }
    requires few { length waiters.old.waits < 65535 }
    ensures { let before = kernel_of guest.old waiters.old.waits in
        Gives (TakesMemory row before caller.now) (row_does row before caller.now) (number caller.now) before result
        (kernel_of guest.new waiters.new.waits) }
{
    match row {
        Row::Ioctl => Ok(on_stream(alloc, guest, caller, error_of(ENOTTY))),
        Row::Absent => Ok(refuse(alloc, guest, caller, ENOENT)),
        Row::Close => Ok(on_stream(alloc, guest, caller, 0)),
        Row::Llseek => Ok(on_stream(alloc, guest, caller, error_of(ESPIPE))),
        Row::Read => Ok(streams::read(alloc, guest, caller)),
        Row::Write => streams::write(alloc, guest, caller),
        Row::Readv => vectors::readv(alloc, guest, caller),
        Row::Writev => vectors::writev(alloc, guest, caller),
        Row::Exit => threads::exit(alloc, guest, waiters, caller),
        Row::ExitGroup => Ok(threads::exit_group(alloc, caller)),
        Row::SetTidAddress => Ok(threads::set_tid_address(alloc, guest, caller)),
        Row::Futex => futexes::futex(alloc, guest, waiters, caller),
        Row::Accepted => Ok(answer(alloc, guest, caller, 0)),
        Row::SchedYield => Ok(go_on(alloc, guest, caller, Act::Yield, 0)),
        Row::Kill => signals::kill(alloc, guest, caller),
        Row::Tkill => signals::tkill(alloc, guest, caller),
        Row::Tgkill => signals::tgkill(alloc, guest, caller),
        Row::Process => Ok(answer(alloc, guest, caller, 1)),
        Row::ThreadNumber => Ok(answer(alloc, guest, caller, caller.thread.no.0)),
        Row::Brk => pages::brk(alloc, guest, caller),
        Row::Munmap => Ok(pages::munmap(alloc, guest, caller)),
        Row::Mremap => Ok(refuse(alloc, guest, caller, ENOMEM)),
        Row::Clone => threads::clone(alloc, guest, caller),
        Row::Mmap => pages::mmap(alloc, guest, caller),
        Row::Mprotect => Ok(pages::mprotect(alloc, guest, caller)),
        Row::Getrandom => Ok(clock::getrandom(alloc, guest, caller)),
        Row::ClockGettime => Ok(clock::clock_gettime(alloc, guest, caller)),
        Row::Clone3 => Ok(refuse(alloc, guest, caller, ENOSYS)),
    }
}
