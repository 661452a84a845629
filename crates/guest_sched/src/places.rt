//! Where threads stand among the live ones.

ghost use Rattle.std.specs.Prelude.{◌≡◌, map, Some};
ghost use Rattle.std.specs.List.Sorted.{IsStrictlyIncreasing};
ghost use Rattle.guest_sys.specs.Kernel.{IsLive};
ghost use Rattle.guest_sched.specs.inner.Sound.{number_at};

use event_costs::ThreadNo;
use guest_load::Thread;

/// The place of a live thread, which mostly is where it stood when it last ran: only the end of a thread before it
/// moves it.
#[inline]
pub fn place_of(threads: &[Thread], thread: ThreadNo, last: usize) -> usize
    requires rising { IsStrictlyIncreasing (map (λ t. t.no.0) threads.now) }
    requires live { IsLive thread threads.now }
    ensures { number_at threads.now result ≡ Some thread.0 }
{
    match threads.get(last) {
        Some(live) if live.no == thread => last,
        _ => place_of_cold(threads, thread),
    }
}

/// The place of a live thread, by its number.
#[cold]
fn place_of_cold(threads: &[Thread], thread: ThreadNo) -> usize
    requires rising { IsStrictlyIncreasing (map (λ t. t.no.0) threads.now) }
    requires live { IsLive thread threads.now }
    ensures { number_at threads.now result ≡ Some thread.0 }
{
    match threads.binary_search_by_key(&thread.0, |live| live.no.0) {
        Ok(place) => place,
        Err(_) => unreachable!(),
    }
}
