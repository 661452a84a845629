//! Where a system call may change memory.

ghost use Rattle.std.specs.Prelude.{◌≡◌};
ghost use Rattle.guest_sys.specs.Pages.{page_end};
ghost use Rattle.guest_sys.specs.Reaching.{all_from, bytes_from, reach_of};

use crate::caller::Caller;
use crate::table::Row;
use event_costs::ADDRESSES;
use guest_load::Guest;

/// So many bytes from an address on.
#[derive(Clone, Copy, Debug)]
pub struct Reach {
    pub address: u32,
    pub bytes: u64,
}

impl Reach {
    /// No byte.
    pub const NOTHING: Reach = Reach {
        address: 0,
        bytes: 0,
    };

    /// All bytes from an address on.
    fn from(address: u32) -> Reach
        ensures { result ≡ all_from address }
    {
        Reach {
            address,
            bytes: ADDRESSES,
        }
    }
}

/// The whole pages that so many bytes touch from the start of a page on.
fn pages(address: u32, bytes: u32) -> Reach
    ensures { result ≡ bytes_from address (page_end bytes) }
{
    Reach {
        address,
        bytes: (u64::from(bytes) + 4095) / 4096 * 4096,
    }
}

/// Where a row may change memory, as the caller's arguments tell.
pub fn reach_of(row: Row, guest: &Guest, caller: &Caller) -> Reach
    ensures { result ≡ reach_of row guest.now caller.now }
{
    match row {
        Row::Read => Reach {
            address: caller.argument(1),
            bytes: u64::from(caller.argument(2)),
        },
        Row::ClockGettime => Reach {
            address: caller.argument(1),
            bytes: 16,
        },
        Row::Getrandom => Reach {
            address: caller.argument(0),
            bytes: 256,
        },
        Row::Exit => Reach {
            address: caller.thread.clear,
            bytes: 4,
        },
        Row::Brk => Reach::from(guest.first_break),
        Row::Mmap => Reach::from(0x4000_0000),
        Row::Munmap | Row::Mprotect => pages(caller.argument(0), caller.argument(1)),
        Row::Readv | Row::Clone => Reach::from(0),
        _ => Reach::NOTHING,
    }
}
