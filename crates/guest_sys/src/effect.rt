//! What a system call does beside its changes of the guest, and why it can't be made.

ghost use Rattle.std.specs.Prelude.{◌≡◌};
ghost use Rattle.byte_text.specs.Memory.{memory};

use byte_text::{OutOfMemory, Text};
use event_costs::ThreadNo;
use guest_futex::ThreadList;
use std::alloc::AllocError;
use thiserror::Error;

/// What a system call does.
#[derive(Debug, Drop)]
pub enum Act {
    /// It is answered, and that is all.
    Answer,
    /// The caller waits at this address.
    Wait(u32),
    /// The caller's turn ends.
    Yield,
    /// This thread was made.
    Spawn(ThreadNo),
    /// These bytes are output to this descriptor, 1 or 2.
    Output(u32, Text),
    /// The caller has ended, and other threads live.
    ThreadEnd,
    /// The process ends with this code.
    ProcessEnd(u8),
    /// This signal kills the guest: nothing changed.
    Killed(u32),
}

/// What a system call does, and the threads that it woke, in order of waking.
#[derive(Debug, Drop)]
pub struct Effect {
    pub act: Act,
    pub woken: ThreadList,
}

/// Why a system call can't be made. Nothing changed.
#[derive(Clone, Copy, Debug, PartialEq, Eq, Error)]
pub enum SysEnd {
    /// No row has this number in a7, or its row doesn't name the arguments.
    #[error("unsupported system call {0}")]
    Unsupported(u32),
    /// Memory was refused.
    #[error("out of memory")]
    OutOfMemory(OutOfMemory),
}

impl From<AllocError> for SysEnd {
    ghost use Rattle.guest_sys.specs.declared.effect.SysEnd.{SysEnd};

    ghost from_gives = { λ _ e. e ≡ SysEnd.OutOfMemory memory };

    fn from(refused: AllocError) -> SysEnd {
        SysEnd::OutOfMemory(OutOfMemory::from(refused))
    }
}

impl From<OutOfMemory> for SysEnd {
    ghost use Rattle.guest_sys.specs.declared.effect.SysEnd.{SysEnd};

    ghost from_gives = { λ refused e. e ≡ SysEnd.OutOfMemory refused };

    fn from(refused: OutOfMemory) -> SysEnd {
        SysEnd::OutOfMemory(refused)
    }
}
