//! How a run ends, and what noting an event did to the stack.

use crate::numbers::FuncId;

/// Why a run is over.
#[derive(Clone, Copy, Debug, PartialEq, Eq)]
pub enum End {
    /// The guest exited with this code.
    Exited(u8),
    /// A signal killed the guest: the signal, and the pc.
    Killed(u32, u32),
    /// An instruction that no row of the table matches: the pc, and the word.
    UnsupportedInstr(u32, u32),
    /// A system call that no row of the table allows: the pc, and the number in a7.
    UnsupportedCall(u32, u32),
    /// The budget of this many steps is spent.
    Budget(u64),
    /// As many frames are live as the profiler keeps.
    Frames,
    /// No thread is ready.
    AllWaiting,
}

/// What noting an event did to the thread's stack.
#[derive(Clone, Copy, Debug, PartialEq, Eq)]
pub struct Noted {
    /// The function of the frame that it pushed.
    pub pushed: Option<FuncId>,
    /// Whether it dropped a frame of a function that is watched.
    pub left: bool,
}
