//! One event of the trace, and the words that it is made of.

ghost use Rattle.std.specs.Prelude.{◌≡◌};

use crate::numbers::ThreadNo;

/// The registers of a hart: the program counter and x0 to x31.
#[derive(Clone, Copy, Debug, PartialEq, Eq)]
pub struct Regs {
    pub pc: u32,
    pub x: [u32; 32],
}

/// The register that has the stack pointer, x2.
pub const STACK_POINTER: usize = 2;

/// The bytes of an instruction.
pub const INSTRUCTION_BYTES: u32 = 4;

/// How many addresses there are.
pub const ADDRESSES: u64 = 0x1_0000_0000;

/// How an instruction hands control on, by the link register table of the RISC-V unprivileged manual (2.5).
#[derive(Clone, Copy, Debug, PartialEq, Eq)]
pub enum Flow {
    Call,
    Jump,
    /// A return and a call in one, as a coroutine makes it.
    Swap,
    Plain,
}

/// The data reference of an instruction: an address and a length in bytes.
#[derive(Clone, Copy, Debug, PartialEq, Eq)]
pub enum Touch {
    Nothing,
    Read(u32, u8),
    Write(u32, u8),
}

/// The kind of branch that an instruction is.
#[derive(Clone, Copy, Debug, PartialEq, Eq)]
pub enum Branch {
    Nothing,
    /// A conditional branch, true where it is taken.
    Cond(bool),
    /// A jump to the address in a register (JALR).
    Indirect,
}

/// What one retired instruction did, as far as a profile asks.
#[derive(Clone, Copy, Debug, PartialEq, Eq)]
pub struct Done {
    pub pc: u32,
    /// The pc after it.
    pub next: u32,
    /// The stack pointer x2 after it.
    pub sp: u32,
    pub flow: Flow,
    pub touch: Touch,
    pub branch: Branch,
}

impl Done {
    /// The same, copied field by field: a copy of the whole would carry the bytes between its fields along.
    #[inline(always)]
    pub fn copied(self) -> Done
        ensures { result ≡ self }
    {
        Done {
            pc: self.pc,
            next: self.next,
            sp: self.sp,
            flow: self.flow,
            touch: self.touch,
            branch: self.branch,
        }
    }
}

/// One event of the trace: one retired instruction of one thread.
#[derive(Clone, Copy, Debug, PartialEq, Eq)]
pub struct Event {
    pub thread: ThreadNo,
    pub done: Done,
    /// Whether the thread ends with it, by a system call `exit` or `exit_group`.
    pub ends: bool,
}

impl Event {
    /// The same event, copied field by field: a copy of the whole would carry the bytes between its fields along, so
    /// that what is in registers would go through memory.
    #[inline(always)]
    pub fn copied(self) -> Event
        ensures { result ≡ self }
    {
        Event {
            thread: self.thread,
            done: self.done.copied(),
            ends: self.ends,
        }
    }
}
