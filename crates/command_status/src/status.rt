//! How a command ends.

ghost use Rattle.std.specs.Prelude.{◌≡◌};
ghost use Rattle.command_status.specs.Ends.{end_status};
ghost use Rattle.command_status.specs.Numbers.{is_finished, number_of};

use byte_text::{OutOfMemory, Text};
use cg_read::FormatError;
use elf_read::ElfError;
use event_costs::End;

/// How a command ends. A name is held as its bytes.
#[derive(Debug, Drop, PartialEq)]
pub enum Status {
    /// The report or the summary was written.
    Done,
    /// The guest exited, with this code.
    Exited(u8),
    /// The words are none of the commands, or the event to sort by is none of the profile's.
    Usage,
    /// The program's file is refused, for this reason.
    ElfRefused(ElfError),
    /// The file of this name could not be loaded.
    LoadFault(Text),
    /// The file of this name could not be written.
    PutFault(Text),
    /// Output could not be written.
    OutFault,
    /// The file of this name is too long: its length in bytes.
    TooLong(Text, u64),
    /// The file of this name is no profile: its first faulty line.
    FormatRefused(Text, FormatError),
    /// A sum of this event, counted from 0, is above 2^64 - 1.
    SumLimit(u32),
    /// The profile of this name has other events than the first one.
    EventsDiffer(Text),
    /// A signal killed the guest: the signal, and the pc.
    Killed(u32, u32),
    /// The guest reached an instruction that the profiler doesn't know: the pc, and the word.
    UnsupportedInstr(u32, u32),
    /// The guest made a system call that the profiler doesn't know: the pc, and the number.
    UnsupportedCall(u32, u32),
    /// The budget of this many steps was spent.
    Budget(u64),
    /// As many frames were live as the profiler keeps.
    Frames,
    /// No thread was ready.
    AllWaiting,
    /// The program's pages are more than a guest may have.
    GuestFull,
    /// The program's name and arguments take this many bytes, which are too many.
    ArgsTooLong(u64),
    /// Memory was refused.
    OutOfMemory(OutOfMemory),
}

impl From<OutOfMemory> for Status {
    ghost use Rattle.std.specs.Prelude.{◌≡◌};
    ghost use Rattle.command_status.specs.declared.status.Status.TheVariants as status;

    ghost from_gives = { λ refused s. s ≡ status.OutOfMemory refused };

    fn from(refused: OutOfMemory) -> Status {
        Status::OutOfMemory(refused)
    }
}

impl From<End> for Status {
    ghost use Rattle.std.specs.Prelude.{◌≡◌};
    ghost use Rattle.command_status.specs.Ends.{end_status};

    ghost from_gives = { λ end s. s ≡ end_status end };

    fn from(end: End) -> Status {
        match end {
            End::Exited(code) => Status::Exited(code),
            End::Killed(signal, pc) => Status::Killed(signal, pc),
            End::UnsupportedInstr(pc, word) => Status::UnsupportedInstr(pc, word),
            End::UnsupportedCall(pc, number) => Status::UnsupportedCall(pc, number),
            End::Budget(steps) => Status::Budget(steps),
            End::Frames => Status::Frames,
            End::AllWaiting => Status::AllWaiting,
        }
    }
}

impl Status {
    /// The number that the process ends with.
    pub fn number(&self) -> u8
        ensures { result ≡ number_of self.now }
    {
        match self {
            Status::Done | Status::Exited(_) => 0,
            Status::Usage => 1,
            Status::ElfRefused(_) => 2,
            Status::LoadFault(_) => 3,
            Status::PutFault(_) => 4,
            Status::OutFault => 6,
            Status::TooLong(_, _) => 7,
            Status::FormatRefused(_, _) => 8,
            Status::SumLimit(_) | Status::EventsDiffer(_) => 9,
            Status::Killed(_, _) => 10,
            Status::UnsupportedInstr(_, _) => 11,
            Status::UnsupportedCall(_, _) => 12,
            Status::Budget(_) => 13,
            Status::Frames => 14,
            Status::AllWaiting => 15,
            Status::GuestFull | Status::ArgsTooLong(_) => 16,
            Status::OutOfMemory(_) => 20,
        }
    }

    /// Whether the work came to its end: the guest ended, or what was asked for was written.
    pub fn is_finished(&self) -> bool
        ensures { result ≡ is_finished self.now }
    {
        match self {
            Status::Done
            | Status::Exited(_)
            | Status::Killed(_, _)
            | Status::UnsupportedInstr(_, _)
            | Status::UnsupportedCall(_, _) => true,
            Status::Budget(_) | Status::Frames | Status::AllWaiting => true,
            _ => false,
        }
    }
}
