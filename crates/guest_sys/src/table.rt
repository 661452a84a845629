//! The numbers of the system calls, and their rows.

ghost use Rattle.std.specs.Prelude.{◌≡◌, ◌==◌, ◌≢◌, ◌↔◌, All, IsNone, position};
ghost use Rattle.guest_sys.specs.Table.{row_at};

/// The number of a system call.
#[derive(Clone, Copy, Debug, PartialEq, Eq)]
pub struct CallNumber(pub u32);

/// The rows: what a system call does. Calls that do the same share one.
#[derive(Clone, Copy, Debug, PartialEq, Eq)]
pub enum Row {
    Ioctl,
    /// There are no files.
    Absent,
    Close,
    Llseek,
    Read,
    Write,
    Readv,
    Writev,
    Exit,
    ExitGroup,
    SetTidAddress,
    Futex,
    /// Answered 0, with nothing to do.
    Accepted,
    SchedYield,
    Kill,
    Tkill,
    Tgkill,
    /// The number of the process.
    Process,
    /// The number of the calling thread.
    ThreadNumber,
    Brk,
    Munmap,
    Mremap,
    Clone,
    Mmap,
    Mprotect,
    Getrandom,
    ClockGettime,
    Clone3,
}

/// The first place of a table that holds the number, if there is one.
pub fn place_of<const N: usize>(numbers: &[CallNumber; N], number: u32) -> Option<usize>
    ensures first { result ≡ position (λ n. n.0 == number) numbers.now }
    ensures none { IsNone result ↔ All (λ n. n.0 ≢ number) numbers.now }
{
    numbers.iter().position(|n| n.0 == number)
}

/// The row of a number, if it is that of a system call.
#[tactic(auto, unfolding(crate::specs::Table::row_at))]
pub fn row_of(number: u32) -> Option<Row>
    ensures { result ≡ row_at number }
{
    let place = place_of(&NUMBERS, number)?;
    Some(ROWS[place])
}

/// Some numbers of calls on one line.
macro_rules! call_numbers {
    ($($number:literal)*) => {
        [$(CallNumber($number)),*]
    };
}

/// The rows of some calls on one line.
macro_rules! call_rows {
    ($($row:ident)*) => {
        [$(Row::$row),*]
    };
}

/// The numbers of the system calls (Linux, asm-generic/unistd.h).
pub static NUMBERS: [CallNumber; 37] = call_numbers!(
    29 56 291 57 62
    63 64 65 66
    93 94 96 98 422
    99 134 135 233
    124 129 130 131 172
    174 175 176 177 178
    214 215 216 220 222 226
    278 403 435
);

/// The rows of these numbers, in the same order.
pub static ROWS: [Row; 37] = call_rows!(
    Ioctl Absent Absent Close Llseek
    Read Write Readv Writev
    Exit ExitGroup SetTidAddress Futex Futex
    Accepted Accepted Accepted Accepted
    SchedYield Kill Tkill Tgkill Process
    Accepted Accepted Accepted Accepted ThreadNumber
    Brk Munmap Mremap Clone Mmap Mprotect
    Getrandom ClockGettime Clone3
);
