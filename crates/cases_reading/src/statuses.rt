//! The number and the line of each status.

use anyhow::{Result, bail};
use cg_read::FormatError;
use command_status::Status;
use elf_read::{ElfError, Field};
use prof_base::{End, OutOfMemory, Text};
use script_lines::{Escaped, Scene};
use std::alloc::Global;

static ENDS: [End; 8] = [
    End::Exited(0),
    End::Exited(255),
    End::Killed(11, 65536),
    End::UnsupportedInstr(65540, 17665),
    End::UnsupportedCall(4_294_967_292, 4_294_967_295),
    End::Budget(1_000_000_000_000),
    End::Frames,
    End::AllWaiting,
];

static PROGRAMS: [ElfError; 15] = [
    ElfError::Short(52),
    ElfError::NotElf,
    ElfError::NotThisKind(Field::Class, 2),
    ElfError::NotThisKind(Field::ByteOrder, 2),
    ElfError::NotThisKind(Field::IdentVersion, 0),
    ElfError::NotThisKind(Field::Kind, 3),
    ElfError::NotThisKind(Field::Machine, 62),
    ElfError::NotThisKind(Field::Version, 0),
    ElfError::NotThisKind(Field::PhSize, 56),
    ElfError::NotThisKind(Field::ShSize, 64),
    ElfError::Interp,
    ElfError::BadSegment(3),
    ElfError::Overlap(1, 2),
    ElfError::NoEntry,
    ElfError::Compressed(7),
];

static PROFILES: [FormatError; 6] = [
    FormatError::BadLine(1),
    FormatError::NoEvents,
    FormatError::Jumps(20),
    FormatError::UnknownId(3),
    FormatError::BadNumber(4),
    FormatError::Instr(5),
];

/// The name of each file.
fn file(alloc: Global) -> Result<Text, OutOfMemory> {
    Text::from_bytes(alloc, b"no\tname ")
}

/// What stops the work, or ends it, by its name.
fn status(alloc: Global, name: &str) -> Result<Status> {
    Ok(match name {
        "Done" => Status::Done,
        "Usage" => Status::Usage,
        "OutFault" => Status::OutFault,
        "SumLimit" => Status::SumLimit(13),
        "GuestFull" => Status::GuestFull,
        "ArgsTooLong" => Status::ArgsTooLong(65537),
        "OutOfMemory" => Status::OutOfMemory(OutOfMemory::of_library()),
        _ => return status_of_file(name, file(alloc)?),
    })
}

/// What stops the work at a file.
fn status_of_file(name: &str, file: Text) -> Result<Status> {
    Ok(match name {
        "LoadFault" => Status::LoadFault(file),
        "PutFault" => Status::PutFault(file),
        "TooLong" => Status::TooLong(file, u64::MAX),
        "EventsDiffer" => Status::EventsDiffer(file),
        _ => bail!("no such status"),
    })
}

/// Prints the number of a status, whether the work came to its end, and the line that tells it.
fn print_status(rt: &HostRuntime, status: &Status) -> Result<()> {
    let finished = if status.is_finished() {
        "finished"
    } else {
        "stopped"
    };
    let message = status.message(rt.alloc())?;
    println!(rt; "{} {finished}", status.number())?;
    print!(rt; "{}", Escaped(message.as_bytes()))?;
    Ok(())
}

fn print_ends(rt: &HostRuntime) -> Result<()> {
    for end in &ENDS {
        print_status(rt, &Status::from(*end))?;
    }
    Ok(())
}

fn print_programs(rt: &HostRuntime) -> Result<()> {
    for error in &PROGRAMS {
        print_status(rt, &Status::ElfRefused(*error))?;
    }
    Ok(())
}

fn print_profiles(rt: &HostRuntime) -> Result<()> {
    for error in &PROFILES {
        print_status(rt, &Status::FormatRefused(file(rt.alloc())?, *error))?;
    }
    Ok(())
}

#[derive(Clone, Copy)]
pub struct Stage;

impl Scene for Stage {
    /// Prints the statuses of `ends` of the guest, of `programs` or of `profiles` that are refused, or the one that a line
    /// names.
    fn follow(&mut self, rt: &HostRuntime, line: &str) -> Result<()> {
        match line {
            "ends" => print_ends(rt),
            "programs" => print_programs(rt),
            "profiles" => print_profiles(rt),
            name => print_status(rt, &status(rt.alloc(), name)?),
        }
    }
}
