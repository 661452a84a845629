//! Why bytes are refused.

ghost use Rattle.std.specs.Prelude.{◌≡◌};
ghost use Rattle.elf_read.specs.declared.error.ElfError.TheVariants.{OutOfMemory};
ghost use Rattle.byte_text.specs.Memory.{memory};

use byte_text::OutOfMemory;
use std::alloc::{AllocError, AllocFailed};
use thiserror::Error;

/// A field of the ELF header that has to have one value.
#[derive(Clone, Copy, Debug, PartialEq, Eq)]
pub enum Field {
    /// `e_ident[EI_CLASS]`, which is `ELFCLASS32`.
    Class,
    /// `e_ident[EI_DATA]`, which is `ELFDATA2LSB`.
    ByteOrder,
    /// `e_ident[EI_VERSION]`, which is `EV_CURRENT`.
    IdentVersion,
    /// `e_type`, which is `ET_EXEC`.
    Kind,
    /// `e_machine`, which is `EM_RISCV`.
    Machine,
    /// `e_version`, which is `EV_CURRENT`.
    Version,
    /// `e_phentsize`, where there are program headers.
    PhSize,
    /// `e_shentsize`, where there are section headers.
    ShSize,
}

/// The first check that the bytes of a file fail.
#[derive(Clone, Copy, Debug, PartialEq, Eq, Error)]
pub enum ElfError {
    /// The file ends within a header or what it names: so many bytes are needed.
    #[error("the file ends too early: {0} bytes are needed")]
    Short(u64),
    /// The file doesn't begin with the magic number.
    #[error("not an ELF file")]
    NotElf,
    /// A field of the ELF header, and the value that it has.
    #[error("not an executable for 32-bit RISC-V: {0:?} is {1}")]
    NotThisKind(Field, u32),
    /// The program asks for an interpreter, so it isn't static.
    #[error("the program is not static")]
    Interp,
    /// The number of a segment that has more bytes in the file than in memory, or lies outside the
    /// addresses 0x1000 to 0x40000000.
    #[error("segment {0} has a wrong size or address")]
    BadSegment(u32),
    /// The numbers of two segments that share an address, the lower one first.
    #[error("segments {0} and {1} overlap")]
    Overlap(u32, u32),
    /// The entry isn't the address of an instruction in a segment with execute permission.
    #[error("the entry is not in code")]
    NoEntry,
    /// The index of a compressed section.
    #[error("section {0} is compressed")]
    Compressed(u32),
    /// Memory was refused.
    #[error("out of memory")]
    OutOfMemory(OutOfMemory),
}

impl From<AllocError> for ElfError {
    ghost from_gives = { λ _ e. e ≡ OutOfMemory memory };

    fn from(refused: AllocError) -> ElfError {
        ElfError::OutOfMemory(OutOfMemory::from(refused))
    }
}

impl<T: Drop> From<AllocFailed<T>> for ElfError {
    ghost from_gives = { λ _ e. e ≡ OutOfMemory memory };

    fn from(refused: AllocFailed<T>) -> ElfError {
        ElfError::OutOfMemory(OutOfMemory::from(refused))
    }
}
