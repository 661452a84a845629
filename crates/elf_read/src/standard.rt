//! The numbers that the standard has names for (gABI: ELF Header, Program Header, Section Header, Symbol Table), and
//! the addresses that segments may have.

/// The bytes that each ELF file begins with, `ELFMAG0` to `ELFMAG3`.
pub const ELFMAG: [u8; 4] = *b"\x7fELF";
/// `e_ident[EI_CLASS]`: 32 bits.
pub const ELFCLASS32: u8 = 1;
/// `e_ident[EI_DATA]`: the low byte first.
pub const ELFDATA2LSB: u8 = 1;
/// `e_ident[EI_VERSION]` and `e_version`: the one version of the format.
pub const EV_CURRENT: u8 = 1;
/// `e_type`: an executable.
pub const ET_EXEC: u16 = 2;
/// `e_machine`: RISC-V.
pub const EM_RISCV: u16 = 243;

/// The length of the ELF header in bytes, `e_ehsize`.
pub const HEADER_LEN: u16 = 52;
/// The length of a program header in bytes, `e_phentsize`.
pub const PROGRAM_HEADER_LEN: u16 = 32;
/// The length of a section header in bytes, `e_shentsize`.
pub const SECTION_HEADER_LEN: u16 = 40;
/// The length of a symbol in bytes, `sh_entsize` of a symbol table.
pub const SYMBOL_LEN: u32 = 16;

/// `p_type`: a segment that is loaded.
pub const PT_LOAD: u32 = 1;
/// `p_type`: the path of an interpreter.
pub const PT_INTERP: u32 = 3;
/// `p_flags`: execute.
pub const PF_X: u32 = 1;
/// `p_flags`: write.
pub const PF_W: u32 = 2;
/// `p_flags`: read.
pub const PF_R: u32 = 4;

/// The first address that a segment may have.
pub const LOWEST_ADDR: u32 = 0x1000;
/// The address after the last one that a segment may have.
pub const ADDR_LIMIT: u32 = 0x4000_0000;

/// `sh_type`: no section.
pub const SHT_NULL: u32 = 0;
/// `sh_type`: bytes of the program.
pub const SHT_PROGBITS: u32 = 1;
/// `sh_type`: the symbol table.
pub const SHT_SYMTAB: u32 = 2;
/// `sh_type`: strings, as names of symbols or of sections.
pub const SHT_STRTAB: u32 = 3;
/// `sh_type`: a section without bytes in the file.
pub const SHT_NOBITS: u32 = 8;
/// `sh_flags`: writable.
pub const SHF_WRITE: u32 = 1;
/// `sh_flags`: in memory while the program runs.
pub const SHF_ALLOC: u32 = 2;
/// `sh_flags`: instructions.
pub const SHF_EXECINSTR: u32 = 4;
/// `sh_flags`: compressed.
pub const SHF_COMPRESSED: u32 = 0x800;

/// The type of a symbol: none is given.
pub const STT_NOTYPE: u8 = 0;
/// The type of a symbol: a function.
pub const STT_FUNC: u8 = 2;
/// The binding of a symbol: local to its object file.
pub const STB_LOCAL: u8 = 0;
/// The binding of a symbol: global.
pub const STB_GLOBAL: u8 = 1;
/// The binding of a symbol: weak.
pub const STB_WEAK: u8 = 2;
/// `st_shndx`: no section.
pub const SHN_UNDEF: u16 = 0;
/// `st_shndx`: the first index that names no section.
pub const SHN_LORESERVE: u16 = 0xff00;
