//! The codes that line tables are written in, under the standard's names (DWARF 5, 7.22), and those of the forms of
//! their fields (7.5.6).

/// In the place of an opcode: an extended opcode follows, behind its length (DWARF 5, 6.2.5.3).
pub const DW_LNS_EXTENDED_OP: u8 = 0x00;

/// Standard opcode (table 7.25): a row.
pub const DW_LNS_COPY: u8 = 0x01;
/// Standard opcode: the address moves by so many operations, a ULEB128.
pub const DW_LNS_ADVANCE_PC: u8 = 0x02;
/// Standard opcode: the line moves by so many, a SLEB128.
pub const DW_LNS_ADVANCE_LINE: u8 = 0x03;
/// Standard opcode: the file, a ULEB128.
pub const DW_LNS_SET_FILE: u8 = 0x04;
/// Standard opcode: the address moves as by the special opcode 255.
pub const DW_LNS_CONST_ADD_PC: u8 = 0x08;
/// Standard opcode: the address moves by so many bytes, a number of two bytes.
pub const DW_LNS_FIXED_ADVANCE_PC: u8 = 0x09;

/// Extended opcode (table 7.26): the sequence ends.
pub const DW_LNE_END_SEQUENCE: u8 = 0x01;
/// Extended opcode: the address, a number of four bytes.
pub const DW_LNE_SET_ADDRESS: u8 = 0x02;

/// Content type code (table 7.27), a ULEB128: a path.
pub const DW_LNCT_PATH: u64 = 0x1;
/// Content type code: the number of a directory.
pub const DW_LNCT_DIRECTORY_INDEX: u64 = 0x2;

/// Form (table 7.6), a ULEB128: a number of two bytes.
pub const DW_FORM_DATA2: u64 = 0x05;
/// Form: a number of four bytes.
pub const DW_FORM_DATA4: u64 = 0x06;
/// Form: a number of eight bytes.
pub const DW_FORM_DATA8: u64 = 0x07;
/// Form: a text in place, with a zero byte at its end.
pub const DW_FORM_STRING: u64 = 0x08;
/// Form: a length, a ULEB128, and so many bytes.
pub const DW_FORM_BLOCK: u64 = 0x09;
/// Form: a number of one byte.
pub const DW_FORM_DATA1: u64 = 0x0b;
/// Form: an offset of four bytes into `.debug_str`.
pub const DW_FORM_STRP: u64 = 0x0e;
/// Form: a number, a ULEB128.
pub const DW_FORM_UDATA: u64 = 0x0f;
/// Form: sixteen bytes.
pub const DW_FORM_DATA16: u64 = 0x1e;
/// Form: an offset of four bytes into `.debug_line_str`.
pub const DW_FORM_LINE_STRP: u64 = 0x1f;
