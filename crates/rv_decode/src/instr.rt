//! An instruction as its name and its fields.

/// The instructions of RV32I, M and A, in the order of the table `ROWS`.
#[derive(Clone, Copy, Debug, PartialEq, Eq)]
pub enum Op {
    LUI,
    AUIPC,
    JAL,
    JALR,
    BEQ,
    BNE,
    BLT,
    BGE,
    BLTU,
    BGEU,
    LB,
    LH,
    LW,
    LBU,
    LHU,
    SB,
    SH,
    SW,
    ADDI,
    SLTI,
    SLTIU,
    XORI,
    ORI,
    ANDI,
    SLLI,
    SRLI,
    SRAI,
    ADD,
    SUB,
    SLL,
    SLT,
    SLTU,
    XOR,
    SRL,
    SRA,
    OR,
    AND,
    MUL,
    MULH,
    MULHSU,
    MULHU,
    DIV,
    DIVU,
    REM,
    REMU,
    FENCE,
    ECALL,
    EBREAK,
    LR,
    SC,
    AMOSWAP,
    AMOADD,
    AMOXOR,
    AMOAND,
    AMOOR,
    AMOMIN,
    AMOMAX,
    AMOMINU,
    AMOMAXU,
}

/// An instruction: its name and its fields, where a field that its layout lacks is 0.
#[derive(Clone, Copy, Debug, PartialEq, Eq)]
pub struct Instr {
    pub op: Op,
    /// The destination register, 0 to 31.
    pub rd: u8,
    /// The first source register, 0 to 31.
    pub rs1: u8,
    /// The second source register, 0 to 31.
    pub rs2: u8,
    /// The signed immediate; a shift's amount, 0 to 31.
    pub imm: i32,
    /// The ordering bits of an atomic: 2 for acquire and 1 for release.
    pub order: u8,
}
