//! The kinds of event that are counted.

/// A kind of event, by Callgrind's name for it (Valgrind manual, Callgrind, "Cache simulation options"), in the order
/// of their numbers.
#[derive(Clone, Copy, Debug)]
pub enum Kind {
    /// An instruction.
    Ir,
    /// A read of data, and a write.
    Dr,
    Dw,
    /// A miss in the first level: of a fetch, a read and a write.
    I1mr,
    D1mr,
    D1mw,
    /// A miss in the last level: of a fetch, a read and a write.
    ILmr,
    DLmr,
    DLmw,
    /// A conditional branch, and one that was predicted wrongly.
    Bc,
    Bcm,
    /// An indirect branch, and one that was predicted wrongly.
    Bi,
    Bim,
}
