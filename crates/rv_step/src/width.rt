//! The widths of loads and stores.

ghost use Rattle.std.specs.Prelude.{◌≡◌};
ghost use Rattle.rv_step.specs.inner.Widths.{bytes_loaded, bytes_stored};

/// What a load takes: a byte or a half with its sign extended, or without, or a word.
#[derive(Clone, Copy, Debug)]
pub enum Load {
    SignedByte,
    SignedHalf,
    Byte,
    Half,
    Word,
}

impl Load {
    /// How many bytes it takes.
    #[inline(always)]
    pub fn bytes(self) -> u8
        ensures { result ≡ bytes_loaded self }
    {
        match self {
            Load::SignedByte | Load::Byte => 1,
            Load::SignedHalf | Load::Half => 2,
            Load::Word => 4,
        }
    }
}

/// How much of rs2 a store puts.
#[derive(Clone, Copy, Debug)]
pub enum Store {
    Byte,
    Half,
    Word,
}

impl Store {
    /// How many bytes it puts.
    #[inline(always)]
    pub fn bytes(self) -> u8
        ensures { result ≡ bytes_stored self }
    {
        match self {
            Store::Byte => 1,
            Store::Half => 2,
            Store::Word => 4,
        }
    }
}
