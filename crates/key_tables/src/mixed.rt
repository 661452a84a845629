//! Numbers that are made of texts.

ghost use Rattle.std.specs.Prelude.{◌≡◌};
ghost use Rattle.key_tables.specs.inner.Mixed.{mixed};

/// The number that is made of these bytes.
pub(crate) fn mix(bytes: &[u8]) -> u64
    ensures { result ≡ mixed bytes.now }
{
    let mut number: u64 = 0;
    'bytes: for byte in bytes {
        number = number
            .wrapping_mul(0x100000001b3)
            .wrapping_add(u64::from(*byte));
    }
    number
}
