//! The values of LEB128 numbers (DWARF 5, 7.6) by their bytes.

ghost use Rattle.std.specs.Prelude.{◌≡◌, ◌<◌, ◌-◌, ◌^◌, length, true, false, SomeIff};
ghost use Rattle.dwarf_line.specs.Leb128.{number_of, signed_of, is_negative};

/// The number whose digits are the low seven bits of the bytes, the lowest first, or the complements of
/// those bits; `None` where it does not fit 64 bits.
fn number(groups: &[u8], flipped: bool) -> Option<u64>
    ensures { SomeIff result (number_of flipped groups.now < 2 ^ 64) (number_of flipped groups.now) }
{
    let mut number = 0u64;
    'digits: for i in (0..groups.len()).rev() {
        let low = groups[i] % 128;
        let digit = if flipped { 127 - low } else { low };
        number = number.checked_mul(128)?.checked_add(u64::from(digit))?;
    }
    Some(number)
}

/// The unsigned number of these bytes.
pub fn unsigned(groups: &[u8]) -> Option<u64>
    ensures { SomeIff result (number_of false groups.now < 2 ^ 64) (number_of false groups.now) }
{
    number(groups, false)
}

/// The signed number of these bytes, in two's complement: the second highest bit of the last one is the sign.
pub fn signed(groups: &[u8]) -> Option<i64>
    ensures { SomeIff result (number_of (is_negative groups.now) groups.now < 2 ^ 63) (signed_of groups.now) }
{
    let negative = groups.last().is_some_and(|last| *last >= 64);
    let number = i64::try_from(number(groups, negative)?).ok()?;
    Some(if negative { -1 - number } else { number })
}
