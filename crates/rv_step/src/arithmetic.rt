//! Numbers of 32 bits, by the rules of the manual's chapters RV32I and M.

ghost use Rattle.std.specs.Prelude.{◌≡◌, ◌<◌, ◌^◌};
ghost use Rattle.std.specs.Int.{int_shr};
ghost use Rattle.rv_step.specs.Numbers.{difference, extended, high_mixed, high_signed, high_unsigned};
ghost use Rattle.rv_step.specs.Numbers.{quotient_signed, quotient_unsigned, remainder_signed, remainder_unsigned};
ghost use Rattle.rv_step.specs.Numbers.{shifted_right_signed, signed, wrapped};

/// The number in two's complement.
#[inline(always)]
pub fn signed(n: u32) -> i32
    ensures { result ≡ signed n }
{
    n.cast_signed()
}

/// A byte with its sign extended to 32 bits.
#[inline(always)]
pub fn extended_byte(byte: u32) -> u32
    requires { byte < 2 ^ 8 }
    ensures { result ≡ extended 8 byte }
{
    if byte < 0x80 {
        byte
    } else {
        byte + 0xffff_ff00
    }
}

/// A number of 16 bits with its sign extended to 32 bits.
#[inline(always)]
pub fn extended_half(half: u32) -> u32
    requires { half < 2 ^ 16 }
    ensures { result ≡ extended 16 half }
{
    if half < 0x8000 {
        half
    } else {
        half + 0xffff_0000
    }
}

/// a - b.
#[inline(always)]
#[tactic(auto, unfolding(crate::specs::Numbers::difference))]
pub fn difference(a: u32, b: u32) -> u32
    ensures { result ≡ difference a b }
{
    a.wrapping_sub(b)
}

/// The shift to the right that copies the sign.
#[inline(always)]
#[tactic(auto, unfolding(crate::specs::Numbers::shifted_right_signed))]
pub fn shifted_right_signed(a: u32, amount: u32) -> u32
    ensures { result ≡ shifted_right_signed a amount }
{
    signed(a).wrapping_shr(amount).cast_unsigned()
}

/// The upper 32 bits of a signed product.
#[inline(always)]
fn upper_half(product: i64) -> u32
    ensures { result ≡ wrapped (int_shr product 32) }
{
    ((product >> 32) as i32).cast_unsigned()
}

/// The upper half of the product of signed by signed.
#[inline(never)]
#[tactic(auto, unfolding(crate::specs::Numbers::high_signed))]
pub fn high_signed(a: u32, b: u32) -> u32
    ensures { result ≡ high_signed a b }
{
    upper_half(i64::from(signed(a)) * i64::from(signed(b)))
}

/// The upper half of the product of signed by unsigned.
#[inline(never)]
#[tactic(auto, unfolding(crate::specs::Numbers::high_mixed))]
pub fn high_mixed(a: u32, b: u32) -> u32
    ensures { result ≡ high_mixed a b }
{
    upper_half(i64::from(signed(a)) * i64::from(b))
}

/// The upper half of the product of unsigned by unsigned.
#[inline(always)]
#[tactic(auto, unfolding(crate::specs::Numbers::high_unsigned))]
pub fn high_unsigned(a: u32, b: u32) -> u32
    ensures { result ≡ high_unsigned a b }
{
    ((u64::from(a) * u64::from(b)) >> 32) as u32
}

/// The quotient of signed numbers, rounded toward zero.
#[inline(always)]
#[tactic(auto, unfolding(crate::specs::Numbers::quotient_signed))]
pub fn quotient_signed(a: u32, b: u32) -> u32
    ensures { result ≡ quotient_signed a b }
{
    if b == 0 {
        return u32::MAX;
    }
    signed(a).wrapping_div(signed(b)).cast_unsigned()
}

/// The quotient of unsigned numbers.
#[inline(always)]
#[tactic(auto, unfolding(crate::specs::Numbers::quotient_unsigned))]
pub fn quotient_unsigned(a: u32, b: u32) -> u32
    ensures { result ≡ quotient_unsigned a b }
{
    if b == 0 { u32::MAX } else { a / b }
}

/// The remainder of signed numbers.
#[inline(always)]
#[tactic(auto, unfolding(crate::specs::Numbers::remainder_signed))]
pub fn remainder_signed(a: u32, b: u32) -> u32
    ensures { result ≡ remainder_signed a b }
{
    if b == 0 {
        return a;
    }
    signed(a).wrapping_rem(signed(b)).cast_unsigned()
}

/// The remainder of unsigned numbers.
#[inline(always)]
#[tactic(auto, unfolding(crate::specs::Numbers::remainder_unsigned))]
pub fn remainder_unsigned(a: u32, b: u32) -> u32
    ensures { result ≡ remainder_unsigned a b }
{
    if b == 0 { a } else { a % b }
}
