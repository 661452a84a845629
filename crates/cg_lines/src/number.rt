//! Numbers as a profile writes them: decimal digits, or `0x` and hexadecimal digits.

ghost use Rattle.std.specs.Prelude.{◌≡◌, ℕ, ◌+◌, ◌*◌, ◌<◌, ◌≤◌};
ghost use Rattle.std.specs.Char.{digit_value};
ghost use Rattle.cg_lines.specs.Numbers.{checked_number, numeral, number_of};

/// What a number in the text stands for.
#[derive(Clone, Copy, Debug)]
pub enum Number {
    /// At most 2^64 - 1.
    Fits(u64),
    /// Above 2^64 - 1.
    TooLarge,
}

/// The value of a digit in any radix up to 36, and 36 for any other byte.
fn digit_value(byte: u8) -> u8
    ensures { result ≡ digit_value byte }
{
    match byte {
        b'0'..=b'9' => byte - b'0',
        b'A'..=b'Z' => byte - b'A' + 10,
        b'a'..=b'z' => byte - b'a' + 10,
        _ => 36,
    }
}

/// The number with one more digit.
fn with_digit(number: Number, radix: u8, digit: u8) -> Number
    requires { 1 ≤ radix }
    ensures { (n : ℕ) → number ≡ checked_number n → result ≡ checked_number (n * radix + digit) }
{
    let Number::Fits(value) = number else {
        return Number::TooLarge;
    };
    let Some(shifted) = value.checked_mul(u64::from(radix)) else {
        return Number::TooLarge;
    };
    match shifted.checked_add(u64::from(digit)) {
        Some(value) => Number::Fits(value),
        None => Number::TooLarge,
    }
}

/// The number that these digits write, if they are one digit of the radix or more and nothing else.
fn numeral(radix: u8, digits: &[u8]) -> Option<Number>
    requires { 1 ≤ radix }
    ensures { result ≡ numeral radix digits.now }
{
    if digits.is_empty() {
        return None;
    }
    let mut number = Number::Fits(0);
    'digits: for byte in digits {
        let digit = digit_value(*byte);
        if digit >= radix {
            return None;
        }
        number = with_digit(number, radix, digit);
    }
    Some(number)
}

/// The number that a word writes, if it is one.
pub fn number_of(word: &[u8]) -> Option<Number>
    ensures { result ≡ number_of word.now }
{
    if word.starts_with(b"0x") {
        numeral(16, &word[2..])
    } else {
        numeral(10, word)
    }
}
