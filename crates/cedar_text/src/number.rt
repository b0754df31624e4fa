//! The values of digits.

ghost use Rattle.std.specs.Prelude.{◌≡◌, ◌≤◌};
ghost use Rattle.cedar_text.specs.Private.Lexing as spec;

use crate::bytes::digit_value;

/// The largest number that a token may be: the least long, without its sign.
pub const MAX_NUMBER: u64 = 9223372036854775808;

/// One more than the largest character.
const END_OF_CHARACTERS: u32 = 0x11_0000;

/// The value of decimal digits, cut at the first number that is too large.
pub fn decimal_value(digits: &[u8]) -> u64
    ensures { result ≡ spec.capped_decimal_from 0 digits.now }
{
    let mut value = 0u64;
    for b in digits {
        let next = 10 * u128::from(value) + u128::from(b.saturating_sub(b'0'));
        value = next.min(u128::from(MAX_NUMBER) + 1) as u64;
    }
    value
}

/// The value of hexadecimal digits, cut at the first number that is not a character.
pub fn hexadecimal_value(digits: &[u8]) -> u32
    ensures { result ≡ spec.capped_hexadecimal_from 0 digits.now }
{
    let mut value = 0u32;
    for b in digits {
        value = (16 * value + digit_value(*b)).min(END_OF_CHARACTERS);
    }
    value
}
