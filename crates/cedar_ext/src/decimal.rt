//! Decimals: numbers with four digits after the point.
ghost use Rattle.std.specs.Prelude.{◌≡◌, ◌<◌, ◌≤◌, ◌-◌, ◌^◌, ◌==◌, position, length, IfSome, IfNone, ℤ};
ghost use Rattle.cedar_ext.specs.Decimals.{IsDecimal, signed_units};
ghost use Rattle.cedar_ext.specs.DecimalOf.{decimal_of, units_of};
ghost use Rattle.cedar_ext.specs.Private.DigitsWithin.{number_within};

use std::marker::Model;

/// A number of ten-thousandths, from -922337203685477.5808 to 922337203685477.5807
/// (Cedar language reference, decimal). Decimals are ordered and equal by that number.
#[derive(Clone, Copy, PartialEq, Eq, PartialOrd, Ord, Debug)]
pub struct Decimal {
    units: i64,
}

impl Model for Decimal {
    ghost use Rattle.std.specs.Prelude.{ℤ};

    ghost Value = { ℤ };

    ghost view = { λ d. d.units };

    ghost inverse = { λ z. record { units = z } };
}

// The greatest whole part of a decimal.
const GREATEST_WHOLE: u64 = 922_337_203_685_477;

impl Decimal {
    /// The decimal that the text writes: an optional `-`, one or more digits of ASCII, a point and one to
    /// four such digits, within the range. None for another text (Cedar language reference, decimal).
    pub fn read(text: &str) -> Option<Decimal>
        ensures some { IfSome result (λ z. IsDecimal text.now z) }
        ensures none { IfNone result ((z : ℤ) → ¬ IsDecimal text.now z) }
        ensures gives { result ≡ decimal_of text.now }
    {
        read_bytes(text.as_bytes())
    }

    /// The number of ten-thousandths: 15000 for `1.5`.
    pub fn units(self) -> i64
        ensures { result ≡ self }
    {
        self.units
    }
}

// The decimal of these bytes: first the sign, where there is one.
fn read_bytes(bytes: &[u8]) -> Option<Decimal>
    ensures { result ≡ decimal_of bytes.now }
{
    match bytes.split_first() {
        None => None,
        Some((first, body)) => {
            if *first == b'-' {
                read_units(true, body)
            } else {
                read_units(false, bytes)
            }
        }
    }
}

// The number of ten-thousandths from the digits around the first point, without the sign.
fn read_units(negative: bool, body: &[u8]) -> Option<Decimal>
    ensures { result ≡ units_of negative body.now }
{
    let Some(point) = first_point(body) else {
        return None;
    };
    let fraction = &body[point + 1..];
    if fraction.len() > 4 {
        return None;
    }
    let Some(whole) = digits_number(&body[..point]) else {
        return None;
    };
    let Some(part) = digits_number(fraction) else {
        return None;
    };
    with_sign(negative, whole * 10_000 + part * scale(fraction.len()))
}

// The place of the first point.
fn first_point(body: &[u8]) -> Option<usize>
    ensures place { result ≡ position (λ b. b == 46) body.now }
    ensures within { IfSome result (λ i. i < length body.now) }
{
    body.iter().position(|b| *b == b'.')
}

// The power of ten that turns a fraction with this many digits into ten-thousandths.
fn scale(len: usize) -> u64
    requires { len ≤ 4 }
    ensures value { result ≡ 10 ^ (4 - len) }
    ensures small { result ≤ 10000 }
{
    match len {
        0 => 10_000,
        1 => 1_000,
        2 => 100,
        3 => 10,
        _ => 1,
    }
}

// The decimal of so many ten-thousandths, where it is in the range.
fn with_sign(negative: bool, units: u64) -> Option<Decimal>
    ensures { result ≡ signed_units negative units }
{
    if negative {
        if units > 1 << 63 {
            None
        } else if units == 1 << 63 {
            Some(Decimal { units: i64::MIN })
        } else {
            Some(Decimal {
                units: 0 - units as i64,
            })
        }
    } else if units >= 1 << 63 {
        None
    } else {
        Some(Decimal {
            units: units as i64,
        })
    }
}

// The number that one or more digits write, where it is at most the limit.
fn digits_number(digits: &[u8]) -> Option<u64>
    ensures { result ≡ number_within GREATEST_WHOLE digits.now }
{
    if digits.is_empty() {
        return None;
    }
    let mut number: u64 = 0;
    for digit in digits {
        if !digit.is_ascii_digit() {
            return None;
        }
        number = number * 10 + u64::from(*digit - b'0');
        if number > GREATEST_WHOLE {
            return None;
        }
    }
    Some(number)
}
