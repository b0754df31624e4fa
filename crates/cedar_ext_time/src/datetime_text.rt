//! The parts of the text of a datetime.
ghost use Rattle.std.specs.Prelude.{◌≡◌, ◌≤◌, ◌<◌, ◌≤ℤ◌, pos, negsuc, length, IfSome};
ghost use Rattle.cedar_ext_time.specs.DatetimeOf.{has_date_form, date_of, has_time_form, clock_of, time_of, fraction_of, signed_offset, offset_of, zone_of, fraction_len};

use crate::calendar::day_count;
use crate::digits::{all_digits, are_digits, small_number};

// Whether digits and `-` are where a date has them.
fn has_date_form(text: &[u8]) -> bool
    ensures { result ≡ has_date_form text.now }
{
    text.len() == 10
        && text[4] == b'-'
        && text[7] == b'-'
        && all_digits(&text[..4])
        && all_digits(&text[5..7])
        && all_digits(&text[8..10])
}

// The day of a date, counted from 0000-01-01.
#[tactic(auto, unfolding(crate::specs::DatetimeOf::date_of))]
pub(crate) fn date(text: &[u8]) -> Option<u64>
    ensures day { result ≡ date_of text.now }
    ensures within { IfSome result (λ n. n ≤ 4000000) }
{
    if !has_date_form(text) {
        return None;
    }
    day_count(
        small_number(&text[..4]),
        small_number(&text[5..7]),
        small_number(&text[8..10]),
    )
}

// Whether `T`, digits and `:` are where a time of day has them.
fn has_time_form(text: &[u8]) -> bool
    ensures { result ≡ has_time_form text.now }
{
    text.len() == 9
        && text[0] == b'T'
        && text[3] == b':'
        && text[6] == b':'
        && all_digits(&text[1..3])
        && all_digits(&text[4..6])
        && all_digits(&text[7..9])
}

// The milliseconds of hours, minutes and seconds, where a clock shows them.
fn clock(hour: u64, minute: u64, second: u64) -> Option<u64>
    ensures value { result ≡ clock_of hour minute second }
    ensures within { IfSome result (λ n. n < 86400000) }
{
    if hour <= 23 && minute <= 59 && second <= 59 {
        Some(hour * 3_600_000 + minute * 60_000 + second * 1_000)
    } else {
        None
    }
}

// The milliseconds of a time of day.
#[tactic(auto, unfolding(crate::specs::DatetimeOf::time_of))]
pub(crate) fn time(text: &[u8]) -> Option<u64>
    ensures value { result ≡ time_of text.now }
    ensures within { IfSome result (λ n. n < 86400000) }
{
    if !has_time_form(text) {
        return None;
    }
    clock(
        small_number(&text[1..3]),
        small_number(&text[4..6]),
        small_number(&text[7..9]),
    )
}

// How many bytes the fraction of a second has at the beginning of the text.
pub(crate) fn fraction_len(text: &[u8]) -> usize
    ensures value { result ≡ fraction_len text.now }
    ensures within { result ≤ length text.now }
{
    match text.split_first() {
        None => 0,
        Some((first, _)) => if *first == b'.' { text.len().min(4) } else { 0 },
    }
}

// The milliseconds of a fraction of a second.
#[tactic(auto, unfolding(crate::specs::DatetimeOf::fraction_of))]
pub(crate) fn fraction(text: &[u8]) -> Option<u64>
    ensures value { result ≡ fraction_of text.now }
    ensures within { IfSome result (λ n. n ≤ 9999) }
{
    match text.split_first() {
        None => Some(0),
        Some((first, digits)) => {
            if *first == b'.' && are_digits(3, digits) {
                Some(small_number(digits))
            } else {
                None
            }
        }
    }
}

// The offset with its sign.
fn signed_offset(west: bool, milliseconds: Option<u64>) -> Option<i64>
    requires { IfSome milliseconds (λ n. n < 86400000) }
    ensures value { result ≡ signed_offset west milliseconds }
    ensures low { IfSome result (λ z. negsuc 86400000 ≤ℤ z) }
    ensures high { IfSome result (λ z. z ≤ℤ pos 86400000) }
{
    match milliseconds {
        None => None,
        Some(n) => if west {
            Some(0 - n as i64)
        } else {
            Some(n as i64)
        },
    }
}

// The offset of hours and minutes, without its sign.
fn offset(digits: &[u8]) -> Option<u64>
    ensures value { result ≡ offset_of digits.now }
    ensures within { IfSome result (λ n. n < 86400000) }
{
    if are_digits(4, digits) {
        clock(small_number(&digits[..2]), small_number(&digits[2..4]), 0)
    } else {
        None
    }
}

// The offset of a zone in milliseconds.
#[tactic(auto, unfolding(crate::specs::DatetimeOf::zone_of))]
pub(crate) fn zone(text: &[u8]) -> Option<i64>
    ensures value { result ≡ zone_of text.now }
    ensures low { IfSome result (λ z. negsuc 86400000 ≤ℤ z) }
    ensures high { IfSome result (λ z. z ≤ℤ pos 86400000) }
{
    match text.split_first() {
        None => None,
        Some((first, digits)) => {
            if *first == b'Z' && digits.is_empty() {
                Some(0)
            } else if *first == b'-' {
                signed_offset(true, offset(digits))
            } else if *first == b'+' {
                signed_offset(false, offset(digits))
            } else {
                None
            }
        }
    }
}
