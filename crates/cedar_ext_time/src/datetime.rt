//! Datetimes: milliseconds since 1970.
ghost use Rattle.std.specs.Prelude.{◌≡◌, ◌≤◌, ◌<◌, ◌≤ℤ◌, ◌<ℤ◌, ◌+◌, ◌*◌, ◌+ℤ◌, ◌-ℤ◌, ◌⊎◌, ◌∷◌, [], drop, IfSome, IfNone, IfOk, ℤ, pos, negsuc, Some, string_bytes};
ghost use Rattle.cedar_ext_time.specs.Datetimes.{IsDatetime, since_1970};
ghost use Rattle.cedar_ext_time.specs.DatetimeOf.{datetime_of, midnight_of, moment_of};
ghost use Rattle.cedar_ext_time.specs.Days.{IsMidnightOf, time_of_day, midnight};
ghost use Rattle.cedar_ext_time.specs.Longs.{long_of};

use crate::datetime_text::{date, fraction, fraction_len, time, zone};
use crate::datetime_written::utc_text;
use crate::duration::Duration;
use std::alloc::{AllocError, Global};
use std::marker::Model;

/// A number of milliseconds since 1970-01-01T00:00:00Z, from -9223372036854775808 to 9223372036854775807 (Cedar language reference,
/// extension functions: datetime). Datetimes are ordered and equal by that number.
#[derive(Clone, Copy, PartialEq, Eq, PartialOrd, Ord, Debug)]
pub struct Datetime {
    milliseconds: i64,
}

impl Model for Datetime {
    ghost use Rattle.std.specs.Prelude.{ℤ};

    ghost Value = { ℤ };

    ghost view = { λ d. d.milliseconds };

    ghost inverse = { λ z. record { milliseconds = z } };
}

// The milliseconds of a day.
const DAY: u64 = 86_400_000;

// The milliseconds from 0000-01-01 to 1970-01-01.
const BEFORE_1970: i64 = 62_167_219_200_000;

// The last millisecond of the year 9999.
const LAST: i64 = 253_402_300_799_999;

impl Datetime {
    /// The datetime that the text writes: a date such as `2024-10-15`, or a date, a time of day and a zone such as
    /// `2024-10-15T11:35:00Z`, `2024-10-15T11:35:00.125Z`, `2024-10-15T11:35:00+0200` or `2024-10-15T11:35:00.125-0330`. Years are
    /// from 0000 to 9999. None for another text (Cedar language reference, extension functions: datetime).
    pub fn read(text: &str) -> Option<Datetime>
        ensures some { IfSome result (λ z. IsDatetime text.now z) }
        ensures none { IfNone result ((z : ℤ) → ¬ IsDatetime text.now z) }
        ensures gives { result ≡ datetime_of text.now }
    {
        read_bytes(text.as_bytes())
    }

    /// The datetime of so many milliseconds since 1970-01-01T00:00:00Z.
    pub fn from_milliseconds(milliseconds: i64) -> Datetime
        ensures { result ≡ milliseconds }
    {
        Datetime { milliseconds }
    }

    /// The milliseconds since 1970-01-01T00:00:00Z, negative before that.
    pub fn milliseconds(self) -> i64
        ensures { result ≡ self }
    {
        self.milliseconds
    }

    /// The datetime that is later by the duration, or earlier where it is negative. None where that does not fit 64 bits (Cedar
    /// language reference, extension functions: datetime).
    pub fn offset(self, duration: Duration) -> Option<Datetime>
        ensures { result ≡ long_of (self +ℤ duration) }
    {
        match self.milliseconds.checked_add(duration.to_milliseconds()) {
            None => None,
            Some(milliseconds) => Some(Datetime::from_milliseconds(milliseconds)),
        }
    }

    /// The duration from the other datetime to this one, negative where this one is earlier. None where that does not fit 64 bits
    /// (Cedar language reference, extension functions: datetime).
    pub fn duration_since(self, other: Datetime) -> Option<Duration>
        ensures { result ≡ long_of (self -ℤ other) }
    {
        match self.milliseconds.checked_sub(other.milliseconds) {
            None => None,
            Some(milliseconds) => Some(Duration::from_milliseconds(milliseconds)),
        }
    }

    /// The last midnight in UTC: the greatest multiple of a day that is not later. None where that does not fit 64 bits (Cedar
    /// language reference, extension functions: datetime).
    pub fn to_date(self) -> Option<Datetime>
        ensures some { IfSome result (λ m. IsMidnightOf self m) }
        ensures none { IfNone result ((m : ℤ) → IsMidnightOf self m → m <ℤ negsuc 9223372036854775807) }
        ensures gives { result ≡ long_of (midnight self) }
    {
        self.last_midnight()
    }

    /// The time since the last midnight in UTC, from 0 to 86399999 milliseconds (Cedar language reference, extension functions:
    /// datetime).
    pub fn to_time(self) -> Duration
        ensures since { (m : ℤ) → IsMidnightOf self m → result ≡ self -ℤ m }
        ensures not_negative { pos 0 ≤ℤ result }
        ensures below_day { result ≤ℤ pos 86399999 }
        ensures gives { result ≡ time_of_day self }
    {
        self.time_of_day()
    }

    /// A string that reads as this datetime: in UTC and with milliseconds, for example `2024-10-15T11:35:00.125Z`. None for a
    /// datetime before 0000-01-01T00:00:00.000Z or after 9999-12-31T23:59:59.999Z, which no string in UTC writes. Fails only when
    /// out of memory (Cedar language reference, extension functions: datetime).
    pub fn to_text(self, alloc: Global) -> Result<Option<String>, AllocError>
        ensures reads { IfOk result (λ text. IfSome text (λ it. datetime_of (string_bytes it) ≡ Some self)) }
        ensures form { IfOk result (λ text. IfSome text (λ it. drop 23 (string_bytes it) ≡ 90 ∷ [])) }
        ensures within { IfOk result (λ text. IfSome text (λ it. (negsuc 62167219199999 ≤ℤ self) × (self ≤ℤ pos 253402300799999))) }
        ensures none { IfOk result (λ text. IfNone text ((self <ℤ negsuc 62167219199999) ⊎ (pos 253402300799999 <ℤ self))) }
    {
        let Datetime { milliseconds } = self;
        if milliseconds < -BEFORE_1970 || LAST < milliseconds {
            return Ok(None);
        }
        let after_0000 = (milliseconds + BEFORE_1970) as u64;
        Ok(Some(utc_text(alloc, after_0000 / DAY, after_0000 % DAY)?))
    }
}

impl Datetime {
    // The last midnight, where it fits 64 bits.
    fn last_midnight(self) -> Option<Datetime>
        ensures gives { result ≡ long_of (midnight self) }
        ensures fits { self <ℤ pos 9223372036854775808 }
    {
        match self
            .milliseconds
            .checked_sub(self.milliseconds.rem_euclid(86_400_000))
        {
            None => None,
            Some(milliseconds) => Some(Datetime::from_milliseconds(milliseconds)),
        }
    }

    // The milliseconds since the last midnight.
    fn time_of_day(self) -> Duration
        ensures gives { result ≡ time_of_day self }
        ensures not_negative { pos 0 ≤ℤ result }
        ensures below_day { result ≤ℤ pos 86399999 }
    {
        Duration::from_milliseconds(self.milliseconds.rem_euclid(86_400_000))
    }
}

// The datetime of these bytes: a date alone, or a date, a time of day and what follows.
fn read_bytes(text: &[u8]) -> Option<Datetime>
    ensures { result ≡ datetime_of text.now }
{
    if text.len() < 19 {
        return midnight_of(date(text));
    }
    let (date, after) = text.split_at(10);
    let (time, rest) = after.split_at(9);
    moment(date, time, rest)
}

// The midnight of a day.
fn midnight_of(day: Option<u64>) -> Option<Datetime>
    requires { IfSome day (λ n. n ≤ 4000000) }
    ensures { result ≡ midnight_of day }
{
    match day {
        None => None,
        Some(day) => Some(joined(day, 0, 0, 0)),
    }
}

// The datetime of a date, a time of day, and what follows them.
fn moment(date_text: &[u8], time_text: &[u8], rest: &[u8]) -> Option<Datetime>
    ensures { result ≡ moment_of date_text.now time_text.now rest.now }
{
    let (fraction_text, zone_text) = rest.split_at(fraction_len(rest));
    let Some(day) = date(date_text) else {
        return None;
    };
    let Some(seconds) = time(time_text) else {
        return None;
    };
    let Some(part) = fraction(fraction_text) else {
        return None;
    };
    let Some(offset) = zone(zone_text) else {
        return None;
    };
    Some(joined(day, seconds, part, offset))
}

// The datetime of a day, the milliseconds since midnight, the fraction and the offset.
fn joined(day: u64, seconds: u64, part: u64, offset: i64) -> Datetime
    requires known_day { day ≤ 4000000 }
    requires known_seconds { seconds < 86400000 }
    requires known_part { part ≤ 9999 }
    requires low { negsuc 86400000 ≤ℤ offset }
    requires high { offset ≤ℤ pos 86400000 }
    ensures { result ≡ since_1970 (day * 86400000 + seconds + part) -ℤ offset }
{
    Datetime::from_milliseconds((day * DAY + seconds + part) as i64 - BEFORE_1970 - offset)
}
