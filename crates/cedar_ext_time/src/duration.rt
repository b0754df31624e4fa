//! Durations: numbers of milliseconds.
ghost use Rattle.std.specs.Prelude.{◌≡◌, ◌++◌, ◌∷◌, [], IfSome, IfNone, IfOk, ℤ, int_div, pos, Some, string_bytes};
ghost use Rattle.std.specs.Fmt.{signed_decimal};
ghost use Rattle.cedar_ext_time.specs.Durations.{IsDuration, signed};
ghost use Rattle.cedar_ext_time.specs.DurationOf.{duration_of, body_of};
ghost use Rattle.cedar_ext_time.specs.Longs.{long_of};

use crate::duration_text::sum;
use crate::unit::UNITS;
use std::alloc::{AllocError, Global};
use std::marker::Model;

/// A number of milliseconds, from -9223372036854775808 to 9223372036854775807 (Cedar language reference, extension functions:
/// duration). Durations are ordered and equal by that number.
#[derive(Clone, Copy, PartialEq, Eq, PartialOrd, Ord, Debug)]
pub struct Duration {
    milliseconds: i64,
}

impl Model for Duration {
    ghost use Rattle.std.specs.Prelude.{ℤ};

    ghost Value = { ℤ };

    ghost view = { λ d. d.milliseconds };

    ghost inverse = { λ z. record { milliseconds = z } };
}

impl Duration {
    /// The duration that the text writes: an optional `-`, then at least one of a number of days, hours, minutes, seconds and
    /// milliseconds, in this order, for example `1d12h` or `-90s`. None for another text, and where the sum does not fit 64 bits
    /// (Cedar language reference, extension functions: duration).
    pub fn read(text: &str) -> Option<Duration>
        ensures some { IfSome result (λ z. IsDuration text.now z) }
        ensures none { IfNone result ((z : ℤ) → ¬ IsDuration text.now z) }
        ensures gives { result ≡ duration_of text.now }
    {
        read_bytes(text.as_bytes())
    }

    /// The duration of so many milliseconds.
    pub fn from_milliseconds(milliseconds: i64) -> Duration
        ensures { result ≡ milliseconds }
    {
        Duration { milliseconds }
    }

    /// The number of milliseconds, for example -90000 for `-90s` (Cedar language reference, extension functions: duration).
    pub fn to_milliseconds(self) -> i64
        ensures { result ≡ self }
    {
        self.milliseconds
    }

    /// The number of whole seconds, cut towards zero (Cedar language reference, extension functions: duration).
    pub fn to_seconds(self) -> i64
        ensures { result ≡ int_div self (pos 1000) }
    {
        self.milliseconds / 1_000
    }

    /// The number of whole minutes, cut towards zero (Cedar language reference, extension functions: duration).
    pub fn to_minutes(self) -> i64
        ensures { result ≡ int_div self (pos 60000) }
    {
        self.milliseconds / 60_000
    }

    /// The number of whole hours, cut towards zero (Cedar language reference, extension functions: duration).
    pub fn to_hours(self) -> i64
        ensures { result ≡ int_div self (pos 3600000) }
    {
        self.milliseconds / 3_600_000
    }

    /// The number of whole days of 24 hours, cut towards zero (Cedar language reference, extension functions: duration).
    pub fn to_days(self) -> i64
        ensures { result ≡ int_div self (pos 86400000) }
    {
        self.milliseconds / 86_400_000
    }

    /// A string that reads as this duration: its milliseconds, for example `-90000ms`. Fails only when out of memory.
    pub fn to_text(self, alloc: Global) -> Result<String, AllocError>
        ensures { IfOk result (λ text. duration_of (string_bytes text) ≡ Some self) }
    {
        written(alloc, self.milliseconds)
    }
}

// The text of so many milliseconds, which reads as them.
fn written(alloc: Global, milliseconds: i64) -> Result<String, AllocError>
    ensures { IfOk result (λ text. duration_of (string_bytes text) ≡ Some milliseconds) }
{
    milliseconds_text(alloc, milliseconds)
}

// The number of milliseconds and their unit.
fn milliseconds_text(alloc: Global, milliseconds: i64) -> Result<String, AllocError>
    ensures { IfOk result (λ text. string_bytes text ≡ signed_decimal milliseconds ++ 109 ∷ 115 ∷ []) }
{
    format!(in alloc; "{milliseconds}ms")
}

// The duration of these bytes: first the sign, where there is one.
fn read_bytes(bytes: &[u8]) -> Option<Duration>
    ensures { result ≡ duration_of bytes.now }
{
    match bytes.split_first() {
        None => None,
        Some((first, body)) => {
            if *first == b'-' {
                read_body(true, body)
            } else {
                read_body(false, bytes)
            }
        }
    }
}

// The duration with this sign, of the bytes after it.
fn read_body(negative: bool, body: &[u8]) -> Option<Duration>
    ensures { result ≡ body_of negative body.now }
{
    if body.is_empty() {
        return None;
    }
    match sum(&UNITS, body) {
        None => None,
        Some(milliseconds) => with_sign(negative, milliseconds),
    }
}

// The duration of so many milliseconds, where they fit 64 bits with their sign.
fn with_sign(negative: bool, milliseconds: u64) -> Option<Duration>
    ensures { result ≡ long_of (signed negative milliseconds) }
{
    if negative {
        if milliseconds > 1 << 63 {
            None
        } else if milliseconds == 1 << 63 {
            Some(Duration {
                milliseconds: i64::MIN,
            })
        } else {
            Some(Duration {
                milliseconds: 0 - milliseconds as i64,
            })
        }
    } else if milliseconds >= 1 << 63 {
        None
    } else {
        Some(Duration {
            milliseconds: milliseconds as i64,
        })
    }
}
