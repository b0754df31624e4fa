//! The text of a datetime in UTC.
ghost use Rattle.std.specs.Prelude.{◌≡◌, ◌<◌, ◌+◌, ◌*◌, ◌∷◌, [], drop, IfOk, Some, string_bytes};
ghost use Rattle.cedar_ext_time.specs.Datetimes.{since_1970};
ghost use Rattle.cedar_ext_time.specs.DatetimeOf.{datetime_of};
ghost use Rattle.cedar_ext_time.specs.Private.Written.{moment_text};

use crate::calendar::{Date, date_of_day};
use std::alloc::{AllocError, Global};

// The text of so many milliseconds after the midnight of a day, which is counted from 0000-01-01.
pub(crate) fn utc_text(alloc: Global, day: u64, milliseconds: u64) -> Result<String, AllocError>
    requires known_day { day < 3652425 }
    requires known_milliseconds { milliseconds < 86400000 }
    ensures reads { IfOk result (λ text. datetime_of (string_bytes text) ≡ Some (since_1970 (day * 86400000 + milliseconds))) }
    ensures form { IfOk result (λ text. drop 23 (string_bytes text) ≡ 90 ∷ []) }
{
    text_of(alloc, date_of_day(day), milliseconds)
}

// The text of a date and of the milliseconds since its midnight.
fn text_of(alloc: Global, date: Date, milliseconds: u64) -> Result<String, AllocError>
    ensures { IfOk result (λ text. string_bytes text ≡ moment_text date.year date.month date.day milliseconds) }
{
    let Date { year, month, day } = date;
    let hour = milliseconds / 3_600_000;
    let minute = milliseconds / 60_000 % 60;
    let second = milliseconds / 1_000 % 60;
    let part = milliseconds % 1_000;
    format!(in alloc; "{year:04}-{month:02}-{day:02}T{hour:02}:{minute:02}:{second:02}.{part:03}Z")
}
