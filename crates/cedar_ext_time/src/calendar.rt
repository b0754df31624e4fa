//! The proleptic Gregorian calendar.
ghost use Rattle.std.specs.Prelude.{◌≡◌, ◌≤◌, ◌<◌, ◌+◌, ◌*◌, IfSome, Some};
ghost use Rattle.cedar_ext_time.specs.Calendar.{is_leap, days_of_year, days_of_month, days_before_month, days_before_year};
ghost use Rattle.cedar_ext_time.specs.DatetimeOf.{day_of};

// Whether the year is a leap year.
fn is_leap(year: u64) -> bool
    ensures { result ≡ is_leap year }
{
    year % 4 == 0 && year % 100 != 0 || year % 400 == 0
}

// How many days the month has, 0 where there is not such a month.
fn days_of_month(year: u64, month: u64) -> u64
    ensures days { result ≡ days_of_month year month }
    ensures within { result ≤ 31 }
{
    if month == 2 {
        if is_leap(year) { 29 } else { 28 }
    } else if month == 4 || month == 6 || month == 9 || month == 11 {
        30
    } else if 1 <= month && month <= 12 {
        31
    } else {
        0
    }
}

// How many days the months before this one have.
fn days_before_month(year: u64, month: u64) -> u64
    requires { month ≤ 9999 }
    ensures days { result ≡ days_before_month year month }
    ensures within { result ≤ 31 * month }
{
    let mut days = 0;
    for earlier in 0..month {
        days += days_of_month(year, earlier);
    }
    days
}

// How many days the years from 0000 on have, up to this one.
fn days_before_year(year: u64) -> u64
    requires { year ≤ 10000 }
    ensures days { result ≡ days_before_year year }
    ensures within { result ≤ 366 * year }
{
    year * 365 + (year + 3) / 4 + (year + 399) / 400 - (year + 99) / 100
}

// How many days are from 0000-01-01 to this day. None where the month does not have the day.
pub(crate) fn day_count(year: u64, month: u64, day: u64) -> Option<u64>
    requires known_year { year ≤ 9999 }
    requires known_month { month ≤ 9999 }
    ensures day { result ≡ day_of year month day }
    ensures within { IfSome result (λ n. n ≤ 4000000) }
{
    if 1 <= day && day <= days_of_month(year, month) {
        Some(days_before_year(year) + days_before_month(year, month) + (day - 1))
    } else {
        None
    }
}

// A year, a month and a day, as a date is written.
pub(crate) struct Date {
    pub(crate) year: u64,
    pub(crate) month: u64,
    pub(crate) day: u64,
}

// The year of a day that is counted from 0000-01-01. The day of 10000-01-01 is 3652425.
fn year_of_day(day: u64) -> u64
    requires { day < 3652425 }
    ensures begun { days_before_year result ≤ day }
    ensures not_over { day < days_before_year (result + 1) }
    ensures within { result ≤ 9999 }
{
    let mut year = day / 366;
    while days_before_year(year + 1) <= day {
        year += 1;
    }
    year
}

// The date in the year that has so many days of the year before it.
fn date_in_year(year: u64, days: u64) -> Date
    requires known_year { year ≤ 9999 }
    requires known_days { days < days_of_year year }
    ensures year { result.year ≡ year }
    ensures month { result.month ≤ 12 }
    ensures day { result.day ≤ 31 }
    ensures reads { day_of year result.month result.day ≡ Some (days_before_year year + days) }
{
    let mut month = 1;
    let mut left = days;
    while days_of_month(year, month) <= left {
        left -= days_of_month(year, month);
        month += 1;
    }
    Date {
        year,
        month,
        day: left + 1,
    }
}

// The date of a day that is counted from 0000-01-01.
pub(crate) fn date_of_day(day: u64) -> Date
    requires { day < 3652425 }
    ensures year { result.year ≤ 9999 }
    ensures month { result.month ≤ 12 }
    ensures day { result.day ≤ 31 }
    ensures reads { day_of result.year result.month result.day ≡ Some day }
{
    let year = year_of_day(day);
    date_in_year(year, day - days_before_year(year))
}
