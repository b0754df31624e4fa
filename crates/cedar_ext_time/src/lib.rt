//! Datetimes and durations of the Cedar policy language.
//!
//! ```rust
//! use cedar_ext_time::{Datetime, Duration};
//!
//! let meeting = Datetime::read("2024-10-15T11:35:00+0200").unwrap();
//! assert!(rt; meeting == Datetime::read("2024-10-15T09:35:00Z").unwrap());
//! let later = meeting.offset(Duration::read("1d12h").unwrap()).unwrap();
//! assert_eq!(rt; later.duration_since(meeting).unwrap().to_hours(), 36);
//! assert!(rt; later.to_date() == Datetime::read("2024-10-16"));
//! let text = later.to_text(rt.alloc())?.unwrap();
//! assert_eq!(rt; text.as_str(), "2024-10-16T21:35:00.000Z");
//! ```
//!
//! A contract sees both types as their number of milliseconds, that of a datetime since 1970-01-01T00:00:00Z. Only
//! `Datetime::to_text` and `Duration::to_text` take memory.
#![tactic(auto)]

mod calendar;
mod datetime;
mod datetime_text;
mod datetime_written;
mod digits;
mod duration;
mod duration_text;
mod unit;

pub use datetime::Datetime;
pub use duration::Duration;
