//! The events of a service (publish, open, step, take), and the law that every history of them is fair.
//!
//! The crate has no threads, locks or sockets: it has definitions, and one law over every list of events,
//! [`histories_are_fair`]. Read `specs/Fair.antt` first. What one event is, is defined in `specs/Service.antt`.
#![tactic(auto)]

mod law;

pub use law::{histories_are_fair, runs_end_as_evaluated};
