//! The nearest name: which of the names that there are is meant by one that is misspelt.
//!
//! ```rust
//! use base_names::Nearest;
//!
//! let mut nearest = Nearest::new("totl");
//! for name in ["owner", "tags", "to", "total"] {
//!     nearest = nearest.compare(name, name);
//! }
//! assert_eq!(rt; nearest.name(), Some("total"));
//! ```
//!
//! Names are near that differ in at most two bytes and in at most half of those that are written. Upper and lower case are equal.
//! Contracts see the two fields of `Nearest`.
#![tactic(auto)]

mod distance;
mod nearest;

pub use distance::apart;
pub use nearest::Nearest;
