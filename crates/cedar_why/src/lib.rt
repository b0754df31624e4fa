//! Says why a request is allowed or denied: what each policy came to, and the part of it that decided.
//!
//! ```rust
//! use cedar_why::{WhyOptions, why_line};
//!
//! let options = WhyOptions { all: false, json: false };
//! let says = why_line(alloc, &ready, policy_text, request_line, 1, options)?;
//! assert!(rt; says.starts_with("line 1: deny, since the forbid `night` is satisfied\n"));
//! ```
//!
//! The decision is that of `cedar_auth::Ready::answer`. How a policy and the part that decided it end is their evaluation. The words
//! and the layout are tested.
#![tactic(auto)]

mod child;
mod decider;
mod ending;
mod entries;
mod entry;
mod evaluation;
mod expression_text;
mod heading;
mod json_text;
mod layout;
mod line;
mod line_count;
mod options;
mod piece;
mod place_of_part;
mod request_text;
mod section;
mod serving;
mod shortened;
mod side;
mod sign;
mod unary_text;
mod value_text;
mod values_of_part;
mod words;

pub use ending::Ending;
pub use evaluation::{part_ending, policy_ending};
pub use line::why_line;
pub use options::WhyOptions;
pub use serving::why;
