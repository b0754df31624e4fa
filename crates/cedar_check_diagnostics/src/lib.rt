//! Explains why a policy has no type: the part of its condition, the name or the operand, and what is wanted there.
//!
//! ```rust
//! use cedar_check_diagnostics::refused_part;
//!
//! let whole = policy.condition(alloc)?;
//! let condition = whole.with_action(alloc, &environment.action)?;
//! if let Some(part) = refused_part(alloc, settings, &schema, environment, &condition)? {
//!     println!(rt; "{}: {}", part.number, part.says.as_str())?;
//! }
//! ```
//!
//! The part is given by a path from the condition: which operand, branch, member or entry at each step. That it has no type where
//! the path leads to it, and that each of its own parts that the checker looks at has one, is proved; the words are tested. Read
//! `specs/Paths.antt`, `specs/Looking.antt`, and then `specs/Refusals.antt`.
#![tactic(auto)]

mod attributes;
mod before;
mod checking;
mod guard_places;
mod guard_walk;
mod guard_words;
mod guards;
mod joins;
mod kinds;
mod listing;
mod literals;
mod looking;
mod parts;
mod preorder;
mod quoting;
mod refusal;
mod smallest;
mod spot;
mod type_words;
mod undeclared;
mod unlisted;
mod walk;
mod way;
mod words;
mod written;

pub use guards::{FalseGuard, FalseGuards, false_guards};
pub use quoting::Quote;
pub use refusal::{ExplainedPart, Operand, refused_part};
