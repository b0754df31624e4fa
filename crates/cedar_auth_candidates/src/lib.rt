//! Which policies a request can satisfy, according to their scopes alone, found without running their code.
//!
//! ```rust
//! use cedar_auth_candidates::{Candidates, ScopeMatcher, Selection};
//!
//! let candidates = Candidates::new(alloc, &schema, &policies)?;
//! let mut selection = Selection::new(alloc);
//! let mut matcher = ScopeMatcher::over(&request, &store);
//! for position in candidates.selected(&request, &store, &mut selection)? {
//!     // Only these policies can be true or err: each other one is false.
//!     if let Some(policy) = policies.policy(*position)
//!         && matcher.is_met(policy.scope())
//!     {
//!         // Of this policy only the conditions are left to be executed, from `place_after_scope(policy.scope())` on.
//!     }
//! }
//! ```
//!
//! The policies are sifted three times, each time according to their scopes:
//!
//! - [`Candidates`] holds, for each environment of a schema, the positions of the policies whose scopes may be met in it,
//!   according to the action and to the types of the principal and the resource. They are found once, before any request.
//! - [`Candidates::select`] leaves out those that name other entities than the request's. A policy that names one principal,
//!   for example `principal == User::"ann"` or `principal in Group::"staff"`, is false for every request whose principal is
//!   neither that entity nor below it; the same holds for the resource. So the cost of a request depends on the policies that
//!   name its own entities, or what these are below, and on those of its environment that name none. One index of the policies
//!   serves all environments. [`Candidates::selected`] lends the candidates as they are where they are few, and
//!   [`Candidates::selected_at`] those of a request of whose environment the position in the schema is known.
//! - [`ScopeMatcher`] tests the scopes of policies for one request, and looks each entity of the request up once. [`is_met`] tests the
//!   scope of one policy.
//!
//! What each of them promises is in `specs/`: `Candidates` and `Reached`, `Scopes`.
#![tactic(auto)]

mod action_scope;
mod by_environment;
mod candidates;
mod cell;
mod cells;
mod entity_scope;
mod index;
mod listing;
mod positions;
mod question;
mod request_entity;
mod row;
mod row_maker;
mod scope;
mod scope_matcher;
mod scope_tests;
mod selection;
mod sifting;
mod tables;
mod uid_lists;

pub use candidates::Candidates;
pub use positions::all_positions;
pub use scope::{is_met, place_after_scope};
pub use scope_matcher::ScopeMatcher;
pub use selection::Selection;
