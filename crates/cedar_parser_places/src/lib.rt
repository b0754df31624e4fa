//! Where in a policy text the parts of a condition are written.
//!
//! ```rust
//! use cedar_parser_places::StatementPlaces;
//!
//! let text = "permit(principal, action, resource) when { principal.age > 17 };";
//! let places = StatementPlaces::of(alloc, text)?;
//! if let Some(place) = places.part(alloc, "policy0", &[1, 1, 1])? {
//!     assert_eq!(rt; (place.whole.start, place.whole.end), (43, 61));
//!     assert_eq!(rt; (place.name.start, place.name.end), (57, 58));
//! }
//! ```
//!
//! A part is named by its path from the whole condition of its policy, as `condition_of` of cedar_ast defines it. `README.md` says
//! where each kind of part is.
#![tactic(auto)]

mod clause;
mod expression;
mod extent;
mod led;
mod part;
mod place;
mod scope;
mod statement;
mod statement_places;
mod statements;
mod stretch;
mod token_list;

pub use clause::Clause;
pub use extent::{Extent, PartPlace};
pub use statement_places::StatementPlaces;
