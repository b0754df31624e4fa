//! What chains of links lead to (the transitive closure of a relation): the definition, its lemmas, and a plain search.
//!
//! ```rust
//! use base_reach::closure_from;
//!
//! // `graph` implements `Links<Name>`: it lends the names that each name links to.
//! let ancestors = closure_from(alloc, &graph, &low)?;
//! let is_below = ancestors.contains(&high);
//! ```
#![tactic(auto)]

mod key;
mod laws;
mod links;
mod search;

pub use key::Key;
pub use laws::leads_is_a_chain_of_links;
pub use links::Links;
pub use search::closure_from;
