//! What each number of a refusal, a fault or a warning means: when it comes, an example, and what to do.
//!
//! ```rust
//! use cedar_cli_refusals::explain;
//!
//! let Some(text) = explain(alloc, 650)? else {
//!     return Ok(());
//! };
//! assert!(rt; text.starts_with("650, a policy: a warning: no request can satisfy the policy\n"));
//! ```
//!
//! The rows are those of `docs/REFUSALS.md`. `tools/refusals` writes them from that page, and a test compares both.
#![tactic(auto)]

mod calls;
mod entities;
mod explaining;
mod faults_of_policies;
mod links;
mod memory;
mod policies_json;
mod policy_texts;
mod request_lines;
mod row;
mod schema_texts;
mod schemas;

pub use explaining::explain;
