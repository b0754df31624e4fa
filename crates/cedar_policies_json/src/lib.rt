//! Reads policies, templates and links from their JSON.
//!
//! ```
//! use cedar_ext::Language;
//! use cedar_policies_json::read_policies;
//!
//! let bytes = "{\"effect\":\"permit\",\"principal\":{\"op\":\"All\"},\"action\":{\"op\":\"All\"},\"resource\":{\"op\":\"All\"},\"conditions\":[]}";
//! let file = read_policies(rt.alloc(), Language::Cedar4, bytes.as_bytes())?;
//! assert_eq!(rt; file.policies.count(), 1);
//! ```
//!
//! Which statements a JSON writes is defined in `specs/Expressions.antt` and `specs/Statements.antt`, as the tree that a text of the
//! same policy has. What makes bytes policies is defined in `specs/PolicyFiles.antt`.
#![tactic(auto)]

mod expression;
mod form;
mod link;
mod mode;
mod named_statement;
mod operators;
mod parts;
mod pattern;
mod policies;
mod policy_file;
mod policy_file_fault;
mod repeats;
mod scope;
mod statement;
mod value;

pub use policies::{PolicyFile, read_policies};
pub use policy_file_fault::PolicyFileFault;
