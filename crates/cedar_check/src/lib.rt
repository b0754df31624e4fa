//! The strict checker: it types policies in each environment of a schema, and reports their faults and warnings.
//!
//! ```
//! use cedar_check::check;
//!
//! let schema = Schema::read(alloc, schema_json)?;
//! let policies = parse(alloc, policy_text)?;
//! let report = check(alloc, &schema, &policies)?;
//! assert!(rt; report.faults.is_empty());
//! ```
//!
//! A service that needs `decimal` of any string, for example of an attribute, calls `check_with` and turns that on in its
//! settings.
//!
//! A report is a relation: a fault for each pair of a policy and an environment in which the policy is not
//! accepted, and a warning for each policy that no request can satisfy. It follows from the rules of cedar_check_spec,
//! whose laws are passed on here: `typing_is_sound` and `typing_is_determined`.
//!
//! A condition is typed in one pass, with a function for each row of those rules. The rows of operators, which
//! depend on the types of their operands, and the types themselves are in cedar_check_operators.
#![tactic(auto)]

mod branches;
mod checker;
mod fault;
mod form;
mod known;
mod mention;
mod prepared;
mod records;
mod report;
mod rows;
mod signatures;
mod spine;
mod type_order;
mod typing;
mod validator;

pub use cedar_check_law::{typing_is_determined, typing_is_sound};
pub use cedar_check_operators::{Capability, LentType, TypeFault, Typed, Typing};
pub use cedar_check_spec::Settings;
pub use fault::Fault;
pub use report::{Report, check, check_with};
pub use typing::type_of;
pub use validator::Validator;
