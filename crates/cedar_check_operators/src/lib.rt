//! The typing rules of single operators: what an operator gives for the types of its operands.
//!
//! ```rust
//! use cedar_check_operators::{LentType, Typing, binary_type, join_types};
//!
//! let sum = binary_type(
//!     alloc,
//!     schema,
//!     BinaryOperator::Add,
//!     left,
//!     right,
//!     &LentType::Long,
//!     &LentType::Long,
//! );
//! if let Typing::Typed(typed) = sum {
//!     let joined = join_types(alloc, &typed.ty, &LentType::Long)?;
//! }
//! ```
//!
//! Types are lent from the schema and the policy wherever they can be, so that a Boolean, a number, a string, an entity or an
//! attribute takes no memory. The walk of a whole expression, and of policies, is in cedar_check.
#![tactic(auto)]

mod attributes;
mod capabilities;
mod capability;
mod declared;
mod equality;
mod hierarchy;
mod joining;
mod joins;
mod lent_type;
mod operands;
mod operators;
mod records;
mod sets;
mod type_fault;
mod typing;

pub use capabilities::{common, extended, together};
pub use capability::Capability;
pub use declared::is_action;
pub use joining::join_types;
pub use lent_type::LentType;
pub use operators::{binary_type, unary_type};
pub use records::{add_attribute, set_type};
pub use type_fault::TypeFault;
pub use typing::{Typed, Typing};
