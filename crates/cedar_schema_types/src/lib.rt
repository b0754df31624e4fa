//! Types of the Cedar policy language, their join, and the values that belong to them.
//!
//! ```rust
//! use cedar_schema_types::{Attribute, RecordType, Type, TypeKind, join};
//!
//! let mut attributes = RecordType::new(alloc);
//! attributes.insert(Attribute {
//!     name: SharedText::read(alloc, "age")?,
//!     ty: Type::new(TypeKind::Long),
//!     required: false,
//! })?;
//! let user = Type::new(TypeKind::Record(attributes));
//! let joined = join(alloc, &user, &user)?;
//! ```
//!
//! A contract sees a type as a `TypeTree`.
#![tactic(auto)]

mod attribute;
mod joining;
mod laws;
mod record_type;
mod truth;
mod types;

pub use attribute::Attribute;
pub use joining::join;
pub use laws::{join_is_the_relation, members_of_joined_types};
pub use record_type::RecordType;
pub use truth::Truth;
pub use types::{Type, TypeKind};
