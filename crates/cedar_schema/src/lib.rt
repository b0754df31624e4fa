//! Reads a schema from its JSON: entity types, actions, environments, and what descends from what.
//!
//! ```rust
//! use cedar_schema::Schema;
//!
//! let schema = Schema::read(alloc, bytes)?;
//! for environment in schema.environments() {
//!     println!(rt; "{} may act on {}", environment.principal.as_str(), environment.resource.as_str())?;
//! }
//! ```
//!
//! A contract sees a schema as a `SchemaTree` of cedar_schema_spec. Types come from cedar_schema_types, names and types as
//! they are written from cedar_schema_json.
#![tactic(auto)]

mod laws;
mod schema;

pub use cedar_schema_json::{Enumeration, SchemaFault};
pub use cedar_schema_spec::{Environment, actions_conform, tests_of_schemas_decide};
pub use cedar_schema_types::{
    Attribute, RecordType, Truth, Type, TypeKind, join, join_is_the_relation,
    members_of_joined_types,
};
pub use laws::{cycles_are_found, profile_schemas, schemas_are_written};
pub use schema::{Action, Schema};
