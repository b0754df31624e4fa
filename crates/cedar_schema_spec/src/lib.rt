//! What a schema is, and which entities and requests conform to it, as definitions.
//!
//! The crate has definitions, and laws about them, and no other code. Read `specs/` in this order:
//!
//! - `SchemaTree`: a schema, as the entity types and the actions that it declares, and its environments.
//! - `Descents`: what an entity type or an action descends from.
//! - `Enumerated`: which uids an enumerated entity type has.
//! - `Declarations`: what a schema declares, as tests, and the entities that its actions are.
//! - `Conformance`: which entities and requests conform to a schema.
//! - `WellFormed`: what holds of every schema that is read.
//!
//! The crate cedar_schema reads a schema from its JSON.
#![tactic(auto)]

mod environment;
mod laws;

pub use environment::Environment;
pub use laws::{actions_conform, tests_of_schemas_decide};
