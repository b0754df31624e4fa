//! Reads the parts of a schema's JSON: namespaces, names, entries, and types with their common types expanded.
//!
//! ```rust
//! use cedar_ext::Language;
//! use cedar_schema_json::{NameTable, Position, Scope, check_spaces, entries_of, names_of, read_type};
//!
//! check_spaces(alloc, Language::Profile, root)?;
//! let commons = entries_of(alloc, root, "commonTypes")?;
//! let common_names = NameTable::new(alloc, names_of(alloc, &commons)?)?;
//! let entities = entries_of(alloc, root, "entityTypes")?;
//! let entity_names = NameTable::new(alloc, names_of(alloc, &entities)?)?;
//! for entry in &commons {
//!     let scope = Scope {
//!         language: Language::Profile,
//!         namespace: entry.namespace,
//!         entities: &entity_names,
//!         commons: &common_names,
//!     };
//!     let form = read_type(alloc, &scope, entry.body, Position::CommonType)?;
//! }
//! ```
//!
//! What the entries of entity types and actions declare, and the schema of a JSON, are in cedar_schema.
#![tactic(auto)]

mod form;
mod json;
mod laws;
mod schema_fault;

pub use form::chains::ends_of;
pub use form::expansion::judge;
pub use form::position::Position;
pub use form::reading::{read_type, text_at};
pub use form::shape::{check_empty, read_record_type};
pub use form::table::Table;
pub use form::{Form, FormField};
pub use json::entry::{
    Entry, check_common_key, check_entity_key, check_spaces, entries_of, names_of,
};
pub use json::enumeration::{Enumeration, read_enumeration};
pub use json::name_table::NameTable;
pub use json::names_list::{read_names_at, set_of};
pub use json::naming::{has_colon, qualified, read_name};
pub use json::part::{Part, check_part, present};
pub use json::scope::Scope;
pub use laws::members_are_looked_up;
pub use schema_fault::SchemaFault;
