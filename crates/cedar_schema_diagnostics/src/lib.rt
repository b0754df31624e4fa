//! Explains why a schema is refused: the path of the part, the name that is not declared, and what to write instead.
//!
//! ```rust
//! use cedar_ext::Language;
//! use cedar_schema_diagnostics::refused_part;
//!
//! let bytes = b"{\"Shop\":{\"entityTypes\":{\"User\":{\"memberOfTypes\":[\"Tema\"]},\"Team\":{}}}}";
//! if let Some(part) = refused_part(alloc, Language::Profile, bytes, 303)? {
//!     assert_eq!(rt; part.path.as_str(), "Shop.entityTypes.User.memberOfTypes[0]");
//! }
//! ```
#![tactic(auto)]

mod action_circle;
mod actions;
mod annotations;
mod any_type;
mod built_in;
mod circle_words;
mod circles;
mod common_circle;
mod common_types;
mod declared;
mod entity_types;
mod enumerated;
mod explain;
mod extensions;
mod forms;
mod keys;
mod kinds;
mod left_out;
mod members;
mod naming;
mod part;
mod records;
mod sections;
mod setting;
mod shadows;
mod spaces;
mod step;
mod text;
mod type_keys;
mod type_names;
mod type_shape;
mod types;
mod undeclared;

pub use explain::{refused_part, refused_part_of};
pub use part::RefusedPart;
pub use step::declaration_path;
