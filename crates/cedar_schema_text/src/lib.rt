//! The Cedar schema syntax, read as the JSON of a schema.
//!
//! ```
//! use cedar_schema_text::read_schema_text;
//!
//! let json = read_schema_text(rt.alloc(), "entity User; action view;")?;
//! assert!(rt; json.get("").is_some());
//! ```
//!
//! Tokens are defined in `specs/Tokens.antt`, and the grammar with the JSON that each rule writes in `specs/Grammar.antt`.
#![tactic(auto)]

mod action;
mod annotation;
mod cursor;
mod declaration;
mod entity;
mod fault;
mod lexer;
mod lists;
mod names;
mod object;
mod reading;
mod schema_type;
mod space;
mod strings;
mod token;
mod token_kind;
mod tokens;

pub use fault::SchemaTextFault;
pub use reading::read_schema_text;
