//! Explains why a schema text is refused: what is expected at a place, what is likely meant, and where a name is declared first.
//!
//! ```rust
//! use cedar_schema_text::SchemaTextFault;
//! use cedar_schema_text_diagnostics::explain_text;
//!
//! let explained = explain_text(alloc, "entity User = { name String };", SchemaTextFault::Syntax(21))?;
//! assert_eq!(rt; explained.says.as_str(), "unexpected `String`, expected `:` or `?`");
//! ```
#![tactic(auto)]

mod around;
mod characters;
mod declared;
mod expected;
mod explain;
mod hint;
mod hint_of_declaration;
mod hint_of_end;
mod hint_of_list;
mod hint_of_type;
mod piece;
mod second;
mod steps;
mod twice;
mod unexpected;

pub use declared::{Declared, Section, declared_in};
pub use explain::{ExplainedText, SecondPlace, explain_text};
