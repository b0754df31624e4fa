//! Explains to a person why a file is refused: file, line and column, the line with a mark, the reason in words, and a hint.
//!
//! ```rust
//! use cedar_ext::Language;
//! use cedar_files_diagnostics::explain_policies;
//!
//! let bytes = Vec::from_slice(alloc, b"permit(principal, action, resource) when { principal.age = 18 };")?;
//! if let Some(explained) = explain_policies(alloc, Language::Profile, "policies.cedar", bytes)? {
//!     assert!(rt; explained.to_lines(alloc)?.starts_with("error[101]: "));
//! }
//! ```
//!
//! The number, the line and the column are those of a fault that the file has. The words, the hints and the marks are tested. What
//! is shown of a file has no control character and no character that changes the direction of text (`base_places`).
#![tactic(auto)]

mod again;
mod around;
mod brought;
mod changes;
mod counting_sink;
mod data;
mod diagnostic;
mod diagnostic_draft;
mod entities;
mod excerpt;
mod expected;
mod explain;
mod explain_all;
mod fault_part;
mod faults;
mod faulty;
mod file_kind;
mod format;
mod guards;
mod human;
mod item_place;
mod json_lines;
mod json_policies;
mod json_text;
mod link_words;
mod links;
mod messages;
mod own_statement;
mod policy_text;
mod policy_words;
mod quoted;
mod refused;
mod schema_texts;
mod schemas;
mod second_place;
mod syntax_hint;
mod token_words;
mod unexpected;
mod unlinked;
mod words;

pub use brought::explain_request_with_entities;
pub use changes::explain_changes;
pub use counting_sink::{CountingSink, FirstRefused, LineCounts};
pub use data::explain_request;
pub use diagnostic::{Diagnostic, Explanation, Mark, Severity, Subject};
pub use explain::explain_file;
pub use explain_all::explain_files;
pub use fault_part::Checked;
pub use faults::explain_faults;
pub use faulty::{explain_policy_faults, explain_report};
pub use file_kind::is_json_policies;
pub use format::Format;
pub use guards::has_false_guard;
pub use json_text::{explain_json, json_offset};
pub use messages::{impossible_policies, not_again, refused_lines, unlinked_templates, unreadable};
pub use policy_text::{PolicyPlace, explain_policies, policy_place};
pub use refused::RefusedFile;
pub use unlinked::count_unlinked;
pub use words::explain_number;
