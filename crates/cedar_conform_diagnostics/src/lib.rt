//! Explains why entities, requests and links are refused: the entry, its uid, the path of the attribute, and what is wanted there.
//!
//! ```rust
//! use cedar_conform_diagnostics::refused_entry;
//!
//! if let Some(refused) = refused_entry(alloc, &schema, bytes)? {
//!     println!(rt; "entry {}: {}: {}", refused.position, refused.fault.path, refused.fault.says)?;
//! }
//! ```
//!
//! The number, the position of an entry and that no entry before it is refused are proved. The paths and the words are tested. They
//! may hold any character of the data: make them safe before a terminal shows them (`base_places`).
#![tactic(auto)]

mod circle;
mod data_fault;
mod declared;
mod entries;
mod entry_shape;
mod entry_words;
mod found;
mod json_hint;
mod links;
mod meant;
mod owner;
mod positions;
mod request;
mod request_words;
mod shown;
mod uid_words;
mod undeclared;
mod unlisted;
mod unlisted_path;
mod value_path;
mod visiting;
mod wanted;
mod words;
mod written_entry;

pub use circle::circle_through;
pub use data_fault::{CircleEntry, DataFault, RefusedEntry, RefusedLink};
pub use entries::refused_entry;
pub use json_hint::meant_in_json;
pub use links::refused_link;
pub use positions::entries_of_uid;
pub use request::refused_request;
