//! Reads bytes as JSON: one text, texts one after another, or a long list object by object.
//!
//! ```rust
//! use base_json::read_json;
//!
//! match read_json(alloc, bytes)? {
//!     Some(json) => println!(rt; "{json}")?,
//!     None => println!(rt; "not JSON")?,
//! }
//! ```
//!
//! To read many texts, use a reader, which keeps its buffers from text to text. It gives what `read_json` gives. For a short
//! text, making the buffers costs the most, and a reader makes them once:
//!
//! ```rust
//! use base_json::JsonReader;
//!
//! let mut reader = JsonReader::new(alloc)?;
//! for line in lines {
//!     if let Some(json) = reader.read(alloc, line)? {
//!         println!(rt; "{json}")?;
//!     }
//! }
//! ```
//!
//! A long list is read object by object, in memory for the longest of them. Where an object cannot be read from its own bytes
//! alone, a reader of the whole rest goes on:
//!
//! ```rust
//! use base_json::ObjectReader;
//!
//! if let Ok(mut objects) = ObjectReader::open(alloc, bytes) {
//!     while let Some(json) = objects.next(alloc)? {
//!         println!(rt; "{json}")?;
//!     }
//!     let mut items = objects.rest()?;
//!     while let Some(json) = items.next(alloc)? {
//!         println!(rt; "{json}")?;
//!     }
//! }
//! ```
//!
//! A list whose items need no tree is a [`ListText`]: it lends the members of each object in the plain form. Of other objects it lends the
//! text, and a reader lends the members of that text:
//!
//! ```rust
//! use base_json::{JsonReader, ListText};
//!
//! let mut reader = JsonReader::new(alloc)?;
//! if let Ok(mut list) = ListText::open(bytes) {
//!     // The objects in the plain form that come first, and then the others.
//!     'plain: loop {
//!         let Some(next) = list.plain_item(alloc)? else { break };
//!         let (passed, count) = (next.passed, next.item.members.len());
//!         drop(next);
//!         list.pass(passed)?;
//!         println!(rt; "{count} members")?;
//!     }
//!     while let Some(object) = list.object() {
//!         let passed = object.passed;
//!         let Some(item) = reader.lent_item(alloc, object.text)? else { break };
//!         println!(rt; "{} members", item.members.len())?;
//!         drop(item);
//!         list.pass(passed)?;
//!     }
//! }
//! ```
#![tactic(auto)]

mod behind;
mod item_value;
mod items;
mod json_tree;
mod lent_item;
mod lent_object;
mod lent_value;
mod list_text;
mod members;
mod number;
mod object_end;
mod object_member;
mod object_text;
mod objects;
mod plain_integer;
mod plain_item;
mod plain_member;
mod plain_object;
mod plain_scalar;
mod quoted_member;
mod quoted_text;
mod reader;
mod scalars;
mod single_item;
mod step;
mod three_quoted;
mod tree;
mod tree_fault;

pub use item_value::ItemValue;
pub use items::ItemReader;
pub use json_tree::read_json;
pub use lent_item::{ItemMember, LentItem};
pub use lent_object::{LentMember, LentObject, LentPart};
pub use lent_value::LentValue;
pub use list_text::{ListText, PlainItem};
pub use members::MemberReader;
pub use object_text::ObjectText;
pub use objects::ObjectReader;
pub use quoted_text::QuotedText;
pub use reader::JsonReader;
pub use three_quoted::ThreeQuoted;
pub use tree_fault::TreeFault;
