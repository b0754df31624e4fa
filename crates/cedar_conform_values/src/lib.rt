//! Reads uids, and values according to their types, from the JSON of entities, requests and links.
//!
//! ```rust
//! use cedar_conform_values::{ConformFault, read_value, written_uid};
//!
//! // `number` is the JSON `18`, and `text` the JSON `"User::\"ann\""`.
//! let age = read_value(alloc, number, &Type::new(TypeKind::Long))?;
//! let Some(principal) = written_uid(alloc, text)? else {
//!     return Err(ConformFault::Shape);
//! };
//! ```
//!
//! A value is read for a type. JSON alone does not say which value it is: `"1.0"` is a string or a decimal.
#![tactic(auto)]

mod conform_fault;
mod laws;
mod lent_record;
mod lent_uid;
mod membership;
mod names;
mod object;
mod scalar;
mod uid;
mod value;

pub use conform_fault::ConformFault;
pub use laws::{one_written_uid, read_values_belong};
pub use lent_record::{MOST_MEMBERS, read_lent_record, read_short_record};
pub use lent_uid::{LentUid, uid_of_lent};
pub use membership::{is_member, is_record_member};
pub use names::Names;
pub use object::{size_of, text_at};
pub use uid::{uid_of_object, uid_of_text, written_uid};
pub use value::{read_record, read_value};
