//! Names, uids, values, sets, records and requests, and the worlds of entities over which policies are evaluated.
//!
//! ```rust
//! use cedar_value::{Name, Record, SharedText, Text, Uid, Value};
//!
//! let ty = Name::read(alloc, "Photos::User")?.unwrap();
//! let alice = Uid { ty, id: Text::read(alloc, "alice")? };
//! let pairs = vec![in alloc; (SharedText::read(alloc, "age")?, Value::long(7))]?;
//! let context = Record::from_pairs(pairs)?.unwrap();
//! assert!(rt; context.get("age") == Some(&Value::long(7)));
//! ```
//!
//! A contract sees each of them as the plain tree of its definition: a text as its bytes, a value as a `Datum`.
#![tactic(auto)]

mod glance;
mod hierarchy;
mod laws;
mod name;
mod no_entities;
mod order;
mod path;
mod request;
mod shared_text;
mod text;
mod uid;
mod value;
mod value_record;
mod value_set;

pub use glance::Glance;
pub use hierarchy::Hierarchy;
pub use laws::{
    below_is_a_chain_of_links, has_member_tells_members, is_name_tells_names,
    record_from_has_the_pairs, same_tells_equal_values, set_from_has_the_members,
    value_at_tells_pairs,
};
pub use name::Name;
pub use no_entities::NoEntities;
pub use request::Request;
pub use shared_text::SharedText;
pub use text::Text;
pub use uid::Uid;
pub use value::{Value, ValueKind};
pub use value_record::Record;
pub use value_set::ValueSet;
