//! Reads entities from their JSON according to a schema, as a store that conforms to it.
//!
//! ```rust
//! use cedar_conform_entities::read_entities;
//!
//! let store = read_entities(alloc, &schema, bytes)?;
//! assert!(rt; store.is_below(&ann, &team));
//! ```
//!
//! [`read_entities`] is lent the bytes; [`read_entities_owned`] owns them, and frees what it has read.
//!
//! [`read_changes`] reads changes of a store: entities to upsert, and uids to remove. [`upsert_entities`] upserts entries of a JSON
//! that has been read, such as those that come with a request.
//!
//! A list of entries is read one by one: first what an entry writes, whatever the schema is, then what it means for the schema.
//! The schema's actions are in every store, before the entities. A world that is read conforms to the schema, which is a
//! premise of the soundness of typing.
#![tactic(auto)]

mod actions;
mod changes;
mod entities;
mod entries;
mod entry;
mod judging;
mod keys;
mod laws;
mod list;
mod listed;
mod noted;
mod objects;
mod plain;
mod removals;
mod upserting;
mod upserts;
mod written;

pub use changes::read_changes;
pub use entities::{read_entities, read_entities_owned};
pub use entry::entry_fault;
pub use laws::{
    changed_worlds_are_exact, changed_worlds_conform, denoted_worlds_are_exact,
    denoted_worlds_conform, sound_entities_conform,
};
pub use upserting::upsert_entities;
