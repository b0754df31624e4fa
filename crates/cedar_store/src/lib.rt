//! Entities, and what is above each of them.
//!
//! ```rust
//! use cedar_store::{Entity, Hierarchy, Store};
//!
//! // `alice` has the one parent `friends`, and no attributes.
//! let entity = Entity { uid: alice.try_clone(alloc)?, attrs: Record::new(alloc), parents };
//! let store = Store::build(alloc, vec![in alloc; entity]?)?;
//! assert!(rt; store.is_below(&alice, &friends));
//! ```
//!
//! A contract sees a hierarchy as a world: the list of its entities with their attributes and direct parents. [`Store`] keeps
//! what an entity is below as a row of bits, [`PlainStore`] as a set of uids. Both have the same contract.
#![tactic(auto)]

mod ahead;
mod ancestors;
mod ascent;
mod base;
mod call_marks;
mod change;
mod change_hash;
mod change_map;
mod change_tree;
mod changed_links;
mod changing;
mod descendant;
mod entity;
mod entity_table;
mod gathering;
mod keyed_change;
mod links;
mod links_stay;
mod marks;
mod more_changes;
mod noting;
mod numbers;
mod overlay;
mod part;
mod plain_ancestors;
mod plain_sets;
mod plain_store;
mod rows;
mod settling;
mod store;
mod store_fault;
mod sweeping;
mod uid_hasher;
mod uid_hashing;

pub use base_bits::any_common;
pub use cedar_value::{Hierarchy, NoEntities, below_is_a_chain_of_links};
pub use descendant::Descendant;
pub use entity::Entity;
pub use plain_store::PlainStore;
pub use store::Store;
pub use store_fault::StoreFault;
pub use uid_hashing::UidHashing;
