//! Changes of entities from their JSON.
ghost use Rattle.std.specs.Prelude.{◌≡◌, ◌≢◌, IfErr, IfOk, MatchResult, option_map, unwrap_or};
ghost use Rattle.serde_json.specs.Data.{array, no_items};
ghost use Rattle.serde_json.specs.Find.{as_array, get};
ghost use Rattle.serde_json.specs.View.{items_view, view};
ghost use Rattle.cedar_conform_values.specs.declared.conform_fault.ConformFault.TheVariants.{OutOfMemory};
ghost use Rattle.cedar_conform_entities.specs.Changes.{BytesDenoteChanged, BytesHaveChangesFault, DenotesChanges};
ghost use Rattle.cedar_conform_entities.specs.Private.Changing.{AreChangesOf, HasStoreChangesFault, RefusesChanges, RefusesChangesOf};
ghost use Rattle.cedar_schema_spec.specs.Conformance.{Conforms};
ghost use Rattle.cedar_store.specs.Changes.{changed, HaveSameEntities};
ghost use Rattle.cedar_store.specs.Entities.{AreUidsDistinct, IsAcyclic};

use crate::keys::has_change_keys;
use crate::laws::changed_worlds_conform;
use crate::removals::judge_removals;
use crate::upserts::read_upserts;
use crate::written::read_uids;
use base_json::read_json;
use cedar_conform_values::ConformFault;
use cedar_schema::Schema;
use cedar_store::{Entity, Store, StoreFault};
use cedar_value::Uid;
use serde_json::Value as Json;
use std::alloc::Global;

/// What changes say: the uids to remove, and the entities to upsert.
#[derive(Drop)]
struct Changes {
    removed: Vec<Uid>,
    upserted: Vec<Entity>,
}

/// The store after the changes that the bytes write, `{"upsert":[entry, ..],"remove":[uid, ..]}` (Cedar's crate, upsert and
/// removal of entities; Cedar documentation, entities and context in JSON). Each key may be absent, and entries and uids are
/// written as in a list of entities. For example `{"upsert":[],"remove":[{"type":"User","id":"ann"}]}` removes `User::"ann"`.
///
/// An entity that is upserted replaces the one with its uid. A uid that is removed and upserted is upserted. To remove a uid
/// that is not there changes nothing, and what has a removed entity as a parent keeps it as a parent. The schema's actions stay:
/// an entry may repeat one, which changes nothing, and none is removed. A store that conforms to the schema still conforms to it
/// after the changes. The store that is lent stays as it is, also after an error.
///
/// Reading takes time that grows with the number of values, and memory for the tree of the JSON and a set of the uids, which
/// are freed before `Store::with_changes` makes the store.
///
/// # Errors
///
/// 1 when out of memory, and otherwise 401, 402 or 501 to 509 only where the bytes have that fault. 401: a list names a uid
/// twice. 402: an entity is below itself after the changes. 508: an action is removed, or an entry of one differs from it.
pub fn read_changes(
    alloc: Global,
    schema: &Schema,
    store: &Store,
    bytes: &[u8],
) -> Result<Store, ConformFault>
    ensures denotes { IfOk result (BytesDenoteChanged schema.now bytes.now store.now) }
    ensures conforms { Conforms schema.now store.now → IfOk result (Conforms schema.now) }
    ensures refused { IfErr result (λ f. f ≢ OutOfMemory → BytesHaveChangesFault schema.now store.now bytes.now f) }
{
    // The schema is well formed, and after changes that a JSON denotes a world that conforms still conforms to it.
    schema.well_formedness();
    changed_worlds_conform();
    let Changes { removed, upserted } = changes_in(alloc, schema, bytes)?;
    change_store(alloc, store, &removed, upserted)
}

// The changes that the bytes write. The tree of the JSON is freed before the store is changed.
fn changes_in(alloc: Global, schema: &Schema, bytes: &[u8]) -> Result<Changes, ConformFault>
    ensures { MatchResult result
        (λ c. AreChangesOf schema.now bytes.now c.removed.items c.upserted.items)
        (RefusesChangesOf schema.now bytes.now) }
{
    let Some(json) = read_json(alloc, bytes)? else {
        return Err(ConformFault::Json);
    };
    let read = changes_of(alloc, schema, &json);
    drop(json);
    read
}

// The changes that the JSON denotes, or one of its faults.
fn changes_of(alloc: Global, schema: &Schema, json: &Json) -> Result<Changes, ConformFault>
    ensures { MatchResult result
        (λ c. DenotesChanges schema.now (view json.now) c.removed.items c.upserted.items)
        (RefusesChanges schema.now (view json.now)) }
{
    if !has_change_keys(json) {
        return Err(ConformFault::Shape);
    }
    let Some(entries) = items_at(json, "upsert") else {
        return Err(ConformFault::Shape);
    };
    let Some(uids) = items_at(json, "remove") else {
        return Err(ConformFault::Shape);
    };
    let removed = read_uids(alloc, schema, uids)?;
    judge_removals(alloc, schema, &removed)?;
    let upserted = read_upserts(alloc, schema, entries)?;
    Ok(Changes { removed, upserted })
}

// The items of the list at a key, none of them where the key is absent. None where its value is not a list.
fn items_at<'j>(json: &'j Json, key: &str) -> Option<&'j [Json]>
    ensures { option_map (λ v. items_view v.now) result ≡ as_array (unwrap_or (get key.now (view json.now)) (array no_items)) }
{
    let Some(found) = json.get(key) else {
        return Some(&[]);
    };
    match found.as_array() {
        Some(items) => Some(items),
        None => None,
    }
}

// The store after the changes.
pub(crate) fn change_store(
    alloc: Global,
    store: &Store,
    removed: &[Uid],
    upserted: Vec<Entity>,
) -> Result<Store, ConformFault>
    ensures world { IfOk result (λ s. HaveSameEntities s (changed store.now removed.now upserted.items)) }
    ensures distinct { IfOk result AreUidsDistinct }
    ensures acyclic { IfOk result IsAcyclic }
    ensures refused { IfErr result (HasStoreChangesFault store.now removed.now upserted.items) }
{
    match store.with_changes(alloc, removed, upserted) {
        Ok(store) => Ok(store),
        Err(fault) => match fault {
            StoreFault::OutOfMemory => Err(ConformFault::OutOfMemory),
            StoreFault::DuplicateEntity(uid) => Err(ConformFault::DuplicateEntity(uid)),
            StoreFault::Cycle(uid) => Err(ConformFault::Cycle(uid)),
        },
    }
}
